// The public calls (document 01, "When a call is declined"; document 02, N4, N5, N7). Each takes the record by value, refuses bad
// input by itself, and hands back the next record with its answer. No call has a `requires`; each contract is an equality
// with a definition of crate `declines`, for every record and every memory; `write_memory` and `fill_memory` have one more, for
// the memory.
#![tactic(auto)]

ghost use Rattle.std.specs.Prelude.{◌≡◌};
ghost use Rattle.declines.specs.Calls.{is_guarded_of};
ghost use Rattle.declines.specs.Calls.{write_run_of, read_run_of, write_register_of, read_register_of, write_bytes_of, read_bytes_of};
ghost use Rattle.declines.specs.Calls.{write_memory_of, memory_after_of, read_memory_of, tick_of};
ghost use Rattle.declines.specs.Fill.{fill_memory_of, memory_filled_of};

use access::{after_read, merged, shown, written};
use declines::{BytesDecline, Decline, Done, FillDecline};
use registers::csr::Csr;
use registers::register::Register;
use run::Run;
use supervisor::{Answer, Supervisor};
use trigger::lines::Inputs;

mod refusals;

use refusals::{lent, marked, place_in, readable, refused, writable};

// [Memory.1]
pub const MEMORY_PLACES: usize = 4096;

// [Declines.5c] FFFh and 7Fh
pub const TRIGGERS_LIMIT: u32 = 4095;

pub const LINES_LIMIT: u32 = 127;

// ---- register calls

// [Declines.2c] [Test.2] the register is not written while the record is active
fn is_guarded(s: Supervisor, register: Register) -> bool
    ensures { result ≡ is_guarded_of register s }
{
    let facts = register.facts();
    facts.protected && !(facts.opened && s.core.csr.is_test_mode())
}

// [Declines.2c] [Declines.2d] the rest of a write: a register that may be written, and a run of its bytes
#[tactic(auto, unfolding(declines::specs::Calls::write_run_of))]
fn write_run(s: Supervisor, register: Register, run: Run, value: u32) -> Done<Result<(), Decline>>
    ensures { result ≡ write_run_of register run value s }
{
    if s.is_active() && is_guarded(s, register) {
        return refused(marked(s, Csr::WRITE_ERROR), Decline::Active);
    }
    let word = merged(s, register, run, value);
    if !register.is_valid_value(word) {
        return refused(s, Decline::Value);
    }
    Done {
        next: written(s, register, run.has_byte_3(), word),
        answer: Ok(()),
    }
}

// [Declines.3b] [Bytes.7] the rest of a read: a register that may be read, and a run of its bytes
#[tactic(auto, unfolding(declines::specs::Calls::read_run_of))]
fn read_run(s: Supervisor, register: Register, run: Run) -> Done<Result<u32, Decline>>
    ensures { result ≡ read_run_of register run s }
{
    let next = after_read(s, register, run.has_byte_3());
    Done {
        next,
        answer: Ok(run.cut(shown(next, register))),
    }
}

// [Declines.2a] [Declines.2b] [Declines.2c] [Declines.2d] all four bytes
#[tactic(auto, unfolding(declines::specs::Calls::write_register_of))]
pub fn write_register(s: Supervisor, number: u32, value: u32) -> Done<Result<(), Decline>>
    ensures { result ≡ write_register_of number value s }
{
    match writable(s, number) {
        Ok(register) => write_run(s, register, Run::whole(), value),
        Err(why) => refused(s, why),
    }
}

// [Declines.3a] [Declines.3b] all four bytes
#[tactic(auto, unfolding(declines::specs::Calls::read_register_of))]
pub fn read_register(s: Supervisor, number: u32) -> Done<Result<u32, Decline>>
    ensures { result ≡ read_register_of number s }
{
    match readable(s, number) {
        Ok(register) => read_run(s, register, Run::whole()),
        Err(why) => refused(s, why),
    }
}

// [Bytes.2] [Bytes.11] a run of the bytes, each in its place in the value
#[tactic(auto, unfolding(declines::specs::Calls::write_bytes_of))]
pub fn write_bytes(
    s: Supervisor,
    number: u32,
    run: Run,
    value: u32,
) -> Done<Result<(), BytesDecline>>
    ensures { result ≡ write_bytes_of number run value s }
{
    match writable(s, number) {
        Err(why) => refused(s, BytesDecline::from(why)),
        Ok(_) if !run.is_run() => refused(s, BytesDecline::BadRun),
        Ok(register) => write_run(s, register, run, value).by_bytes(),
    }
}

// [Bytes.2] [Bytes.7] [Bytes.11] a run of the bytes, each in its place in the value, and 0 elsewhere
#[tactic(auto, unfolding(declines::specs::Calls::read_bytes_of))]
pub fn read_bytes(s: Supervisor, number: u32, run: Run) -> Done<Result<u32, BytesDecline>>
    ensures { result ≡ read_bytes_of number run s }
{
    match readable(s, number) {
        Err(why) => refused(s, BytesDecline::from(why)),
        Ok(_) if !run.is_run() => refused(s, BytesDecline::BadRun),
        Ok(register) => read_run(s, register, run).by_bytes(),
    }
}

// ---- memory calls

// [Declines.4a] [Declines.4b] [Declines.4c] [Declines.4d]
#[tactic(auto, unfolding(declines::specs::Calls::write_memory_of, declines::specs::Calls::memory_after_of))]
pub fn write_memory(
    s: Supervisor,
    memory: &mut [u16],
    place: u32,
    word: u16,
) -> Done<Result<(), Decline>>
    ensures value { result ≡ write_memory_of memory.old place s }
    ensures memory_after { memory.new ≡ memory_after_of memory.old place word s }
{
    let at = match place_in(s, memory, place) {
        Ok(at) => at,
        Err(why) => return refused(s, why),
    };
    if s.is_active() {
        return refused(marked(s, Csr::WRITE_ERROR), Decline::Active);
    }
    memory[at] = word;
    Done {
        next: s,
        answer: Ok(()),
    }
}

// [Declines.4a] [Declines.4b] [Declines.4c] [Declines.4d]
#[tactic(auto, unfolding(declines::specs::Calls::read_memory_of))]
pub fn read_memory(s: Supervisor, memory: &[u16], place: u32) -> Done<Result<u32, Decline>>
    ensures { result ≡ read_memory_of memory.now place s }
{
    match place_in(s, memory, place) {
        Err(why) => refused(s, why),
        Ok(_) if s.is_active() => refused(marked(s, Csr::READ_ERROR), Decline::Active),
        Ok(at) => Done {
            next: s,
            answer: Ok(u32::from(memory[at])),
        },
    }
}

// [Table.4] [Table.8a] [Table.8b] every place, from twelve words, one for each input
#[tactic(auto, unfolding(declines::specs::Fill::fill_memory_of, declines::specs::Fill::memory_filled_of))]
pub fn fill_memory(
    s: Supervisor,
    memory: &mut [u16],
    words: [u16; 12],
) -> Done<Result<(), FillDecline>>
    ensures value { result ≡ fill_memory_of memory.old words s }
    ensures memory_after { memory.new ≡ memory_filled_of memory.old words s }
{
    if let Err(why) = lent(s, memory) {
        return refused(s, FillDecline::from(why));
    }
    if s.is_active() {
        return refused(
            marked(s, Csr::WRITE_ERROR),
            FillDecline::from(Decline::Active),
        );
    }
    if !table::are_taken(words) {
        return refused(s, FillDecline::BadWord);
    }
    table::fill(memory, words);
    Done {
        next: s,
        answer: Ok(()),
    }
}

// ---- the tick

// [Declines.5a] [Declines.5b] [Declines.5c]; DECISIONS F28: the record of a declined tick is rebuilt, for speed
#[tactic(auto, unfolding(declines::specs::Calls::tick_of))]
pub fn tick(s: Supervisor, memory: &[u16], x: Inputs) -> Done<Result<Answer, Decline>>
    ensures { result ≡ tick_of memory.now x s }
{
    if let Err(why) = lent(s, memory) {
        return refused(s.rebuilt(), why);
    }
    if TRIGGERS_LIMIT < x.triggers || LINES_LIMIT < x.lines.word {
        return refused(s.rebuilt(), Decline::Value);
    }
    let t = s.ticked(memory, x);
    Done {
        next: t.next,
        answer: Ok(t.answer),
    }
}
