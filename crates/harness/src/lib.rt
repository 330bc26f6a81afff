// The calls on plain numbers, for reference/compare to link: a record and a list of calls go in as numbers, and the
// answers and the next record come out. The one contract here says how many calls are run; all functions are proved safe and ending.
#![tactic(auto)]

ghost use Rattle.std.specs.Prelude.{◌≡◌, ◌/◌, length};

use numbers::{put_eight, put_record, record_in};
use run::Run;
use std::array;
use supervisor::Supervisor;
use trigger::lines::Inputs;

mod answer;

use answer::{
    Reply, bytes_read_reply, bytes_write_reply, fill_reply, fresh_reply, read_reply, tick_reply,
    write_reply,
};

// A call is 4 numbers: its kind and its arguments.
const CALL_NUMBERS: usize = 4;

const ANSWER_NUMBERS: usize = 8;

fn word_of(n: u64) -> u32 {
    (n % 4294967296) as u32
}

// A run of bytes: its first byte, and its count in the upper half.
fn run_of(n: u64) -> Run {
    Run {
        first: word_of(n),
        count: word_of(n >> 32),
    }
}

// The word of an input in a number that holds four, the first of them lowest.
fn short_of(n: u64, at: u32) -> u16 {
    ((n >> (at % 4 * 16)) % 65536) as u16
}

// Twelve words, one for each input: four in each number.
fn words_of(a: u64, b: u64, c: u64) -> [u16; 12] {
    let numbers = [a, b, c];
    array::from_fn(|i| short_of(numbers[i / 4], (i % 4) as u32))
}

// One call, by its number in the C interface: 0 register write, 1 register read, 2 memory write, 3 memory read, 4 tick, 6 and 7
// register write and read by a run of bytes, 8 a fill of the memory, any other fresh.
fn reply_to(s: Supervisor, memory: &mut [u16], kind: u64, a: u64, b: u64, c: u64) -> Reply {
    match kind {
        0 => write_reply(calls::write_register(s, word_of(a), word_of(b))),
        1 => read_reply(calls::read_register(s, word_of(a))),
        2 => write_reply(calls::write_memory(s, memory, word_of(a), (b % 65536) as u16)),
        3 => read_reply(calls::read_memory(s, memory, word_of(a))),
        4 => tick_reply(calls::tick(
            s,
            memory,
            Inputs::brought(word_of(a), word_of(b), word_of(c)),
        )),
        6 => bytes_write_reply(calls::write_bytes(s, word_of(a), run_of(c), word_of(b))),
        7 => bytes_read_reply(calls::read_bytes(s, word_of(a), run_of(c))),
        8 => fill_reply(calls::fill_memory(s, memory, words_of(a, b, c))),
        _ => fresh_reply(),
    }
}

// Runs the whole calls of the list, leaves the record after them and the answers that fit, and says how many it ran.
#[unsafe(no_mangle)]
pub extern "C" fn run_calls(
    record: &mut [u64],
    memory: &mut [u16],
    calls: &[u64],
    answers: &mut [u64],
) -> u64
    ensures { result ≡ length calls.now / 4 }
{
    let mut s = record_in(record);
    let count = calls.len() / CALL_NUMBERS;
    let mut ran: u64 = 0;
    for i in 0..count {
        let at = i * CALL_NUMBERS;
        let r = reply_to(
            s,
            memory,
            calls[at],
            calls[at + 1],
            calls[at + 2],
            calls[at + 3],
        );
        s = r.next;
        put_eight(answers, i % 134217728 * ANSWER_NUMBERS, r.numbers);
        ran += 1;
    }
    put_record(record, s);
    ran
}
