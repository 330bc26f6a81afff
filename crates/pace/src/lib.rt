// The loop that reference/bench measures: ticks by the public call, over a table of inputs that the caller lends. It is
// a crate of its own, so that the program has one call of the tick and the compiler puts it into the loop.
// No contract says what the sum is; reference/bench compares it with the model's. That n ticks are run is proved in the loop.
#![tactic(auto)]

use branch::{Branch, Slot};
use branches::{Readout, Side};
use declines::Decline;
use module_core::Core;
use numbers::number_at;
use prescaler::Prescalers;
use registers::control::Control;
use registers::csr::Csr;
use scalers::Scalers;
use sequencer::main_sequencer::MainSequencer;
use sequencer::states::Outcome;
use std::array;
use supervisor::{Answer, Supervisor};
use sync::counter::SyncCounter;
use sync::user::UserSync;
use testing::TestWord;
use timers::{Count20, Count40, Timers};
use trigger::latch::Masks;
use trigger::lines::Inputs;

// ---- the record to start with: its registers from the table, every counter loaded, all else as at power-up. It is built
// here and not by `numbers`, so that the compiler keeps the loop's record apart; that saves a seventh of a tick.

// How many inputs the table has; the registers 0–21 stand after them, STATE as 0.
const INPUTS: usize = 16384;

const REGISTERS: usize = 22;

fn register_at(table: &[u64], number: usize) -> u32 {
    let place = INPUTS + number % 32;
    (number_at(table, place) % 4294967296) as u32
}

fn count40(value: u32) -> Count40 {
    Count40((value % 65536) as u16)
}

fn factors_in(table: &[u64]) -> Prescalers {
    let factors = array::from_fn(|i| register_at(table, 2 + i));
    Prescalers {
        counters: factors,
        factors,
    }
}

fn timers_in(table: &[u64]) -> Timers {
    Timers {
        t1: count40(register_at(table, 12)),
        t2: count40(register_at(table, 13)),
        t3: count40(register_at(table, 14)),
        t4: count40(register_at(table, 15)),
        t5: Count20((register_at(table, 16) % 256) as u8),
    }
}

fn core_in(table: &[u64]) -> Core {
    let csr = Csr {
        word: register_at(table, 0),
    };
    let control = Control {
        word: register_at(table, 1),
    };
    let test = TestWord {
        word: register_at(table, 21),
    };
    let sync = SyncCounter {
        interval: (register_at(table, 11) % 65536) as u16,
        count: 0,
    };
    let scalers = Scalers {
        scaler0: register_at(table, 17),
        scaler1: register_at(table, 18),
        assign: register_at(table, 19),
        ..Scalers::fresh()
    };
    Core {
        prescalers: factors_in(table),
        csr,
        control,
        test,
        scalers,
        main: MainSequencer::idle(),
        timers: timers_in(table),
        sync,
        user: UserSync::fresh(),
        // any field that is not named above; main and user taken from here cost a tick 7 instructions
        ..Core::fresh()
    }
}

fn record_in(table: &[u64]) -> Supervisor {
    let b = Branch::fresh();
    let readout = Readout {
        branches: [b, b, b, b],
        roc: register_at(table, 10),
        acks: 0,
    };
    Supervisor {
        readout,
        core: core_in(table),
    }
}

// ---- the sum of all answers

fn fold(sum: u64, n: u64) -> u64 {
    ((sum << 5) | (sum >> 59)) ^ n
}

fn slot_number(slot: Slot) -> u64 {
    slot.map_or(255, |word| u64::from(word))
}

fn outcome_number(outcome: Outcome) -> u64 {
    match outcome {
        Outcome::Nothing => 0,
        Outcome::Cleared => 1,
        Outcome::Event(w) => 2 | u64::from(w) << 2,
        Outcome::Tag(w) => 3 | u64::from(w) << 2
    }
}

fn masks_number(m: Masks) -> u64 {
    u64::from(m.stopped)
        | u64::from(m.scaled) << 12
        | u64::from(m.lost) << 24
        | u64::from(m.rejected) << 36
        | u64::from(m.accepted) << 48
}

fn side_number(side: Side) -> u64 {
    let finished = side.finished;
    let shown = side.shown;
    slot_number(finished) | slot_number(shown) << 8
}

fn sides_number(sides: [Side; 4]) -> u64 {
    // bound one by one, as in branches: this is in the loop that is measured
    let s0 = sides[0];
    let s1 = sides[1];
    let s2 = sides[2];
    let s3 = sides[3];
    side_number(s0) | side_number(s1) << 16 | side_number(s2) << 32 | side_number(s3) << 48
}

// The lines and the outcome of a declined tick, and its words: an answer of nothing, with the bit above the outcome set.
const DECLINED: u64 = 4294967296;

const NO_WORDS: u64 = 18446744073709551615;

fn folded(sum: u64, answer: Result<Answer, Decline>) -> u64 {
    match answer {
        Ok(a) => {
            let lines = u64::from(a.lines) | outcome_number(a.outcome) << 16;
            fold(
                fold(fold(sum, masks_number(a.masks)), lines),
                sides_number(a.sides),
            )
        }
        Err(_) => fold(fold(fold(sum, 0), DECLINED), NO_WORDS),
    }
}

// Scalers, CSR, sync count, what is kept of the latest tick, the latches and what waits of TEST, of the last record.
fn closed(sum: u64, s: Supervisor) -> u64 {
    let core = s.core;
    let scalers = u64::from(core.scalers.scaler0) | u64::from(core.scalers.scaler1) << 32;
    let rest = u64::from(core.csr.word) | u64::from(core.sync.count) << 32;
    let latest = core.latest;
    let kept = u64::from(latest.lines.word)
        | u64::from(latest.latched) << 8
        | u64::from(s.readout.acks) << 32;
    let latches = u64::from(core.scalers.latch0) | u64::from(core.scalers.latch1) << 32;
    let test = u64::from(core.test.word);
    fold(
        fold(fold(fold(fold(sum, scalers), rest), kept), latches),
        test,
    )
}

// ---- the loop

// An input of the table: triggers from bit 0, lines from bit 12, acknowledges from bit 32.
fn inputs_in(packed: u64) -> Inputs {
    let triggers = (packed % 4096) as u32;
    let lines = (packed / 4096 % 128) as u32;
    Inputs::brought(triggers, lines, (packed / 4294967296 % 4294967296) as u32)
}

// n ticks, over and over through the table's inputs; 0 for a table that is too short, asked once and not at each tick.
#[unsafe(no_mangle)]
pub extern "C" fn run_ticks(n: u64, memory: &[u16], table: &[u64]) -> u64 {
    if table.len() < INPUTS + REGISTERS {
        return 0;
    }
    let mut s = record_in(table);
    let mut sum: u64 = 0;
    // how many ticks are run: n, none after the last and none left out
    let mut ran: u64 = 0;
    for i in 0..n {
        prove!(i < n);
        let packed = number_at(table, (i % 16384) as usize);
        let r = calls::tick(s, memory, inputs_in(packed));
        let answer = r.answer;
        // the record before the sum: the other way round a tick takes 34 instructions more
        s = r.next;
        sum = folded(sum, answer);
        ran += 1;
    }
    prove!(ran == n);
    closed(sum, s)
}
