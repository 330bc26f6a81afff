// The core's numbers: each field is read and written in this file alone, part by part.
use crate::{bool_at, byte_at, eight_at, number_at, put, put_eight, short_at, word_at};
use module_core::Core;
use prescaler::Prescalers;
use registers::control::Control;
use registers::csr::Csr;
use scalers::Scalers;
use sequencer::main_sequencer::MainSequencer;
use sequencer::states::State;
use sync::counter::SyncCounter;
use sync::user::UserSync;
use testing::TestWord;
use timers::{Count20, Count40, Timers};
use trigger::blind::BlindTime;
use trigger::latest::Latest;
use trigger::lines::Lines;

pub fn core_in(numbers: &[u64]) -> Core {
    let csr = Csr {
        word: word_at(numbers, 0),
    };
    let control = Control {
        word: word_at(numbers, 1),
    };
    let test = TestWord {
        word: word_at(numbers, 56),
    };
    let user = UserSync {
        waiting: bool_at(numbers, 37),
    };
    let blind = BlindTime {
        count: byte_at(numbers, 50),
    };
    let lines = Lines {
        word: word_at(numbers, 51),
    };
    let latest = Latest {
        lines,
        latched: bool_at(numbers, 52),
    };
    Core {
        prescalers: prescalers_in(numbers),
        csr,
        control,
        test,
        scalers: scalers_in(numbers),
        main: main_in(numbers),
        timers: timers_in(numbers),
        sync: sync_in(numbers),
        blind,
        user,
        latest,
    }
}

pub fn put_core(out: &mut [u64], core: Core) {
    put_single(out, core);
    put_prescalers(out, core.prescalers);
    put_scalers(out, core.scalers);
    put_main(out, core.main);
    put_timers(out, core.timers);
    put_sync(out, core.sync);
}

// the fields of one number each
fn put_single(out: &mut [u64], core: Core) {
    put(out, 0, core.csr.word);
    put(out, 1, core.control.word);
    put(out, 37, core.user.waiting);
    put(out, 50, core.blind.count);
    put(out, 51, core.latest.lines.word);
    put(out, 52, core.latest.latched);
    put(out, 56, core.test.word);
}

// ---- the prescalers: 2–9, 20–27

fn prescalers_in(numbers: &[u64]) -> Prescalers {
    Prescalers {
        counters: eight_at(numbers, 20),
        factors: eight_at(numbers, 2),
    }
}

fn put_prescalers(out: &mut [u64], prescalers: Prescalers) {
    put_eight(out, 2, prescalers.factors.map(|n| u64::from(n)));
    put_eight(out, 20, prescalers.counters.map(|n| u64::from(n)));
}

// ---- the sync count: 11, 36

fn sync_in(numbers: &[u64]) -> SyncCounter {
    SyncCounter {
        interval: short_at(numbers, 11),
        count: short_at(numbers, 36),
    }
}

fn put_sync(out: &mut [u64], sync: SyncCounter) {
    put(out, 11, sync.interval);
    put(out, 36, sync.count);
}

// ---- the timers: 12–16

fn timers_in(numbers: &[u64]) -> Timers {
    Timers {
        t1: Count40(short_at(numbers, 12)),
        t2: Count40(short_at(numbers, 13)),
        t3: Count40(short_at(numbers, 14)),
        t4: Count40(short_at(numbers, 15)),
        t5: Count20(byte_at(numbers, 16)),
    }
}

fn put_timers(out: &mut [u64], timers: Timers) {
    put(out, 12, timers.t1.0);
    put(out, 13, timers.t2.0);
    put(out, 14, timers.t3.0);
    put(out, 15, timers.t4.0);
    put(out, 16, timers.t5.0);
}

// ---- the scalers: 17–19, 54, 55

fn scalers_in(numbers: &[u64]) -> Scalers {
    Scalers {
        scaler0: word_at(numbers, 17),
        scaler1: word_at(numbers, 18),
        assign: word_at(numbers, 19),
        latch0: word_at(numbers, 54),
        latch1: word_at(numbers, 55),
    }
}

fn put_scalers(out: &mut [u64], scalers: Scalers) {
    put(out, 17, scalers.scaler0);
    put(out, 18, scalers.scaler1);
    put(out, 19, scalers.assign);
    put(out, 54, scalers.latch0);
    put(out, 55, scalers.latch1);
}

// ---- main: 28–35

// no TryFrom: every number of a record stands for a state
fn state_of(n: u64) -> State {
    match n {
        0 => State::Idle,
        1 => State::Delay,
        2 => State::Wait2,
        3 => State::Wait3,
        4 => State::Front,
        5 => State::Space,
        6 => State::SyncHold,
        _ => State::Clear,
    }
}

fn main_in(numbers: &[u64]) -> MainSequencer {
    MainSequencer {
        age: word_at(numbers, 29),
        state: state_of(number_at(numbers, 28) % 8),
        clear: byte_at(numbers, 30),
        class: byte_at(numbers, 31),
        code: byte_at(numbers, 32),
        accept: byte_at(numbers, 33),
        raised: byte_at(numbers, 34),
        late: bool_at(numbers, 35),
    }
}

fn put_main(out: &mut [u64], main: MainSequencer) {
    put(out, 28, main.state as u64);
    put(out, 29, main.age);
    put(out, 30, main.clear);
    put(out, 31, main.class);
    put(out, 32, main.code);
    put(out, 33, main.accept);
    put(out, 34, main.raised);
    put(out, 35, main.late);
}
