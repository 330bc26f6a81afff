// Numbers of an answer. An answer is 8: 0 or the number of the decline; the value read; the masks by two, and the last
// with the lines out; outcome; finished words; shown words.
use branch::Slot;
use declines::{BytesDecline, Decline, Done, FillDecline};
use sequencer::states::Outcome;
use supervisor::{Answer, Supervisor};

// What a call leaves.
#[derive(Clone, Copy)]
pub struct Reply {
    pub next: Supervisor,
    pub numbers: [u64; 8],
}

fn slot_number(slot: Slot) -> u64 {
    slot.map_or(0, |word| 256 | u64::from(word))
}

fn outcome_number(outcome: Outcome) -> u64 {
    match outcome {
        Outcome::Nothing => 0,
        Outcome::Cleared => 256,
        Outcome::Event(w) => 512 | u64::from(w),
        Outcome::Tag(w) => 768 | u64::from(w)
    }
}

fn pair(low: u32, high: u32) -> u64 {
    u64::from(low) | u64::from(high) << 32
}

// the words of the four branches
fn four(slots: [Slot; 4]) -> u64 {
    let [n0, n1, n2, n3] = slots.map(|slot| slot_number(slot));
    n0 | n1 << 16 | n2 << 32 | n3 << 48
}

// a call without a tick's answer: the value read, or the number of its decline
fn short_reply(next: Supervisor, answer: Result<u32, u8>) -> Reply {
    let numbers = match answer {
        Ok(value) => [0, u64::from(value), 0, 0, 0, 0, 0, 0],
        Err(number) => [u64::from(number), 0, 0, 0, 0, 0, 0, 0],
    };
    Reply { next, numbers }
}

pub fn write_reply(r: Done<Result<(), Decline>>) -> Reply {
    short_reply(r.next, r.answer.map(|()| 0).map_err(Decline::number))
}

pub fn read_reply(r: Done<Result<u32, Decline>>) -> Reply {
    short_reply(r.next, r.answer.map_err(Decline::number))
}

pub fn bytes_write_reply(r: Done<Result<(), BytesDecline>>) -> Reply {
    short_reply(r.next, r.answer.map(|()| 0).map_err(BytesDecline::number))
}

pub fn bytes_read_reply(r: Done<Result<u32, BytesDecline>>) -> Reply {
    short_reply(r.next, r.answer.map_err(BytesDecline::number))
}

pub fn fill_reply(r: Done<Result<(), FillDecline>>) -> Reply {
    short_reply(r.next, r.answer.map(|()| 0).map_err(FillDecline::number))
}

pub fn tick_reply(r: Done<Result<Answer, Decline>>) -> Reply {
    let next = r.next;
    let answer = match r.answer {
        Ok(answer) => answer,
        Err(why) => return short_reply(next, Err(why.number())),
    };
    let m = answer.masks;
    Reply {
        next,
        numbers: [
            0,
            0,
            pair(m.stopped, m.scaled),
            pair(m.lost, m.rejected),
            pair(m.accepted, answer.lines),
            outcome_number(answer.outcome),
            four(answer.sides.map(|side| side.finished)),
            four(answer.sides.map(|side| side.shown)),
        ],
    }
}

pub fn fresh_reply() -> Reply {
    short_reply(Supervisor::fresh(), Ok(0))
}
