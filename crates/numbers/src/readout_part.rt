// The readout's numbers: each field is read and written in this file alone.
use crate::{number_at, put, word_at};
use branch::{Branch, Phase};
use branches::Readout;

pub fn readout_in(numbers: &[u64]) -> Readout {
    Readout {
        branches: [
            branch_at(numbers, 38),
            branch_at(numbers, 41),
            branch_at(numbers, 44),
            branch_at(numbers, 47),
        ],
        roc: word_at(numbers, 10),
        acks: word_at(numbers, 53),
    }
}

pub fn put_readout(out: &mut [u64], readout: Readout) {
    let bs = readout.branches;
    put(out, 10, readout.roc);
    put(out, 53, readout.acks);
    put_branch(out, 38, bs[0]);
    put_branch(out, 41, bs[1]);
    put_branch(out, 44, bs[2]);
    put_branch(out, 47, bs[3]);
}

// ---- a branch: words, length, phase

// no TryFrom: every number of a record stands for a phase
fn phase_of(n: u64) -> Phase {
    match n {
        0 => Phase::Rest,
        1 => Phase::Strobe,
        _ => Phase::Drop,
    }
}

fn branch_at(numbers: &[u64], place: usize) -> Branch {
    let first = place % 4294967296;
    Branch {
        words: number_at(numbers, first),
        len: word_at(numbers, first + 1),
        phase: phase_of(number_at(numbers, first + 2) % 3),
    }
}

fn put_branch(out: &mut [u64], place: usize, b: Branch) {
    let first = place % 4294967296;
    put(out, first, b.words);
    put(out, first + 1, b.len);
    put(out, first + 2, b.phase as u64);
}
