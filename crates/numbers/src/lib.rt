// A record as plain numbers, for harness and pace. No contract is made here; the functions are proved safe and ending.
//
// A record is numbers by their place: the registers are 0–19, and the place of every other field stands with its part, in
// core_part and readout_part. A new number is appended after the last place taken.
#![tactic(auto)]

use core_part::{core_in, put_core};
use readout_part::{put_readout, readout_in};
use std::array;
use supervisor::Supervisor;

mod core_part;
mod readout_part;

// ---- the whole record

pub fn record_in(numbers: &[u64]) -> Supervisor {
    Supervisor {
        readout: readout_in(numbers),
        core: core_in(numbers),
    }
}

pub fn put_record(out: &mut [u64], s: Supervisor) {
    let core = s.core;
    let readout = s.readout;
    put_core(out, core);
    put_readout(out, readout);
}

// ---- a number in, by its place

// The number at a place, 0 past the end. By `get` the wrong machine `one_number_past_the_end` could not be said.
pub fn number_at(numbers: &[u64], place: usize) -> u64 {
    if place < numbers.len() {
        return numbers[place];
    }
    0
}

// Three functions, since a cast has no type parameter.
fn word_at(numbers: &[u64], place: usize) -> u32 {
    (number_at(numbers, place) % 4294967296) as u32
}

fn short_at(numbers: &[u64], place: usize) -> u16 {
    (number_at(numbers, place) % 65536) as u16
}

fn byte_at(numbers: &[u64], place: usize) -> u8 {
    (number_at(numbers, place) % 256) as u8
}

fn bool_at(numbers: &[u64], place: usize) -> bool {
    number_at(numbers, place) % 2 == 1
}

fn eight_at(numbers: &[u64], place: usize) -> [u32; 8] {
    let first = place % 4294967296;
    array::from_fn(|i| word_at(numbers, first + i))
}

// ---- a number out

// Stores as far as the slice goes.
fn put<N: Into<u64> + Drop>(out: &mut [u64], place: usize, n: N) {
    if place < out.len() {
        out[place] = n.into();
    }
}

// Numbers in a row, from a place on.
fn put_all(out: &mut [u64], place: usize, numbers: &[u64]) {
    let first = place % 4294967296;
    for (i, n) in numbers.iter().enumerate() {
        put(out, first.saturating_add(i), *n);
    }
}

// Two rows of four: the second too begins at a place below 2^32, as every row does.
pub fn put_eight(out: &mut [u64], place: usize, n: [u64; 8]) {
    let first = place % 4294967296;
    put_all(out, first, &n[..4]);
    put_all(out, first + 4, &n[4..]);
}
