// How the public calls refuse: what several of them ask first, and the record as it is, or with a status bit set, and why.
ghost use Rattle.std.specs.Prelude.{◌≡◌, ◌<◌, length, OnOk};
ghost use Rattle.std.specs.Result.{ForOk};
ghost use Rattle.declines.specs.Calls.{memory_places, marked_of, refuse};
ghost use Rattle.calls.specs.FirstDeclines.{writable_of, readable_of, lent_of, place_of};

use crate::MEMORY_PLACES;
use declines::{Decline, Done};
use registers::register::Register;
use supervisor::Supervisor;

// ---- what several calls ask first; a write's and a read's apart, since one function of both would take the fact to ask as a closure

// [Declines.2a] [Declines.2b] the register of a write
pub fn writable(s: Supervisor, number: u32) -> Result<Register, Decline>
    ensures { result ≡ writable_of number s }
{
    if s.is_spoiled() {
        return Err(Decline::Spoiled);
    }
    let register = Register::numbered(number);
    if !register.facts().writable {
        return Err(Decline::Place);
    }
    Ok(register)
}

// [Declines.3a] the register of a read
pub fn readable(s: Supervisor, number: u32) -> Result<Register, Decline>
    ensures { result ≡ readable_of number s }
{
    if s.is_spoiled() {
        return Err(Decline::Spoiled);
    }
    let register = Register::numbered(number);
    if !register.facts().readable {
        return Err(Decline::Place);
    }
    Ok(register)
}

// [Declines.4a] [Declines.4b] the lent memory
pub fn lent(s: Supervisor, memory: &[u16]) -> Result<(), Decline>
    ensures value { result ≡ lent_of memory.now s }
    ensures whole { OnOk result (length memory.now ≡ memory_places) }
{
    if s.is_spoiled() {
        return Err(Decline::Spoiled);
    }
    if memory.len() != MEMORY_PLACES {
        return Err(Decline::Length);
    }
    Ok(())
}

// [Declines.4a] [Declines.4b] [Declines.4c] a place in the lent memory
pub fn place_in(s: Supervisor, memory: &[u16], place: u32) -> Result<usize, Decline>
    ensures value { result ≡ place_of memory.now place s }
    ensures within { ForOk result (λ at. at < length memory.now) }
{
    lent(s, memory)?;
    let at = place as usize;
    if MEMORY_PLACES <= at {
        return Err(Decline::Place);
    }
    Ok(at)
}

// ---- how a call is refused

// [Declines.2c] [Declines.4d] the record with a status bit set
#[tactic(auto, unfolding(declines::specs::Calls::marked_of))]
pub fn marked(s: Supervisor, status: u32) -> Supervisor
    ensures { result ≡ marked_of status s }
{
    let mut core = s.core;
    core.csr = core.csr.marked(status);
    s.with_core(core)
}

// [Declines.1a] [Declines.1b] the record as it is, and why
pub fn refused<A, E>(s: Supervisor, why: E) -> Done<Result<A, E>>
    ensures { result ≡ refuse why s }
{
    Done {
        next: s,
        answer: Err(why),
    }
}
