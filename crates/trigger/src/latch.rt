// The latch of a tick: the memory's word for a pattern, what becomes of the pulses that passed the prescalers, and the masks
// of the answer (document 01, "Registers", Memory; "The tick", Ready). The definitions are in specs/Latch.antt.
ghost use Rattle.std.specs.Prelude.{◌≡◌};
ghost use Rattle.sequencer.specs.MemoryWord.{is_ok_word};
ghost use Rattle.trigger.specs.Latch.{word_at_of, no_latch, latch_of, masks_of};

use prescaler::Prescaled;
use sequencer::memory_word::is_ok_word;

// What became of the pulses that passed the prescalers.
#[derive(Clone, Copy)]
pub struct Latch {
    pub lost: u32,
    pub rejected: u32,
    pub accepted: u32,
}

// The five masks of a tick's answer; bit i is input i + 1.
#[derive(Clone, Copy)]
pub struct Masks {
    pub stopped: u32,
    pub scaled: u32,
    pub lost: u32,
    pub rejected: u32,
    pub accepted: u32,
}

impl Latch {
    // [Ready.3] nothing passed
    pub fn none() -> Latch
        ensures { result ≡ no_latch }
    {
        Latch {
            lost: 0,
            rejected: 0,
            accepted: 0,
        }
    }
}

// [Memory.1] the word at the place of a pattern, 0 past the memory's end
pub fn word_at(memory: &[u16], pattern: u32) -> u16
    ensures { result ≡ word_at_of memory.now pattern }
{
    let place = pattern as usize;
    if place < memory.len() {
        return memory[place];
    }
    0
}

// [Ready.2] [Ready.3] [Ready.4] [Ready.5]
pub fn latch_of(ready: bool, word: u16, passed: u32) -> Latch
    ensures { result ≡ latch_of ready (is_ok_word word) passed }
{
    if ready {
        if is_ok_word(word) {
            return Latch {
                lost: 0,
                rejected: 0,
                accepted: passed,
            };
        }
        return Latch {
            lost: 0,
            rejected: passed,
            accepted: 0,
        };
    }
    Latch {
        lost: passed,
        rejected: 0,
        accepted: 0,
    }
}

pub fn masks_of(p: Prescaled, latch: Latch) -> Masks
    ensures { result ≡ masks_of p latch }
{
    Masks {
        stopped: p.stopped,
        scaled: p.scaled,
        lost: latch.lost,
        rejected: latch.rejected,
        accepted: latch.accepted,
    }
}
