// Test mode and the held clock (document 02, N5): TEST, register 21, as the word of its bits that wait; the inputs in force in
// a tick that runs; the masks of one that is held. The definitions are in specs/.
#![tactic(auto)]

ghost use Rattle.std.specs.Prelude.{◌≡◌};
ghost use Rattle.testing.specs.TestWord.{fresh_of, pulses_inputs, steps, replaces_acks, taken_of, written_of, lines_of};
ghost use Rattle.testing.specs.TestWord.{acks_of};
ghost use Rattle.testing.specs.InForce.{test_triggers_of, test_acks_of, test_inputs_of, in_force_of, is_held_of};
ghost use Rattle.testing.specs.InForce.{held_pulses_of, held_masks_of};

use registers::control::Control;
use registers::csr::Csr;
use trigger::latch::Masks;
use trigger::lines::{Inputs, Lines};

// The bits of TEST that wait for the next tick that runs.
#[derive(Clone, Copy)]
pub struct TestWord {
    pub word: u32,
}

impl TestWord {
    // [Test.8a]
    pub const SINGLE_STEP: u32 = 0x80;

    // all lines of branch 1
    const BRANCH: u32 = 0xFF;

    // [Registers.4] nothing waits
    pub fn fresh() -> TestWord
        ensures { result ≡ fresh_of }
    {
        TestWord { word: 0 }
    }

    // by name, as a CSR's bits are
    pub fn pulses_inputs(self) -> bool
        ensures { result ≡ pulses_inputs self }
    {
        bits::bit_at(self.word, 0)
    }

    pub fn steps(self) -> bool
        ensures { result ≡ steps self }
    {
        bits::bit_at(self.word, 7)
    }

    pub fn replaces_acks(self) -> bool
        ensures { result ≡ replaces_acks self }
    {
        bits::bit_at(self.word, 14)
    }

    // [Test.6] [Test.8a] after a write; hold: the clock is held
    pub fn written(self, hold: bool, value: u32) -> TestWord
        ensures { result ≡ written_of hold value self }
    {
        TestWord {
            word: bits::set(self.word, taken(hold, value)),
        }
    }

    // [Test.2] [Test.3] the lines that were written
    pub fn lines(self) -> Lines
        ensures { result ≡ lines_of self }
    {
        let w = self.word;
        let strobe = bits::bit_at(w, 0);
        let pass2 = bits::bit_at(w, 2);
        let fail2 = bits::bit_at(w, 4);
        let pass3 = bits::bit_at(w, 3);
        let fail3 = bits::bit_at(w, 5);
        let busy = bits::bit_at(w, 8);
        let inhibit = bits::bit_at(w, 9);
        let lines = bits::mask8([strobe, pass2, fail2, pass3, fail3, busy, inhibit, false]);
        Lines {
            word: u32::from(lines),
        }
    }

    // [Test.4] the acknowledges that were written
    pub fn acks(self) -> u32
        ensures { result ≡ acks_of self }
    {
        let w = self.word;
        TestWord::BRANCH * bits::one_if(bits::bit_at(w, 10))
            + (TestWord::BRANCH << 8) * bits::one_if(bits::bit_at(w, 11))
            + (TestWord::BRANCH << 16) * bits::one_if(bits::bit_at(w, 12))
            + (TestWord::BRANCH << 24) * bits::one_if(bits::bit_at(w, 13))
    }

    // [Test.3] a pulse of every enabled input
    fn test_triggers(self, control: Control) -> u32
        ensures { result ≡ test_triggers_of control self }
    {
        if self.pulses_inputs() {
            return control.enabled();
        }
        0
    }

    // [Test.4] those from outside, unless bit 14 waits
    fn test_acks(self, acks: u32) -> u32
        ensures { result ≡ test_acks_of self acks }
    {
        if self.replaces_acks() {
            return self.acks();
        }
        acks
    }

    // [Test.2] what a tick that runs meets in test mode
    fn test_inputs(self, control: Control, acks: u32) -> Inputs
        ensures { result ≡ test_inputs_of control self acks }
    {
        Inputs {
            triggers: self.test_triggers(control),
            lines: self.lines(),
            acks: self.test_acks(acks),
        }
    }

    // [Test.6] what a tick that runs meets
    pub fn in_force(self, csr: Csr, control: Control, x: Inputs) -> Inputs
        ensures { result ≡ in_force_of csr control self x }
    {
        if csr.is_test_mode() {
            return self.test_inputs(control, x.acks);
        }
        x
    }

    // [Test.7a] [Test.8a] a tick does not run
    pub fn is_held(self, csr: Csr) -> bool
        ensures { result ≡ is_held_of csr self }
    {
        csr.holds_clock() & !self.steps()
    }
}

// [Test.8a] a single step counts only under hold
fn taken(hold: bool, value: u32) -> u32
    ensures { result ≡ taken_of hold value }
{
    if hold {
        return value;
    }
    bits::clear(value, TestWord::SINGLE_STEP)
}

// [Test.7a] the counted outside pulses, in test mode none
fn held_pulses(csr: Csr, control: Control, x: Inputs) -> u32
    ensures { result ≡ held_pulses_of csr control x }
{
    if csr.is_test_mode() {
        return 0;
    }
    let lines = x.lines;
    control.counted(x.triggers, lines.has_strobe())
}

// [Test.7a] the masks of a held tick
pub fn held_masks(csr: Csr, control: Control, x: Inputs) -> Masks
    ensures { result ≡ held_masks_of csr control x }
{
    Masks {
        stopped: held_pulses(csr, control, x),
        scaled: 0,
        lost: 0,
        rejected: 0,
        accepted: 0,
    }
}
