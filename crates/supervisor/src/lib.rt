// The supervisor's whole record (documents 01 and 02): the core, and the readout of one module. Each method takes the record by
// value and hands back the next one. The definitions are in specs/Supervisor.antt.
#![tactic(auto)]

ghost use Rattle.std.specs.Prelude.{◌≡◌};
ghost use Rattle.branches.specs.Readout.{module_branches};
ghost use Rattle.supervisor.specs.Supervisor.{with_readout, with_core, fresh_of, initialized_of, reset_of};
ghost use Rattle.supervisor.specs.Supervisor.{is_active_of, is_spoiled_of, load_of, core_step_of, readout_step_of};
ghost use Rattle.supervisor.specs.Supervisor.{joined_of, ran_of, in_force_of, is_held_of, held_of, ticked_of};

use branch::Slot;
use branches::{Readout, ReadoutStep, Side};
use module_core::{Core, CoreStep};
use sequencer::states::Outcome;
use testing::held_masks;
use trigger::latch::Masks;
use trigger::lines::Inputs;

#[derive(Clone, Copy)]
pub struct Supervisor {
    // the branches and ROC enable
    pub readout: Readout,
    // all else
    pub core: Core,
}

// A tick's answer.
#[derive(Clone, Copy)]
pub struct Answer {
    pub masks: Masks,
    // lines out after the tick
    pub lines: u32,
    pub outcome: Outcome,
    // what each branch finished and shows
    pub sides: [Side; 4],
}

#[derive(Clone, Copy)]
pub struct Ticked {
    pub next: Supervisor,
    pub answer: Answer,
}

// [Branches.5] what an outcome loads onto every branch
fn load_of(outcome: Outcome) -> Slot
    ensures { result ≡ load_of outcome }
{
    match outcome {
        Outcome::Nothing | Outcome::Cleared => None,
        Outcome::Event(word) | Outcome::Tag(word) => Some(word),
    }
}

// [Answer.1] the next record and the answer, from the steps of the two parts
#[tactic(auto, unfolding(crate::specs::Supervisor::joined_of))]
fn joined(c: CoreStep, r: ReadoutStep) -> Ticked
    ensures { result ≡ joined_of c r }
{
    let core = c.next;
    let readout = r.next;
    let masks = c.masks;
    let outcome = c.outcome;
    let sides = r.sides;
    let lines = core.lines_out();
    let next = Supervisor { readout, core };
    let answer = Answer {
        masks,
        lines,
        outcome,
        sides,
    };
    Ticked { next, answer }
}

impl Supervisor {
    // [Registers.4] [Declines.6] never declined
    #[tactic(auto, unfolding(crate::specs::Supervisor::fresh_of))]
    pub fn fresh() -> Supervisor
        ensures { result ≡ fresh_of module_branches }
    {
        Supervisor {
            readout: Readout::fresh(),
            core: Core::fresh(),
        }
    }

    pub fn with_core(self, core: Core) -> Supervisor
        ensures { result ≡ with_core core self }
    {
        let readout = self.readout;
        Supervisor { readout, core }
    }

    pub fn with_readout(self, readout: Readout) -> Supervisor
        ensures { result ≡ with_readout readout self }
    {
        let core = self.core;
        Supervisor { readout, core }
    }

    // The same record, field by field, for a tick that leaves it as it is: by a plain copy every tick carries the bytes between the
    // fields, and takes 363, 400 and 574 instructions where it takes 277, 313 and 487 (DECISIONS F28).
    pub fn rebuilt(self) -> Supervisor
        ensures { result ≡ self }
    {
        Supervisor {
            readout: self.readout.rebuilt(),
            core: self.core.rebuilt(),
        }
    }

    // [CSRWrite.1] INITIALIZE
    #[tactic(auto, unfolding(crate::specs::Supervisor::fresh_of, crate::specs::Supervisor::initialized_of))]
    pub fn initialized(self) -> Supervisor
        ensures { result ≡ initialized_of self }
    {
        Supervisor {
            readout: self.readout.initialized(),
            core: Core::fresh(),
        }
    }

    // [CSRWrite.2d] RESET
    #[tactic(auto, unfolding(crate::specs::Supervisor::reset_of))]
    pub fn reset(self) -> Supervisor
        ensures { result ≡ reset_of self }
    {
        Supervisor {
            readout: self.readout.emptied(),
            core: self.core.reset(),
        }
    }

    // [Active.1]
    #[tactic(auto, unfolding(crate::specs::Supervisor::is_active_of))]
    pub fn is_active(self) -> bool
        ensures { result ≡ is_active_of self }
    {
        self.core.is_active() | !self.readout.is_quiet()
    }

    // 01 calls such a record spoiled
    #[tactic(auto, unfolding(crate::specs::Supervisor::is_spoiled_of))]
    pub fn is_spoiled(self) -> bool
        ensures { result ≡ is_spoiled_of self }
    {
        let core = self.core;
        let eight = core.allows_eight();
        !(self.readout.is_well_formed(eight) & core.is_sound())
    }

    #[tactic(auto, unfolding(crate::specs::Supervisor::core_step_of))]
    fn core_step(self, memory: &[u16], x: Inputs) -> CoreStep
        ensures { result ≡ core_step_of memory.now x self }
    {
        let core = self.core;
        let csr = core.csr;
        let readout = self.readout;
        let room = readout.has_room(csr.locks_roc(), csr.locks_branch4());
        let empty = readout.is_empty();
        core.step(x, memory, room, empty)
    }

    #[tactic(auto, unfolding(crate::specs::Supervisor::readout_step_of))]
    fn readout_step(self, x: Inputs, outcome: Outcome) -> ReadoutStep
        ensures { result ≡ readout_step_of x outcome self }
    {
        let readout = self.readout;
        readout.step(x.acks, load_of(outcome))
    }

    // a tick that runs; x are the inputs in force
    #[tactic(auto, unfolding(crate::specs::Supervisor::ran_of))]
    fn ran(self, memory: &[u16], x: Inputs) -> Ticked
        ensures { result ≡ ran_of memory.now x self }
    {
        let c = self.core_step(memory, x);
        let outcome = c.outcome;
        let r = self.readout_step(x, outcome);
        joined(c, r)
    }

    // [Test.2] [Test.6]
    #[tactic(auto, unfolding(crate::specs::Supervisor::in_force_of))]
    fn in_force(self, x: Inputs) -> Inputs
        ensures { result ≡ in_force_of x self }
    {
        let core = self.core;
        let test = core.test;
        test.in_force(core.csr, core.control, x)
    }

    // [Test.7a] [Test.8a]
    #[tactic(auto, unfolding(crate::specs::Supervisor::is_held_of))]
    fn is_held(self) -> bool
        ensures { result ≡ is_held_of self }
    {
        let core = self.core;
        let test = core.test;
        test.is_held(core.csr)
    }

    // [Test.7a] [Test.7b] a tick that does not run
    #[tactic(auto, unfolding(crate::specs::Supervisor::held_of))]
    fn held(self, x: Inputs) -> Ticked
        ensures { result ≡ held_of x self }
    {
        let core = self.core;
        let answer = Answer {
            masks: held_masks(core.csr, core.control, x),
            lines: core.lines_out(),
            outcome: Outcome::Nothing,
            sides: self.readout.standing(),
        };
        Ticked {
            next: self.rebuilt(),
            answer,
        }
    }

    // The tick of a record that is not spoiled, with a whole memory and inputs in range: the declines are in calls.
    #[tactic(auto, unfolding(crate::specs::Supervisor::ticked_of))]
    pub fn ticked(self, memory: &[u16], x: Inputs) -> Ticked
        ensures { result ≡ ticked_of memory.now x self }
    {
        if self.is_held() {
            return self.held(x);
        }
        self.ran(memory, self.in_force(x))
    }
}
