// The moves of main, a function for each state (document 01, "The tick", Main). The definitions are in
// specs/MainSequencer.antt: a move for each sentence, and what each move changes.
ghost use Rattle.std.specs.Prelude.{◌≡◌, if◌then◌else◌};
ghost use Rattle.bits.specs.Bits.{set_of};
ghost use Rattle.sequencer.specs.MainFields.{with_state, with_raised};
ghost use Rattle.sequencer.specs.MainSequencer.{after_load, word_of, move_in, late_step, cleared_step, fail_step, step_by};
ghost use Rattle.sequencer.specs.declared.states.State.TheVariants.{Delay, Wait2, Wait3};
ghost use Rattle.sequencer.specs.declared.states.State.TheVariants.{Front, Space, SyncHold, Clear};

use super::main_sequencer::{MainSequencer, MainStep, Tests, quiet_step};
use super::states::{Outcome, State};

// the rule under its name; by `bits::select` each use would be written out
fn raised_if(raised: u8, t: bool, line: u8) -> u8
    ensures { result ≡ (if t then set_of line raised else raised) }
{
    if t {
        return raised | line;
    }
    raised
}

// [Main.12]
fn after_load(sync: bool) -> State
    ensures { result ≡ after_load sync }
{
    if sync { State::SyncHold } else { State::Space }
}

impl MainSequencer {
    pub fn with_state(self, state: State) -> MainSequencer
        ensures { result ≡ with_state state self }
    {
        MainSequencer { state, ..self }
    }

    pub fn with_raised(self, raised: u8) -> MainSequencer
        ensures { result ≡ with_raised raised self }
    {
        MainSequencer { raised, ..self }
    }

    // [Main.9] code, sync, late
    fn word(self, sync: bool) -> u8
        ensures { result ≡ word_of sync self }
    {
        let code = (self.code % 16) as u32;
        ((code + 16 * bits::one_if(sync) + 32 * bits::one_if(self.late)) % 256) as u8
    }

    // [Main.7] each accept line at its own time; both up: Front
    pub fn in_delay(self, t: Tests) -> MainStep
        ensures { result ≡ step_by (move_in Delay t self) t self }
    {
        let raised = raised_if(self.raised, t.due2, MainSequencer::ACCEPT2);
        let next = self.with_raised(raised_if(raised, t.due3, MainSequencer::ACCEPT3));
        let accept2 = self.raised / 4 % 2 == 1;
        let accept3 = self.raised / 16 % 2 == 1;
        if (accept2 | t.due2) & (accept3 | t.due3) {
            return quiet_step(next.with_state(State::Front));
        }
        quiet_step(next)
    }

    // [Main.6] a late fail
    fn failed_late(self) -> MainStep
        ensures { result ≡ late_step self }
    {
        let mut marked = self;
        marked.late = true;
        let mut step = quiet_step(marked.with_state(State::Front));
        step.late = true;
        step
    }

    // [Main.6] any other fail
    fn failed(self, clear: u8) -> MainStep
        ensures { result ≡ cleared_step clear self }
    {
        let mut counting = self;
        counting.clear = clear;
        let next = counting.with_state(State::Clear);
        MainStep {
            outcome: Outcome::Cleared,
            ..quiet_step(next)
        }
    }

    fn failed_in(self, t: Tests) -> MainStep
        ensures { result ≡ fail_step t self }
    {
        if t.late {
            return self.failed_late();
        }
        self.failed(t.clear)
    }

    // [Main.3] [Main.4] [Main.6] [Assign.2]
    pub fn in_wait2(self, t: Tests) -> MainStep
        ensures { result ≡ step_by (move_in Wait2 t self) t self }
    {
        if t.fail2 {
            let mut step = self.failed_in(t);
            step.failed2 = true;
            return step;
        }
        if t.pass2 {
            let raised = self.raised | MainSequencer::ACCEPT2;
            if self.class == 2 {
                return quiet_step(self.with_raised(raised).with_state(State::Delay));
            }
            let next = self.with_raised(raised | MainSequencer::START3);
            return quiet_step(next.with_state(State::Wait3));
        }
        quiet_step(self)
    }

    // [Main.5] [Main.6] [Assign.2]
    pub fn in_wait3(self, t: Tests) -> MainStep
        ensures { result ≡ step_by (move_in Wait3 t self) t self }
    {
        if t.fail3 {
            let mut step = self.failed_in(t);
            step.failed3 = true;
            return step;
        }
        if t.pass3 {
            let next = self.with_raised(self.raised | MainSequencer::ACCEPT3);
            return quiet_step(next.with_state(State::Front));
        }
        quiet_step(self)
    }

    // [Main.8] [Main.12] the event is loaded
    pub fn in_front(self, t: Tests) -> MainStep
        ensures { result ≡ step_by (move_in Front t self) t self }
    {
        if t.front {
            let word = self.word(t.sync);
            let next = self.with_state(after_load(t.sync));
            return MainStep {
                outcome: Outcome::Event(word),
                sync: t.sync,
                ..quiet_step(next)
            };
        }
        quiet_step(self)
    }

    // [Main.13]
    pub fn in_space(self, t: Tests) -> MainStep
        ensures { result ≡ step_by (move_in Space t self) t self }
    {
        if t.room {
            return quiet_step(MainSequencer::idle());
        }
        quiet_step(self)
    }

    // [Main.14]
    pub fn in_sync_hold(self, t: Tests) -> MainStep
        ensures { result ≡ step_by (move_in SyncHold t self) t self }
    {
        if t.empty {
            let mut step = quiet_step(MainSequencer::idle());
            step.ended = true;
            return step;
        }
        quiet_step(self)
    }

    // [Main.15]
    pub fn in_clear(self, t: Tests) -> MainStep
        ensures { result ≡ step_by (move_in Clear t self) t self }
    {
        let clear = self.clear;
        if 0 < clear {
            let mut next = self;
            next.clear = clear - 1;
            return quiet_step(next);
        }
        if t.front {
            return quiet_step(MainSequencer::idle());
        }
        quiet_step(self)
    }
}
