// The step of main in a tick (document 01, "The tick", Main). Each state asks for the tests by itself, so that a compiler makes
// none but those that the state reads. The definitions are in specs/Core.antt and specs/QuietStep.antt.
ghost use Rattle.std.specs.Prelude.{◌≡◌};
ghost use Rattle.module_core.specs.Core.{tests_of};
ghost use Rattle.module_core.specs.QuietStep.{cycled_of, main_cycled_of};

use crate::Core;
use sequencer::main_sequencer::{MainStep, Tests, quiet_step};
use sequencer::states::State;
use trigger::latch::Latch;
use trigger::lines::Lines;

// A step, and whether it is known to be quiet: main alone changes, and nothing is reported. Not an Option: the step is there either way.
#[derive(Clone, Copy)]
pub struct Cycled {
    pub step: MainStep,
    pub quiet: bool,
}

// A step, marked quiet or not.
fn marked(step: MainStep, quiet: bool) -> Cycled
    ensures { result ≡ record { step = step; quiet = quiet } }
{
    Cycled { step, quiet }
}

impl Core {
    // [Main.6] [Main.7] [Main.8] [Main.10] [Main.13] [Main.14] [Main.15] the tests of main, at the risen age
    fn tests(self, lines: Lines, age: u32, room: bool, empty: bool) -> Tests
        ensures { result ≡ tests_of room empty age lines self }
    {
        let csr = self.csr;
        let timers = self.timers;
        let t2 = timers.t2;
        let t3 = timers.t3;
        let sync = self.sync;
        Tests {
            fail2: lines.has_fail2(),
            pass2: lines.has_pass2(),
            fail3: lines.has_fail3(),
            pass3: lines.has_pass3(),
            late: timers.is_late_due(csr.uses_t1(), age),
            due2: t2.is_reached(age),
            due3: t3.is_reached(age),
            front: timers.front_test(lines.has_front_busy(), csr.uses_t4(), age),
            sync: sync.is_due(csr.enables_sync()),
            room,
            empty,
            clear: timers.clear_count(csr.uses_t5()),
        }
    }

    // [Main.1] the age rises first
    fn cycle_step(self, lines: Lines, room: bool, empty: bool) -> Cycled
        ensures { result ≡ cycled_of room empty lines self }
    {
        let main = self.main;
        let state = main.state;
        let aged = main.aged();
        let age = aged.age;
        // a match and not a table of functions: each state makes the tests that it reads
        match state {
            State::Idle => marked(quiet_step(aged), true),
            State::Delay => marked(aged.in_delay(self.tests(lines, age, room, empty)), true),
            State::Wait2 => {
                let step = aged.in_wait2(self.tests(lines, age, room, empty));
                marked(step, !lines.has_fail2())
            }
            State::Wait3 => {
                let step = aged.in_wait3(self.tests(lines, age, room, empty));
                marked(step, !lines.has_fail3())
            }
            State::Front => {
                let t = self.tests(lines, age, room, empty);
                marked(aged.in_front(t), !t.front)
            }
            State::Space => marked(aged.in_space(self.tests(lines, age, room, empty)), true),
            State::SyncHold => {
                let step = aged.in_sync_hold(self.tests(lines, age, room, empty));
                marked(step, !empty)
            }
            State::Clear => marked(aged.in_clear(self.tests(lines, age, room, empty)), true),
        }
    }

    // [Ready.5] an accepted pattern starts a cycle
    pub fn main_step(self, lines: Lines, latch: Latch, word: u16, room: bool, empty: bool) -> Cycled
        ensures { result ≡ main_cycled_of room empty lines latch word self }
    {
        let main = self.main;
        let is_accepted = latch.accepted != 0;
        if is_accepted {
            return marked(quiet_step(main.accepted(word)), true);
        }
        self.cycle_step(lines, room, empty)
    }
}
