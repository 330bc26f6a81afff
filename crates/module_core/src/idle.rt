// A tick in which no sequencer moves, and one in which main's step reports nothing (document 01, "The tick"; document 02, N1, N2,
// N5): most ticks are, and less of the core changes in them. The definitions are in specs/StaysIdle.antt and specs/Core.antt.
ghost use Rattle.std.specs.Prelude.{◌≡◌};
ghost use Rattle.sync.specs.UserSync.{step_by, stays};
ghost use Rattle.sequencer.specs.MainFields.{quiet};
ghost use Rattle.module_core.specs.Core.{settled_of};
ghost use Rattle.module_core.specs.StaysIdle.{has_user_sync_of, stays_idle_of, stayed_idle_of};

use crate::{Core, CoreStep};
use prescaler::Prescaled;
use scalers::Signals;
use sequencer::main_sequencer::MainSequencer;
use sequencer::states::Outcome;
use testing::TestWord;
use trigger::effects::status;
use trigger::latch::{Latch, masks_of};
use trigger::latest::Latest;
use trigger::lines::Lines;

impl Core {
    // [Usersync.1] [Usersync.2] one waits or is wanted
    pub fn has_user_sync(self) -> bool
        ensures { result ≡ has_user_sync_of self }
    {
        let csr = self.csr;
        let user = self.user;
        user.waiting | csr.wants_user_sync()
    }

    // [Main.1] [Ready.3] [Usersync.1] main is at Idle, nothing passed, and no user sync waits or is wanted
    pub fn stays_idle(self, passed: u32) -> bool
        ensures { result ≡ stays_idle_of passed self }
    {
        let main = self.main;
        let state = main.state;
        state.is_idle() & ((passed == 0) & !self.has_user_sync())
    }

    // [Ready.6] [Blind.2] [State.3] [Test.6] what such a tick changes
    pub fn stayed_idle(self, lines: Lines, p: Prescaled) -> CoreStep
        ensures { result ≡ stayed_idle_of lines p self }
    {
        let csr = self.csr;
        let prescalers = p.next;
        let latch = Latch::none();
        let mut next = self;
        next.prescalers = prescalers;
        next.csr = csr.marked(status(lines.has_inhibit(), false, false));
        next.test = TestWord::fresh();
        next.blind = self.blind.after(0);
        next.latest = Latest::kept(lines, latch);
        CoreStep {
            next,
            masks: masks_of(p, latch),
            outcome: Outcome::Nothing,
        }
    }

    // [Tick.3] the core put together again where main's step is quiet and there is no user sync
    pub fn settled_quietly(
        self,
        lines: Lines,
        p: Prescaled,
        latch: Latch,
        main: MainSequencer,
    ) -> CoreStep
        ensures { result ≡ settled_of lines p latch (quiet main) (step_by stays self.user) self }
    {
        let csr = self.csr;
        let prescalers = p.next;
        let signals = Signals {
            passed: p.passed,
            rejected: latch.rejected,
            accepted: latch.accepted,
            event: false,
            failed2: false,
            failed3: false,
            late: false,
            sync: false,
        };
        let mut next = self;
        next.prescalers = prescalers;
        next.csr = csr.marked(status(lines.has_inhibit(), false, false));
        next.test = TestWord::fresh();
        next.scalers = self.scalers.counted(signals);
        next.main = main;
        next.blind = self.blind.after(latch.rejected);
        next.latest = Latest::kept(lines, latch);
        CoreStep {
            next,
            masks: masks_of(p, latch),
            outcome: Outcome::Nothing,
        }
    }
}
