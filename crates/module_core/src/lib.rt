// The core of the supervisor: all of the record but the branches (document 01, "The tick"; document 02, N1, N2, N5). It sees
// the branches through two facts, every one empty and every one below its depth. The definitions are in specs/Core.antt; the
// spoiled rule is in spoiled, main's step in cycle, the shorter ways of a tick in idle, the same core built anew in rebuilt.
#![tactic(auto)]

ghost use Rattle.std.specs.Prelude.{◌≡◌};
ghost use Rattle.module_core.specs.Core.{fresh_of, reset_of, pulsed_of, is_open_of, is_ready_of};
ghost use Rattle.module_core.specs.Core.{settled_of, latched_of, step_of, lines_out_of, is_active_of};

use prescaler::{Prescaled, Prescalers};
use registers::control::Control;
use registers::csr::Csr;
use scalers::Scalers;
use sequencer::main_sequencer::{MainSequencer, MainStep};
use sequencer::states::Outcome;
use sync::counter::SyncCounter;
use sync::user::{UserStep, UserSync};
use testing::TestWord;
use timers::Timers;
use trigger::blind::BlindTime;
use trigger::effects::{count_after, csr_after, outcome_of, signals_of};
use trigger::latch::{Latch, Masks, latch_of, masks_of, word_at};
use trigger::latest::Latest;
use trigger::lines::{Inputs, Lines};

mod cycle;
mod idle;
mod rebuilt;
mod spoiled;

#[derive(Clone, Copy)]
pub struct Core {
    // registers 2–9 and their counters
    pub prescalers: Prescalers,
    pub csr: Csr,
    pub control: Control,
    // register 21
    pub test: TestWord,
    // registers 17–19
    pub scalers: Scalers,
    pub main: MainSequencer,
    // registers 12–16
    pub timers: Timers,
    // register 11 and the sync count
    pub sync: SyncCounter,
    pub blind: BlindTime,
    pub user: UserSync,
    pub latest: Latest,
}

// What became of the pulses that passed, and the memory's word for them.
#[derive(Clone, Copy)]
pub struct Latched {
    pub latch: Latch,
    pub word: u16,
}

#[derive(Clone, Copy)]
pub struct CoreStep {
    pub next: Core,
    pub masks: Masks,
    pub outcome: Outcome,
}

impl Core {
    // [Registers.4] all zero, all idle
    pub fn fresh() -> Core
        ensures { result ≡ fresh_of }
    {
        Core {
            prescalers: Prescalers::fresh(),
            csr: Csr::fresh(),
            control: Control::fresh(),
            test: TestWord::fresh(),
            scalers: Scalers::fresh(),
            main: MainSequencer::idle(),
            timers: Timers::fresh(),
            sync: SyncCounter::fresh(),
            blind: BlindTime::fresh(),
            user: UserSync::fresh(),
            latest: Latest::fresh(),
        }
    }

    // [CSRWrite.2d] [Blind.3] [State.3] [Test.8b] RESET, but for the CSR's own bits
    pub fn reset(self) -> Core
        ensures { result ≡ reset_of self }
    {
        let csr = self.csr;
        let control = self.control;
        let timers = self.timers;
        let latest = self.latest;
        Core {
            prescalers: self.prescalers.reloaded(),
            csr,
            control,
            test: TestWord::fresh(),
            scalers: self.scalers.reset(),
            main: MainSequencer::idle(),
            timers,
            sync: self.sync.zeroed(),
            blind: BlindTime::fresh(),
            user: UserSync::fresh(),
            latest,
        }
    }

    // [Pulses.1] [Pulses.2] the counted pulses of a tick through the prescalers; without a trigger there is none
    fn pulsed(self, x: Inputs) -> Prescaled
        ensures { result ≡ pulsed_of x self }
    {
        let csr = self.csr;
        let control = self.control;
        let prescalers = self.prescalers;
        let lines = x.lines;
        if x.triggers == 0 {
            return Prescaled {
                next: prescalers,
                stopped: 0,
                scaled: 0,
                passed: 0,
            };
        }
        let runs = csr.is_go() | control.opens_prescales();
        prescalers.step(runs, control.counted(x.triggers, lines.has_strobe()))
    }

    // [Ready.1] [Blind.2] the ready rule but for main at Idle
    fn is_open(self, lines: Lines) -> bool
        ensures { result ≡ is_open_of lines self }
    {
        let csr = self.csr;
        let user = self.user;
        let uninhibited = !lines.has_inhibit() | csr.overrides_inhibit();
        csr.is_go()
            & (!csr.wants_user_sync()
                & (!user.waiting
                    & (!lines.has_front_busy() & (uninhibited & self.blind.is_over()))))
    }

    // [Ready.1]
    pub fn is_ready(self, lines: Lines) -> bool
        ensures { result ≡ is_ready_of lines self }
    {
        let main = self.main;
        let state = main.state;
        state.is_idle() & self.is_open(lines)
    }

    // [Tick.3] [Test.6] [Test.7b] the core put together again
    fn settled(self, lines: Lines, p: Prescaled, latch: Latch, m: MainStep, u: UserStep) -> CoreStep
        ensures { result ≡ settled_of lines p latch m u self }
    {
        let csr = self.csr;
        let prescalers = p.next;
        let main = m.next;
        let user = u.next;
        let count = count_after(self.sync, csr.enables_sync(), m, u);
        let mut next = self;
        next.prescalers = prescalers;
        next.csr = csr_after(csr, lines, m, u);
        next.test = TestWord::fresh();
        next.scalers = self.scalers.counted(signals_of(p.passed, latch, m, u));
        next.main = main;
        next.sync.count = count;
        next.blind = self.blind.after(latch.rejected);
        next.user = user;
        next.latest = Latest::kept(lines, latch);
        CoreStep {
            next,
            masks: masks_of(p, latch),
            outcome: outcome_of(m, u),
        }
    }

    // [Ready.3] where nothing passed, neither the ready rule nor the memory is asked
    fn latched(self, lines: Lines, memory: &[u16], passed: u32) -> Latched
        ensures { result ≡ latched_of lines memory.now passed self }
    {
        if passed == 0 {
            return Latched {
                latch: Latch::none(),
                word: 0,
            };
        }
        let word = word_at(memory, passed);
        let latch = latch_of(self.is_ready(lines), word, passed);
        Latched { latch, word }
    }

    // [Tick.2] a tick; room and empty are what the core sees of the branches. They stay two facts: as one struct, through the four
    // functions that take them, a tick took 299, 337 and 515 instructions for 281, 322 and 507, more than the model's on every traffic.
    pub fn step(self, x: Inputs, memory: &[u16], room: bool, empty: bool) -> CoreStep
        ensures { result ≡ step_of room empty x memory.now self }
    {
        let csr = self.csr;
        let main = self.main;
        let state = main.state;
        let user = self.user;
        let lines = x.lines;
        let p = self.pulsed(x);
        if self.stays_idle(p.passed) {
            return self.stayed_idle(lines, p);
        }
        let l = self.latched(lines, memory, p.passed);
        let latch = l.latch;
        let c = self.main_step(lines, latch, l.word, room, empty);
        let m = c.step;
        if c.quiet & !self.has_user_sync() {
            return self.settled_quietly(lines, p, latch, m.next);
        }
        let u = user.step(csr.wants_user_sync(), state.is_idle(), empty);
        self.settled(lines, p, latch, m, u)
    }

    // [Answer.1]
    pub fn lines_out(self) -> u32
        ensures { result ≡ lines_out_of self }
    {
        let csr = self.csr;
        let main = self.main;
        let raised = (main.raised % 32) as u32;
        let accept = main.accept as u32;
        raised
            + 32 * bits::one_if(main.is_clearing())
            + 64 * bits::one_if(csr.enables_level1())
            + 256 * accept
    }

    // [Active.1] but for the branches
    pub fn is_active(self) -> bool
        ensures { result ≡ is_active_of self }
    {
        let csr = self.csr;
        let main = self.main;
        let state = main.state;
        let user = self.user;
        csr.is_go() | (!state.is_idle() | (user.waiting | csr.wants_user_sync()))
    }
}
