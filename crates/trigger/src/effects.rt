// What the steps of main and of the user sync do to the CSR, the sync count and the scalers, and what they report (document
// 01, "The tick"). The definitions are in specs/Effects.antt.
ghost use Rattle.std.specs.Prelude.{◌≡◌};
ghost use Rattle.trigger.specs.Effects.{status_of, csr_after_of, sync_after_of, outcome_of, signals_of};

use crate::latch::Latch;
use crate::lines::Lines;
use registers::csr::Csr;
use scalers::Signals;
use sequencer::main_sequencer::MainStep;
use sequencer::states::Outcome;
use sync::counter::SyncCounter;
use sync::user::{UserStep, UserSync};

// [Ready.6] [Main.6] [Main.11] status bits 16, 17 and 18
pub fn status(inhibit: bool, late: bool, sync: bool) -> u32
    ensures { result ≡ status_of inhibit late sync }
{
    bits::one_if(inhibit) * Csr::INHIBIT
        + bits::one_if(late) * Csr::LATE_FAIL
        + bits::one_if(sync) * Csr::SYNC
}

// [Main.14] [Usersync.2] where no wait ends the status bits alone change
pub fn csr_after(csr: Csr, lines: Lines, m: MainStep, u: UserStep) -> Csr
    ensures { result ≡ csr_after_of lines m u csr }
{
    let marks = status(lines.has_inhibit(), m.late, m.sync | u.tag);
    if !(m.ended | u.ended) {
        return csr.marked(marks);
    }
    let held = csr.sync_hold_ended_if(m.ended);
    let waited = held.user_sync_ended_if(u.ended);
    waited.marked(marks)
}

// [Main.10] [Main.14] [Usersync.2] the sync count alone: no move changes the interval
pub fn count_after(sync: SyncCounter, enabled: bool, m: MainStep, u: UserStep) -> u16
    ensures { result ≡ (sync_after_of enabled m u sync).count }
{
    let outcome = m.outcome;
    if m.ended | u.ended {
        return 0;
    }
    if outcome.is_event() {
        let next = sync.after_load(enabled);
        return next.count;
    }
    sync.count
}

pub fn outcome_of(m: MainStep, u: UserStep) -> Outcome
    ensures { result ≡ outcome_of m u }
{
    if u.tag {
        return Outcome::Tag(UserSync::TAG);
    }
    m.outcome
}

pub fn signals_of(passed: u32, latch: Latch, m: MainStep, u: UserStep) -> Signals
    ensures { result ≡ signals_of passed latch m u }
{
    let outcome = m.outcome;
    Signals {
        passed,
        rejected: latch.rejected,
        accepted: latch.accepted,
        event: outcome.is_event(),
        failed2: m.failed2,
        failed3: m.failed3,
        late: m.late,
        sync: m.sync | u.tag,
    }
}
