// What a register write that is carried out does to the record, and what a read leaves and gives (document 01, "Registers";
// document 02, N2, N4 and N5). The definitions are in specs/Access.antt; STATE has a crate of its own.
#![tactic(auto)]

ghost use Rattle.std.specs.Prelude.{◌≡◌};
ghost use Rattle.branches.specs.ReadoutFields.{with_roc};
ghost use Rattle.module_core.specs.CoreFields.{with_scalers};
ghost use Rattle.supervisor.specs.Supervisor.{with_readout, on_core};
ghost use Rattle.access.specs.Access.{after_csr_of, csr_written_of, setting_written_of, scaler_written_of, test_written_of};
ghost use Rattle.access.specs.Access.{written_of, setting_of, base_of, merged_of, after_read_of, shown_of};

use registers::control::Control;
use registers::csr::{Csr, CsrWrite, Request};
use registers::register::{Register, Setting};
use run::Run;
use scalers::Scalers;
use state::state;
use supervisor::Supervisor;
use sync::counter::SyncCounter;

// [CSRWrite.1] [CSRWrite.2d] by what the write asks of the record
fn after_csr(s: Supervisor, w: CsrWrite) -> Supervisor
    ensures { result ≡ after_csr_of w.request w s }
{
    let request = w.request;
    let csr = w.next;
    let mut core = s.core;
    core.csr = csr;
    match request {
        Request::Initialize => s.initialized(),
        Request::Reset => s.with_core(core).reset(),
        Request::Nothing => s.with_core(core),
    }
}

#[tactic(auto, unfolding(crate::specs::Access::csr_written_of))]
fn csr_written(s: Supervisor, value: u32) -> Supervisor
    ensures { result ≡ csr_written_of value s }
{
    let csr = s.core.csr;
    after_csr(s, csr.written(value))
}

fn roc_written(s: Supervisor, value: u32) -> Supervisor
    ensures { result ≡ with_readout (with_roc value s.readout) s }
{
    let mut readout = s.readout;
    readout.roc = value;
    s.with_readout(readout)
}

// [Registers.2] a write to one of registers 1–16; [Bytes.4a] loads: it has BYTE(3)
#[tactic(auto, unfolding(crate::specs::Access::setting_written_of))]
fn setting_written(s: Supervisor, setting: Setting, loads: bool, value: u32) -> Supervisor
    ensures { result ≡ setting_written_of setting loads value s }
{
    let mut core = s.core;
    match setting {
        Setting::Control => {
            let control = Control { word: value };
            core.control = control;
            s.with_core(core)
        }
        Setting::Factor(input) => {
            let prescalers = core.prescalers.with_factor(loads, input, value);
            core.prescalers = prescalers;
            s.with_core(core)
        }
        Setting::RocEnable => roc_written(s, value),
        Setting::Interval => {
            let sync = SyncCounter {
                interval: (value % 65536) as u16,
                count: core.sync.count,
            };
            core.sync = sync;
            s.with_core(core)
        }
        Setting::Timer(n) => {
            let timers = core.timers.written(n, value);
            core.timers = timers;
            s.with_core(core)
        }
    }
}

fn with_scalers(s: Supervisor, scalers: Scalers) -> Supervisor
    ensures { result ≡ on_core (with_scalers scalers) s }
{
    let mut core = s.core;
    core.scalers = scalers;
    s.with_core(core)
}

// [Registers.3] [Bytes.4a] [Bytes.6]
fn scaler_written(s: Supervisor, n: u32, loads: bool) -> Supervisor
    ensures { result ≡ scaler_written_of n loads s }
{
    if loads {
        return with_scalers(s, s.core.scalers.zeroed(n));
    }
    s
}

// [Test.6] [Test.8a]
fn test_written(s: Supervisor, value: u32) -> Supervisor
    ensures { result ≡ test_written_of value s }
{
    let mut core = s.core;
    let csr = core.csr;
    let test = core.test.written(csr.holds_clock(), value);
    core.test = test;
    s.with_core(core)
}

// [CSRWrite.3] a register write that is carried out; it is not given the memory
#[tactic(auto, unfolding(crate::specs::Access::written_of))]
pub fn written(s: Supervisor, register: Register, loads: bool, value: u32) -> Supervisor
    ensures { result ≡ written_of register loads value s }
{
    match register {
        Register::Csr => csr_written(s, value),
        Register::Setting(setting) => setting_written(s, setting, loads, value),
        Register::Scaler(n) => scaler_written(s, n, loads),
        Register::Assign => {
            let mut scalers = s.core.scalers;
            scalers.assign = value;
            with_scalers(s, scalers)
        }
        Register::State => s,
        Register::Test => test_written(s, value),
        Register::Absent => s,
    }
}

#[tactic(auto, unfolding(crate::specs::Access::setting_of))]
fn setting_value(s: Supervisor, setting: Setting) -> u32
    ensures { result ≡ setting_of setting s }
{
    let core = s.core;
    match setting {
        Setting::Control => core.control.word,
        Setting::Factor(input) => core.prescalers.factor(input),
        Setting::RocEnable => s.readout.roc,
        Setting::Interval => core.sync.interval as u32,
        Setting::Timer(n) => core.timers.stored(n),
    }
}

// [Bytes.3a] where a write takes the bytes that it lacks from; [Bytes.3b] the CSR's count as 0, as TEST's do
#[tactic(auto, unfolding(crate::specs::Access::base_of))]
fn base(s: Supervisor, register: Register) -> u32
    ensures { result ≡ base_of register s }
{
    match register {
        Register::Csr => 0,
        Register::Setting(setting) => setting_value(s, setting),
        Register::Scaler(_) => 0,
        Register::Assign => s.core.scalers.assign,
        Register::State => 0,
        Register::Test => 0,
        Register::Absent => 0,
    }
}

// [Bytes.3a] the value that a run of a value makes of a register
pub fn merged(s: Supervisor, register: Register, run: Run, value: u32) -> u32
    ensures { result ≡ merged_of register run value s }
{
    run.overlaid(base(s, register), value)
}

// [Bytes.5a] the record after a read; latches: it has BYTE(3)
#[tactic(auto, unfolding(crate::specs::Access::after_read_of))]
pub fn after_read(s: Supervisor, register: Register, latches: bool) -> Supervisor
    ensures { result ≡ after_read_of register latches s }
{
    match register {
        Register::Csr => s,
        Register::Setting(_) => s,
        Register::Scaler(n) => {
            if latches {
                return with_scalers(s, s.core.scalers.latched(n));
            }
            s
        }
        Register::Assign => s,
        Register::State => s,
        Register::Test => s,
        Register::Absent => s,
    }
}

// [Declines.3b] the stored value; [State.8a] [Bytes.5b] of a scaler the value last latched; [Test.5b] TEST is not read
#[tactic(auto, unfolding(crate::specs::Access::shown_of))]
pub fn shown(s: Supervisor, register: Register) -> u32
    ensures { result ≡ shown_of register s }
{
    let core = s.core;
    match register {
        Register::Csr => core.csr.word,
        Register::Setting(setting) => setting_value(s, setting),
        Register::Scaler(n) => core.scalers.latch(n),
        Register::Assign => core.scalers.assign,
        Register::State => state(s),
        Register::Test => 0,
        Register::Absent => 0,
    }
}
