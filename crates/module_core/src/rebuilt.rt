// The same core, field by field: the bytes between its fields are not copied, which saves time (supervisor, `rebuilt`, has the figures).
ghost use Rattle.std.specs.Prelude.{◌≡◌};

use crate::Core;
use sequencer::main_sequencer::MainSequencer;
use sync::counter::SyncCounter;
use timers::Timers;
use trigger::latest::Latest;

fn rebuilt_main(m: MainSequencer) -> MainSequencer
    ensures { result ≡ m }
{
    let state = m.state;
    MainSequencer {
        age: m.age,
        state,
        clear: m.clear,
        class: m.class,
        code: m.code,
        accept: m.accept,
        raised: m.raised,
        late: m.late,
    }
}

impl Core {
    pub fn rebuilt(self) -> Core
        ensures { result ≡ self }
    {
        let prescalers = self.prescalers;
        let csr = self.csr;
        let control = self.control;
        let test = self.test;
        let scalers = self.scalers;
        let timers = self.timers;
        let sync = self.sync;
        let blind = self.blind;
        let user = self.user;
        let latest = self.latest;
        let lines = latest.lines;
        let t1 = timers.t1;
        let t2 = timers.t2;
        let t3 = timers.t3;
        let t4 = timers.t4;
        let t5 = timers.t5;
        Core {
            prescalers,
            csr,
            control,
            test,
            scalers,
            main: rebuilt_main(self.main),
            timers: Timers { t1, t2, t3, t4, t5 },
            sync: SyncCounter {
                interval: sync.interval,
                count: sync.count,
            },
            blind,
            user,
            latest: Latest {
                lines,
                latched: latest.latched,
            },
        }
    }
}
