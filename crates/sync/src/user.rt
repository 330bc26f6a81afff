// The user sync (document 01, "The tick", User sync). The definitions are in specs/UserSync.antt.
ghost use Rattle.std.specs.Prelude.{◌≡◌};
ghost use Rattle.sync.specs.UserSync.{fresh_of, step_of};

#[derive(Clone, Copy)]
pub struct UserSync {
    // its tag is loaded, and the tick that finds every branch empty has not come
    pub waiting: bool,
}

#[derive(Clone, Copy)]
pub struct UserStep {
    pub next: UserSync,
    // the tag is loaded in this tick
    pub tag: bool,
    // the wait ends in this tick
    pub ended: bool,
}

impl UserSync {
    // [Usersync.1] 10h
    pub const TAG: u8 = 16;

    // [Registers.4] not waiting
    pub fn fresh() -> UserSync
        ensures { result ≡ fresh_of }
    {
        UserSync { waiting: false }
    }

    // [Usersync.1] [Usersync.2] idle: main is; empty: every branch is
    pub fn step(self, wanted: bool, idle: bool, empty: bool) -> UserStep
        ensures { result ≡ step_of wanted idle empty self }
    {
        let waiting = self.waiting;
        let tag = !waiting & (wanted & idle);
        let ended = waiting & empty;
        let next = UserSync {
            waiting: tag | (waiting & !empty),
        };
        UserStep { next, tag, ended }
    }
}
