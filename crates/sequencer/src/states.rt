// The states of main, and what a tick decides of an event (document 01, "The tick", Main). The definitions are in
// specs/States.antt.
ghost use Rattle.std.specs.Prelude.{◌≡◌};
ghost use Rattle.sequencer.specs.States.{is_idle, is_loaded, is_wait2, is_sync_hold, is_event};

#[derive(Clone, Copy, PartialEq, Eq)]
pub enum State {
    Idle,
    Delay,
    Wait2,
    Wait3,
    Front,
    Space,
    SyncHold,
    Clear,
}

impl State {
    // [Main.1] every other state is in a cycle
    pub fn is_idle(self) -> bool
        ensures { result ≡ is_idle self }
    {
        self == State::Idle
    }

    // [Spoiled.1f] the event is loaded, and main waits for the branches
    pub fn is_loaded(self) -> bool
        ensures { result ≡ is_loaded self }
    {
        matches!(self, State::Space | State::SyncHold)
    }

    // [Spoiled.1c]
    pub fn is_wait2(self) -> bool
        ensures { result ≡ is_wait2 self }
    {
        self == State::Wait2
    }

    // [State.5] a sync word is loaded and its wait has not ended
    pub fn is_sync_hold(self) -> bool
        ensures { result ≡ is_sync_hold self }
    {
        self == State::SyncHold
    }
}

// What became of an event in a tick, or the tag of a user sync.
#[derive(Clone, Copy)]
pub enum Outcome {
    Nothing,
    Cleared,
    Event(u8),
    Tag(u8),
}

impl Outcome {
    pub fn is_event(self) -> bool
        ensures { result ≡ is_event self }
    {
        matches!(self, Outcome::Event(_))
    }
}
