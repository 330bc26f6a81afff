// The main sequencer (document 01, "The tick", Main): from an accepted pattern to a loaded word, or to a clear.
// The definitions are in specs/MainSequencer.antt: a move for each sentence, and what each move changes. The moves are in moves, a
// function for each state; core calls the one that is due.
ghost use Rattle.std.specs.Prelude.{◌≡◌};
ghost use Rattle.sequencer.specs.MainFields.{quiet};
ghost use Rattle.sequencer.specs.MainSequencer.{idle_of, aged_of, accepted_of, is_clearing};
ghost use Rattle.sequencer.specs.MainSequencer.{is_class_of_wait2, is_well_formed_of};

use super::memory_word::{accept_in, class_in, code_in};
use super::states::{Outcome, State};

#[derive(Clone, Copy)]
pub struct MainSequencer {
    pub state: State,
    // 01 calls it c: ticks for which the clear line stays high
    pub clear: u8,
    // 1–3 and not an enum: a record that is handed in may hold any number, which [Spoiled.1c] then finds
    pub class: u8,
    pub code: u8,
    // ticks since the accept, at most AGE_LIMIT; in the middle for speed: a compiler takes eight bytes in a row for one word
    pub age: u32,
    // the accept pattern
    pub accept: u8,
    // the raised lines, bit by bit as the answer shows them in bits 0–4
    pub raised: u8,
    // the late mark
    pub late: bool,
}

// The tests of a tick, on the record at its start and the risen age.
#[derive(Clone, Copy)]
pub struct Tests {
    pub fail2: bool,
    pub pass2: bool,
    pub fail3: bool,
    pub pass3: bool,
    // [Main.6] a fail would be late
    pub late: bool,
    // [Main.7] level 2 and level 3 accept are due
    pub due2: bool,
    pub due3: bool,
    // [Main.8] the Front test
    pub front: bool,
    // [Main.10] the event to load is a sync event
    pub sync: bool,
    // [Main.13] every branch is below its depth
    pub room: bool,
    // [Main.14] every branch is empty
    pub empty: bool,
    // [Main.15] what Clear enters with
    pub clear: u8,
}

#[derive(Clone, Copy)]
pub struct MainStep {
    pub next: MainSequencer,
    pub outcome: Outcome,
    // a fail marked the event late
    pub late: bool,
    // the event loaded is a sync event
    pub sync: bool,
    // Sync hold ended
    pub ended: bool,
    // main acted on a fail of level 2, of level 3
    pub failed2: bool,
    pub failed3: bool,
}

fn is_class_of_wait2(class: u8) -> bool
    ensures { result ≡ is_class_of_wait2 class }
{
    (class == 2) | (class == 3)
}

// Nothing but the sequencer itself.
pub fn quiet_step(next: MainSequencer) -> MainStep
    ensures { result ≡ quiet next }
{
    MainStep {
        next,
        outcome: Outcome::Nothing,
        late: false,
        sync: false,
        ended: false,
        failed2: false,
        failed3: false,
    }
}

impl MainSequencer {
    // [Main.1] in ticks
    pub const AGE_LIMIT: u32 = 131070;

    // [Spoiled.1b] Fh
    pub const CODE_LIMIT: u8 = 15;

    // [Answer.1] the lines by their bit
    pub const OK: u8 = 1;

    pub const START2: u8 = 2;

    pub const ACCEPT2: u8 = 4;

    pub const START3: u8 = 8;

    pub const ACCEPT3: u8 = 16;

    // [Registers.4] [Main.17] where a move to Idle leads
    pub fn idle() -> MainSequencer
        ensures { result ≡ idle_of }
    {
        MainSequencer {
            age: 0,
            state: State::Idle,
            clear: 0,
            class: 0,
            code: 0,
            accept: 0,
            raised: 0,
            late: false,
        }
    }

    // [Main.1] in a cycle one tick older, up to the limit. By with_state, which changes nothing here: as a plain copy a tick takes 283, 328
    // and 534 instructions for 277, 313 and 487.
    #[tactic(auto, unfolding(crate::specs::MainSequencer::aged_of))]
    pub fn aged(self) -> MainSequencer
        ensures { result ≡ aged_of self }
    {
        let state = self.state;
        let age = self.age;
        let mut next = self.with_state(state);
        if state.is_idle() {
            return next;
        }
        if age < MainSequencer::AGE_LIMIT {
            next.age = age + 1;
        }
        next
    }

    // [Spoiled.1b] [Spoiled.1c] [Spoiled.1i] nothing here spoils the record
    pub fn is_well_formed(self) -> bool
        ensures { result ≡ is_well_formed_of self }
    {
        let state = self.state;
        let code = self.code <= MainSequencer::CODE_LIMIT;
        let class = !state.is_wait2() | is_class_of_wait2(self.class);
        let age = self.age <= MainSequencer::AGE_LIMIT;
        code & (class & (age & true))
    }

    // [Main.16]
    pub fn is_clearing(self) -> bool
        ensures { result ≡ is_clearing self }
    {
        0 < self.clear
    }

    // [Ready.5] [Main.2] a pattern is accepted, with the memory's word
    pub fn accepted(self, word: u16) -> MainSequencer
        ensures { result ≡ accepted_of word self }
    {
        let class = class_in(word);
        let mut next = self;
        next.age = 0;
        next.class = class;
        next.code = code_in(word);
        next.accept = accept_in(word);
        next.raised = next.raised | MainSequencer::OK;
        let enters_delay = class == 1;
        if enters_delay {
            return next.with_state(State::Delay);
        }
        next.raised = next.raised | MainSequencer::START2;
        next.with_state(State::Wait2)
    }
}
