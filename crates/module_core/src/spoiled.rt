// The spoiled rule on the core (document 01, "When a call is declined", Spoiled). The definitions are in specs/Spoiled.antt.
ghost use Rattle.std.specs.Prelude.{◌≡◌};
ghost use Rattle.module_core.specs.Spoiled.{allows_eight_of, is_sound_of};

use crate::Core;
use registers::register::{is_valid_assign, is_valid_control};

impl Core {
    // [Spoiled.1f] a queue may hold eight words
    pub fn allows_eight(self) -> bool
        ensures { result ≡ allows_eight_of self }
    {
        let main = self.main;
        let state = main.state;
        let user = self.user;
        state.is_loaded() | user.waiting
    }

    // [Spoiled.1a] [Spoiled.1h] [Spoiled.1k] [Blind.3] [Bytes.9] and main's, in the order of the definition
    pub fn is_sound(self) -> bool
        ensures { result ≡ is_sound_of self }
    {
        let csr = self.csr;
        let control = self.control;
        let main = self.main;
        let state = main.state;
        let user = self.user;
        let sync = self.sync;
        let prescalers = self.prescalers;
        let counters = prescalers.has_counters_within();
        let factors = prescalers.has_valid_factors();
        let stored = csr.is_valid_stored_csr();
        let enables = is_valid_control(control.word);
        let assign = is_valid_assign(self.scalers.assign);
        let sequencer = main.is_well_formed();
        let count = sync.is_within();
        let waits = !user.waiting | state.is_idle();
        let blind = self.blind.is_within();
        counters
            & (factors
                & (stored
                    & (enables & (assign & (sequencer & (count & (waits & (blind & true))))))))
    }
}
