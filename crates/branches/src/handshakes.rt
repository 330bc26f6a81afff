// The handshake of each branch as STATE shows it (document 02, N2). The definitions are in specs/Handshakes.antt.
ghost use Rattle.std.specs.Prelude.{◌≡◌};
ghost use Rattle.branches.specs.Handshakes.{strobes_of, ands_of, ors_of};

use crate::Readout;
use branch::{all_high, all_low};

// Four tests written out: by `array::from_fn` the proof of `ands` did not close (the law of a byte at a place is not found), nor that
// of `strobes` by `map`; one function that takes the test as a closure would have to say what the closure does.
impl Readout {
    // [State.2]
    #[tactic(auto, unfolding(crate::specs::Handshakes::strobes_of, bits::specs::Bits::tabulate))]
    pub fn strobes(self) -> [bool; 4]
        ensures { result ≡ strobes_of self }
    {
        let [b0, b1, b2, b3] = self.branches;
        [
            b0.phase.is_strobe(),
            b1.phase.is_strobe(),
            b2.phase.is_strobe(),
            b3.phase.is_strobe(),
        ]
    }

    // [State.7] all acknowledges of the enabled controllers
    #[tactic(auto, unfolding(crate::specs::Handshakes::ands_of, bits::specs::Bits::tabulate))]
    pub fn ands(self) -> [bool; 4]
        ensures { result ≡ ands_of self }
    {
        let ack = bits::bytes(self.acks);
        let on = bits::bytes(self.roc);
        [
            all_high(ack[0], on[0]),
            all_high(ack[1], on[1]),
            all_high(ack[2], on[2]),
            all_high(ack[3], on[3]),
        ]
    }

    // [State.7] some of them
    #[tactic(auto, unfolding(crate::specs::Handshakes::ors_of, bits::specs::Bits::tabulate))]
    pub fn ors(self) -> [bool; 4]
        ensures { result ≡ ors_of self }
    {
        let ack = bits::bytes(self.acks);
        let on = bits::bytes(self.roc);
        [
            !all_low(ack[0], on[0]),
            !all_low(ack[1], on[1]),
            !all_low(ack[2], on[2]),
            !all_low(ack[3], on[3]),
        ]
    }
}
