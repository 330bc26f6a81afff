// What each branch shows in a tick that is held (document 02, N5). The definitions are in specs/Readout.antt.
ghost use Rattle.std.specs.Prelude.{◌≡◌};
ghost use Rattle.branches.specs.Readout.{standing_side_of, standing_of};

use crate::{Readout, Side};
use branch::Branch;

// [Test.7a] one branch: nothing finishes
fn standing_side(b: Branch) -> Side
    ensures { result ≡ standing_side_of b }
{
    let first = (b.words % 256) as u8;
    Side {
        finished: None,
        shown: b.phase.is_strobe().then_some(first),
    }
}

impl Readout {
    // [Test.7a]
    pub fn standing(self) -> [Side; 4]
        ensures { result ≡ standing_of self.branches }
    {
        let [b0, b1, b2, b3] = self.branches;
        [
            standing_side(b0),
            standing_side(b1),
            standing_side(b2),
            standing_side(b3),
        ]
    }
}
