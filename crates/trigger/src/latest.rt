// What the record keeps of the latest tick that ran, for STATE to show (document 02, N2). The definitions are in
// specs/Latest.antt.
ghost use Rattle.std.specs.Prelude.{◌≡◌};
ghost use Rattle.trigger.specs.Latest.{fresh_of, kept_of};

use crate::latch::Latch;
use crate::lines::Lines;

#[derive(Clone, Copy)]
pub struct Latest {
    pub lines: Lines,
    // a pattern was latched: rejected or accepted
    pub latched: bool,
}

impl Latest {
    // [State.3] before any tick the lines are low
    pub fn fresh() -> Latest
        ensures { result ≡ fresh_of }
    {
        Latest {
            lines: Lines { word: 0 },
            latched: false,
        }
    }

    // [State.3] [State.7] of a tick that runs
    pub fn kept(lines: Lines, latch: Latch) -> Latest
        ensures { result ≡ kept_of lines latch }
    {
        let latched = (latch.rejected != 0) | (latch.accepted != 0);
        Latest { lines, latched }
    }
}
