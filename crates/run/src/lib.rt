// A run of neighbours among the four bytes of a register's word (document 02, N4): which bytes it holds, and the word that
// it makes of two. The definitions are in specs/Run.antt.
#![tactic(auto)]

ghost use Rattle.std.specs.Prelude.{◌≡◌, if◌then◌else◌};
ghost use Rattle.run.specs.Run.{whole, is_whole_of, is_run_of, holds_byte, has_byte3, byte_mask_of, overlaid_of, cut_of};

use bits::select;

// A first byte and a count; BYTE(0) is the highest of a word, BYTE(3) the lowest. Any two numbers may be given.
#[derive(Clone, Copy)]
pub struct Run {
    pub first: u32,
    pub count: u32,
}

impl Run {
    // [Bytes.2] how many bytes a word has
    pub const BYTES: u32 = 4;

    // [Bytes.2] each byte of a word, by its number
    const BYTE_0: u32 = 0xFF000000;

    const BYTE_1: u32 = 0x00FF0000;

    const BYTE_2: u32 = 0x0000FF00;

    const BYTE_3: u32 = 0x000000FF;

    // all four bytes: what a plain call writes and reads
    pub fn whole() -> Run
        ensures { result ≡ whole }
    {
        Run {
            first: 0,
            count: Run::BYTES,
        }
    }

    // [Bytes.11] neither empty nor past the last byte; without the sum of the two, which might not fit
    #[tactic(auto, using(crate::proofs::RunLaws::rest_is_within, crate::proofs::RunLaws::past_is_no_run), unfolding(crate::specs::Run::is_run_of))]
    pub fn is_run(self) -> bool
        ensures { result ≡ is_run_of self }
    {
        if self.first < Run::BYTES {
            let rest = Run::BYTES - self.first;
            return (1 <= self.count) & (self.count <= rest);
        }
        false
    }

    // all four bytes: nothing is left to take from elsewhere
    pub fn is_whole(self) -> bool
        ensures { result ≡ is_whole_of self }
    {
        (self.first == 0) & (self.count == Run::BYTES)
    }

    // BYTE(b) is one of the run's
    #[tactic(auto, using(crate::proofs::RunLaws::nth_is_held), unfolding(crate::specs::Run::holds_byte))]
    pub fn holds(self, b: u32) -> bool
        ensures { result ≡ holds_byte self b }
    {
        if self.first <= b {
            let nth = b - self.first;
            return nth < self.count;
        }
        false
    }

    // [Bytes.4a] [Bytes.5a] with BYTE(3)
    pub fn has_byte_3(self) -> bool
        ensures { result ≡ has_byte3 self }
    {
        self.holds(3)
    }

    // The bits of the run's bytes.
    fn mask(self) -> u32
        ensures { result ≡ byte_mask_of self }
    {
        select(self.holds(0), Run::BYTE_0, 0)
            | select(self.holds(1), Run::BYTE_1, 0)
            | select(self.holds(2), Run::BYTE_2, 0)
            | select(self.holds(3), Run::BYTE_3, 0)
    }

    // [Bytes.3a] the run's bytes of a value, and the other bytes of an old one
    pub fn overlaid(self, old: u32, value: u32) -> u32
        ensures { result ≡ overlaid_of self old value }
    {
        if self.is_whole() {
            return value;
        }
        let mask = self.mask();
        bits::set(bits::clear(old, mask), value & mask)
    }

    // [Bytes.7] 0 outside the run
    pub fn cut(self, value: u32) -> u32
        ensures { result ≡ cut_of self value }
    {
        self.overlaid(0, value)
    }
}
