// One branch: a queue of at most eight words and a handshake with its readout controllers (document 01, "The tick",
// Branches). The queue is one number, a byte for each place, the first word lowest: a step is shifts and choices, with
// no index and no loop. Every public contract is an equality with a definition of specs/Branch.antt.
#![tactic(auto)]

ghost use Rattle.std.specs.Prelude.{◌≡◌, ◌&&◌, ◌+◌, ◌-◌, ◌*◌, ◌%◌, ◌^◌, ltb, None, Some, if◌then◌else◌};
ghost use Rattle.std.specs.List.{list_all};
ghost use Rattle.std.specs.Int.Bits.{bit_or};
ghost use Rattle.bits.specs.Bytes.{bytes, all_of};
ghost use Rattle.branch.specs.Slots.{is_word_of, word_of};
ghost use Rattle.branch.specs.Branch.{queue_depth, is_six_bit, fresh_of, is_rest_of, is_strobe_of, all_high, all_low};
ghost use Rattle.branch.specs.Branch.{is_quiet_of, has_free_place_of, moved_of, appended_of, step_of, is_well_formed_of};
ghost use Rattle.branch.specs.declared.Phase.TheVariants.{Rest, Strobe, Drop};

use bits::select;

// One bit for each readout controller of a branch: its acknowledge, or whether it is enabled. The two go as two bytes: a struct of both
// would be made at each call and taken apart in it.
pub type Controllers = u8;

#[derive(Clone, Copy, PartialEq, Eq)]
pub enum Phase {
    Rest,
    Strobe,
    Drop,
}

// A load, a finished word or a shown one; none where there is no word.
pub type Slot = Option<u8>;

#[derive(Clone, Copy)]
pub struct Branch {
    // place j is byte j: one number and not an array or a queue of std's, since a step is then shifts and choices (DECISIONS F1)
    pub words: u64,
    // how many places are used; DECISIONS F1 has the width
    pub len: u32,
    pub phase: Phase,
}

#[derive(Clone, Copy)]
pub struct BranchStep {
    pub next: Branch,
    pub finished: Slot,
    pub shown: Slot,
}

impl Phase {
    pub fn is_rest(self) -> bool
        ensures { result ≡ is_rest_of self }
    {
        matches!(self, Phase::Rest)
    }

    pub fn is_strobe(self) -> bool
        ensures { result ≡ is_strobe_of self }
    {
        matches!(self, Phase::Strobe)
    }
}

// ---- the acknowledges of the enabled controllers

// [Branches.2] [Branches.4]
pub fn all_high(acks: Controllers, enabled: Controllers) -> bool
    ensures { result ≡ all_high acks enabled }
{
    acks & enabled == enabled
}

// [Branches.3] [Branches.4]
pub fn all_low(acks: Controllers, enabled: Controllers) -> bool
    ensures { result ≡ all_low acks enabled }
{
    acks & enabled == 0
}

// ---- parts of a step: each chooses one field, under the name of the choice; by `select` each would be written out at its use

fn slot_if(t: bool, w: u8) -> Slot
    ensures { result ≡ (if t then Some w else None) }
{
    t.then_some(w)
}

fn phase_if(shows: bool, drops: bool) -> Phase
    ensures { result ≡ (if shows then Strobe else if drops then Drop else Rest) }
{
    if shows {
        return Phase::Strobe;
    }
    if drops { Phase::Drop } else { Phase::Rest }
}

fn one_less_if(t: bool, len: u32) -> u32
    ensures { result ≡ (if t then len - 1 else len) }
{
    if t {
        if 0 < len {
            return len - 1;
        }
    }
    len
}

fn one_more_if(t: bool, len: u32) -> u32
    ensures { result ≡ (if t && ltb len queue_depth then len + 1 else len) }
{
    if t {
        if len < Branch::DEPTH {
            return len + 1;
        }
    }
    len
}

// The word w in the place len; len % 8 keeps the shift below 64 for every len.
fn put(words: u64, len: u32, w: u8) -> u64
    ensures { result ≡ bit_or words (w * 256 ^ (len % 8)) }
{
    words | ((w as u64) << (8 * ((len % 8) as u64)))
}

// ---- parts of the well-formed test

// Two shifts by half: one by 64 is not allowed.
fn are_unused_zero(words: u64, len: u32) -> bool
    ensures { result ≡ ltb words (256 ^ (len % 16)) }
{
    let half = 4 * ((len % 16) as u64);
    words >> half >> half == 0
}

fn all_six_bit(words: &[u8]) -> bool
    ensures { result ≡ list_all is_six_bit words.now }
{
    words.iter().all(|word| *word <= Branch::WORD_LIMIT)
}

fn are_six_bit(words: u64) -> bool
    ensures { result ≡ all_of is_six_bit (bytes queue_depth words) }
{
    all_six_bit(&words.to_le_bytes())
}

impl Branch {
    // [Main.13]
    pub const DEPTH: u32 = 8;

    // [Spoiled.1f] 3Fh
    pub const WORD_LIMIT: u8 = 63;

    // [Registers.4] no word, at rest
    pub fn fresh() -> Branch
        ensures { result ≡ fresh_of }
    {
        Branch {
            words: 0,
            len: 0,
            phase: Phase::Rest,
        }
    }

    // [Active.1] no word held, and at Rest
    pub fn is_quiet(self) -> bool
        ensures { result ≡ is_quiet_of self }
    {
        let phase = self.phase;
        let len = self.len;
        phase.is_rest() & !(0 < len)
    }

    // [Spoiled.1f] not above 7 words
    pub fn has_free_place(self) -> bool
        ensures { result ≡ has_free_place_of self }
    {
        let len = self.len;
        len < Branch::DEPTH
    }

    // [Branches.1] [Branches.2] [Branches.3] [Branches.4] the handshake's move, without the load
    #[tactic(auto, unfolding(crate::specs::Branch::moved_of))]
    pub fn moved(self, acks: Controllers, enabled: Controllers) -> BranchStep
        ensures { result ≡ moved_of acks enabled self }
    {
        let words = self.words;
        let len = self.len;
        let phase = self.phase;
        let rest = phase.is_rest();
        let strobe = phase.is_strobe();
        // the branch finishes its word; stands at Strobe after the move; stands at Drop after it
        let finishes = strobe & all_high(acks, enabled);
        let shows = (rest & (0 < len)) | (strobe & !finishes);
        let drops = finishes | (!rest & !strobe & !all_low(acks, enabled));
        let first = (words % 256) as u8;
        let behind = words / 256;
        let next = Branch {
            words: select(finishes, behind, words),
            len: one_less_if(finishes, len),
            phase: phase_if(shows, drops),
        };
        let finished = slot_if(finishes, first);
        let shown = slot_if(shows, first);
        BranchStep {
            next,
            finished,
            shown,
        }
    }

    // DECISIONS B2: a full queue takes no load.
    pub fn appended(self, load: Slot) -> Branch
        ensures { result ≡ appended_of load self }
    {
        let words = self.words;
        let len = self.len;
        let phase = self.phase;
        let free = self.has_free_place();
        let adds = load.is_some() & free;
        let longer = put(words, len, load.unwrap_or(0));
        Branch {
            words: select(adds, longer, words),
            len: one_more_if(adds, len),
            phase,
        }
    }

    // [Branches.5] the move, then the load
    #[tactic(auto, unfolding(crate::specs::Branch::step_of))]
    pub fn step(self, acks: Controllers, enabled: Controllers, load: Slot) -> BranchStep
        ensures { result ≡ step_of acks enabled load self }
    {
        let m = self.moved(acks, enabled);
        let b = m.next;
        let finished = m.finished;
        let shown = m.shown;
        let next = b.appended(load);
        BranchStep {
            next,
            finished,
            shown,
        }
    }

    // [Spoiled.1d] [Spoiled.1f] [Spoiled.1g] nothing here spoils the record
    #[tactic(auto, unfolding(crate::specs::Branch::is_well_formed_of))]
    pub fn is_well_formed(self) -> bool
        ensures { result ≡ is_well_formed_of self }
    {
        let words = self.words;
        let len = self.len;
        let phase = self.phase;
        let within = len <= Branch::DEPTH;
        let unused = are_unused_zero(words, len);
        let six = are_six_bit(words);
        let strobe = !phase.is_strobe() | (0 < len);
        within & (unused & (six & strobe))
    }
}
