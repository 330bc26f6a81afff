// The readout: the four branches of a module, their ROC enable register and the acknowledges of the latest tick (document
// 01, "The tick", Branches; document 02, N2, N5). The rest of the record sees the branches through these tests alone, and they
// see it through the word to load. The definitions are in specs/Readout.antt, over any number of branches; what STATE shows
// of each branch is in handshakes, what a held tick shows in standing.
#![tactic(auto)]

ghost use Rattle.std.specs.Prelude.{◌≡◌, length, if◌then◌else◌};
ghost use Rattle.branches.specs.Readout.{module_branches, fresh_of, emptied_of, is_empty_of, has_room_of};
ghost use Rattle.branches.specs.Readout.{is_quiet_of, side_after_of, gathered_of, silent_of, step_of};
ghost use Rattle.branches.specs.Readout.{is_sound_branch_of, is_well_formed_of};
ghost use Rattle.branch.specs.Branch.{queue_depth};

use branch::{Branch, BranchStep, Slot};

mod handshakes;
mod standing;

#[derive(Clone, Copy)]
pub struct Readout {
    // place k is branch k + 1
    pub branches: [Branch; 4],
    // register 10
    pub roc: u32,
    // of the latest tick that ran, laid out as register 10
    pub acks: u32,
}

// What a branch finished and what it shows after the tick.
#[derive(Clone, Copy)]
pub struct Side {
    pub finished: Slot,
    pub shown: Slot,
}

#[derive(Clone, Copy)]
pub struct ReadoutStep {
    pub next: Readout,
    pub sides: [Side; 4],
}

// The same branch, field by field: the bytes between its fields are not copied, which saves time (supervisor, `rebuilt`, has the figures).
fn rebuilt(b: Branch) -> Branch
    ensures { result ≡ b }
{
    let phase = b.phase;
    Branch {
        words: b.words,
        len: b.len,
        phase,
    }
}

fn side_after(s: BranchStep) -> Side
    ensures { result ≡ side_after_of s }
{
    let finished = s.finished;
    let shown = s.shown;
    Side { finished, shown }
}

fn gathered(
    s0: BranchStep,
    s1: BranchStep,
    s2: BranchStep,
    s3: BranchStep,
    roc: u32,
    acks: u32,
) -> ReadoutStep
    ensures { result ≡ gathered_of s0 s1 s2 s3 roc acks }
{
    let b0 = s0.next;
    let b1 = s1.next;
    let b2 = s2.next;
    let b3 = s3.next;
    let next = Readout {
        branches: [b0, b1, b2, b3],
        roc,
        acks,
    };
    ReadoutStep {
        next,
        sides: [
            side_after(s0),
            side_after(s1),
            side_after(s2),
            side_after(s3),
        ],
    }
}

// [Main.13] a depth of 1 by a ROC lock; by `select` the sentence would be the same, and its constant one argument of three
fn depth(locked: bool) -> u32
    ensures { result ≡ (if locked then 1 else queue_depth) }
{
    if locked {
        return 1;
    }
    Branch::DEPTH
}

// [Spoiled.1d] [Spoiled.1f] [Spoiled.1g] one branch
fn is_sound_branch(b: Branch, eight: bool) -> bool
    ensures { result ≡ is_sound_branch_of eight b }
{
    (eight | b.has_free_place()) & b.is_well_formed()
}

impl Readout {
    // [Registers.4] no controller enabled, four fresh branches
    pub fn fresh() -> Readout
        ensures { result ≡ fresh_of module_branches }
    {
        let b = Branch::fresh();
        Readout {
            branches: [b, b, b, b],
            roc: 0,
            acks: 0,
        }
    }

    // [CSRWrite.1] INITIALIZE: fresh, with as many branches
    pub fn initialized(self) -> Readout
        ensures { result ≡ fresh_of (length self.branches) }
    {
        Readout::fresh()
    }

    // [CSRWrite.2d] [State.3] RESET
    pub fn emptied(self) -> Readout
        ensures { result ≡ emptied_of self }
    {
        let b = Branch::fresh();
        Readout {
            branches: [b, b, b, b],
            roc: self.roc,
            acks: self.acks,
        }
    }

    // Each branch is bound, and then asked: by an array pattern a tick takes 18 instructions more, by a closure over the four 35, by
    // `iter().all` 67 (302, 319 and 351 on quiet traffic for 284).

    // [Main.14] [Usersync.2] no branch holds a word
    pub fn is_empty(self) -> bool
        ensures { result ≡ is_empty_of self.branches }
    {
        let bs = self.branches;
        let b0 = bs[0];
        let b1 = bs[1];
        let b2 = bs[2];
        let b3 = bs[3];
        !(0 < b0.len) & (!(0 < b1.len) & (!(0 < b2.len) & (!(0 < b3.len) & true)))
    }

    // [Main.13] every branch is below its depth; lock: CSR bit 9; lock4: bit 10
    pub fn has_room(self, lock: bool, lock4: bool) -> bool
        ensures { result ≡ has_room_of lock lock4 self.branches }
    {
        let bs = self.branches;
        let b0 = bs[0];
        let b1 = bs[1];
        let b2 = bs[2];
        let b3 = bs[3];
        let plain = depth(lock);
        let fourth = depth(lock4 | lock);
        (b0.len < plain) & ((b1.len < plain) & ((b2.len < plain) & ((b3.len < fourth) & true)))
    }

    // [Active.1] no branch holds a word or is away from Rest
    pub fn is_quiet(self) -> bool
        ensures { result ≡ is_quiet_of self.branches }
    {
        let bs = self.branches;
        let b0 = bs[0];
        let b1 = bs[1];
        let b2 = bs[2];
        let b3 = bs[3];
        b0.is_quiet() & (b1.is_quiet() & (b2.is_quiet() & (b3.is_quiet() & true)))
    }

    // The same readout, its branches field by field.
    pub fn rebuilt(self) -> Readout
        ensures { result ≡ self }
    {
        Readout {
            branches: self.branches.map(|b| rebuilt(b)),
            roc: self.roc,
            acks: self.acks,
        }
    }

    // Nothing moves: every branch is quiet and nothing is loaded.
    fn silent(self, acks: u32) -> ReadoutStep
        ensures { result ≡ silent_of acks self }
    {
        let mut next = self.rebuilt();
        next.acks = acks;
        let none = Side {
            finished: None,
            shown: None,
        };
        ReadoutStep {
            next,
            sides: [none, none, none, none],
        }
    }

    // written out: by `array::from_fn` and `map` it is as fast, and the proof did not close
    fn stepped(self, acks: u32, load: Slot) -> ReadoutStep
        ensures { result ≡ step_of acks load self }
    {
        let bs = self.branches;
        let b0 = bs[0];
        let b1 = bs[1];
        let b2 = bs[2];
        let b3 = bs[3];
        let ack = bits::bytes(acks);
        let on = bits::bytes(self.roc);
        let s0 = b0.step(ack[0], on[0], load);
        let s1 = b1.step(ack[1], on[1], load);
        let s2 = b2.step(ack[2], on[2], load);
        let s3 = b3.step(ack[3], on[3], load);
        gathered(s0, s1, s2, s3, self.roc, acks)
    }

    // [Branches.5] [State.3] a tick of every branch, with the word to load
    pub fn step(self, acks: u32, load: Slot) -> ReadoutStep
        ensures { result ≡ step_of acks load self }
    {
        if self.is_quiet() & !load.is_some() {
            return self.silent(acks);
        }
        self.stepped(acks, load)
    }

    // [Spoiled.1d] [Spoiled.1f] [Spoiled.1g] eight: a queue may hold eight words.
    // Quiet branches, the common case, spoil nothing if no place holds anything.
    pub fn is_well_formed(self, eight: bool) -> bool
        ensures { result ≡ is_well_formed_of eight self.branches }
    {
        let bs = self.branches;
        let b0 = bs[0];
        let b1 = bs[1];
        let b2 = bs[2];
        let b3 = bs[3];
        if self.is_quiet() {
            return (b0.words == 0)
                & ((b1.words == 0) & ((b2.words == 0) & ((b3.words == 0) & true)));
        }
        is_sound_branch(b0, eight)
            & (is_sound_branch(b1, eight)
                & (is_sound_branch(b2, eight) & (is_sound_branch(b3, eight) & true)))
    }
}
