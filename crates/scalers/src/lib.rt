// The two scalers and their latches (document 01, "Registers"; document 02, N4). The definitions are in specs/Scalers.antt.
#![tactic(auto)]

ghost use Rattle.std.specs.Prelude.{◌≡◌};
ghost use Rattle.scalers.specs.Scalers.{fresh_of, zeroed_of, latched_of, latch_of, reset_of};
ghost use Rattle.scalers.specs.Scalers.{is_some, is_none_of, counts_of, add_of, counted_of};

#[derive(Clone, Copy)]
pub struct Scalers {
    // registers 17 and 18
    pub scaler0: u32,
    pub scaler1: u32,
    // register 19: what scaler 1 counts
    pub assign: u32,
    // the value that each had at the latest read with BYTE(3)
    pub latch0: u32,
    pub latch1: u32,
}

// What a tick brings the scalers.
#[derive(Clone, Copy)]
pub struct Signals {
    // pulses past the prescalers, and those of them rejected and accepted
    pub passed: u32,
    pub rejected: u32,
    pub accepted: u32,
    // an event is loaded
    pub event: bool,
    // main acts on a fail of level 2, of level 3; the fail is late
    pub failed2: bool,
    pub failed3: bool,
    pub late: bool,
    // a word with the sync bit is loaded
    pub sync: bool,
}

fn is_some(mask: u32) -> bool
    ensures { result ≡ is_some mask }
{
    !(mask == 0)
}

// [Assign.3b]
fn add(t: bool, n: u32) -> u32
    ensures { result ≡ add_of t n }
{
    std::num::wrapping_add_u32(n, bits::one_if(t))
}

impl Signals {
    // a tick that brings nothing, which no code counts
    fn is_none(self) -> bool
        ensures { result ≡ is_none_of self }
    {
        let pulses = (self.passed == 0) & ((self.rejected == 0) & (self.accepted == 0));
        let moves = self.event | (self.failed2 | (self.failed3 | (self.late | self.sync)));
        pulses & !moves
    }

    // [Assign.1] scaler 1 counts this tick. A chain of tests: as a match on the code a tick takes 300, 352 and 581 instructions for 277,
    // 313 and 487.
    #[tactic(auto, unfolding(crate::specs::Scalers::counts_of))]
    pub fn counts(self, code: u32) -> bool
        ensures { result ≡ counts_of self code }
    {
        if code == 0 {
            return is_some(self.passed);
        }
        if code <= 12 {
            let input = code - 1;
            return bits::bit_at(self.passed, input);
        }
        if code == 13 {
            return is_some(self.rejected) | is_some(self.accepted);
        }
        if code == 14 {
            return is_some(self.accepted);
        }
        if code == 15 {
            return is_some(self.rejected);
        }
        if code < 32 {
            return self.failed2;
        }
        if code < 48 {
            return self.failed3;
        }
        if code < 64 {
            return self.late;
        }
        self.sync
    }
}

impl Scalers {
    // [Registers.4] both 0, code 0; [Bytes.5b] and both latches 0
    pub fn fresh() -> Scalers
        ensures { result ≡ fresh_of }
    {
        Scalers {
            scaler0: 0,
            scaler1: 0,
            assign: 0,
            latch0: 0,
            latch1: 0,
        }
    }

    // [Registers.3] [Bytes.4a]
    pub fn zeroed(self, n: u32) -> Scalers
        ensures { result ≡ zeroed_of n self }
    {
        let mut next = self;
        if n == 0 {
            next.scaler0 = 0;
            return next;
        }
        next.scaler1 = 0;
        next
    }

    // [Bytes.5a]
    pub fn latched(self, n: u32) -> Scalers
        ensures { result ≡ latched_of n self }
    {
        let mut next = self;
        if n == 0 {
            next.latch0 = self.scaler0;
            return next;
        }
        next.latch1 = self.scaler1;
        next
    }

    // [Bytes.5b]
    pub fn latch(self, n: u32) -> u32
        ensures { result ≡ latch_of n self }
    {
        if n == 0 {
            return self.latch0;
        }
        self.latch1
    }

    // [CSRWrite.2d] [Bytes.5b]
    pub fn reset(self) -> Scalers
        ensures { result ≡ reset_of self }
    {
        Scalers {
            scaler0: 0,
            scaler1: 0,
            ..self
        }
    }

    // [Assign.3a] [Assign.4]
    pub fn counted(self, x: Signals) -> Scalers
        ensures { result ≡ counted_of x self }
    {
        if x.is_none() {
            return self;
        }
        let assign = self.assign;
        let counts = x.counts(assign);
        Scalers {
            scaler0: add(x.event, self.scaler0),
            scaler1: add(counts, self.scaler1),
            assign,
            latch0: self.latch0,
            latch1: self.latch1,
        }
    }
}
