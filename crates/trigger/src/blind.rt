// The blind time after a rejected pattern (document 02, N1). The definitions are in specs/BlindTime.antt.
ghost use Rattle.std.specs.Prelude.{◌≡◌};
ghost use Rattle.trigger.specs.BlindTime.{fresh_of, after_of, is_over, is_within};

#[derive(Clone, Copy)]
pub struct BlindTime {
    // ticks to come that are not ready
    pub count: u8,
}

impl BlindTime {
    // [Blind.2] ticks that a fast reset makes not ready
    pub const TICKS: u8 = 2;

    // [Blind.3] not blind
    pub fn fresh() -> BlindTime
        ensures { result ≡ fresh_of }
    {
        BlindTime { count: 0 }
    }

    // [Blind.2] a rejected pattern starts the count, every other tick lowers it
    pub fn after(self, rejected: u32) -> BlindTime
        ensures { result ≡ after_of rejected self }
    {
        let count = self.count;
        if rejected != 0 {
            return BlindTime {
                count: BlindTime::TICKS,
            };
        }
        if 0 < count {
            return BlindTime { count: count - 1 };
        }
        self
    }

    // [Blind.2] [Blind.4] what the ready rule asks
    pub fn is_over(self) -> bool
        ensures { result ≡ is_over self }
    {
        self.count == 0
    }

    // [Blind.3] what the spoiled rule asks
    pub fn is_within(self) -> bool
        ensures { result ≡ is_within self }
    {
        self.count <= BlindTime::TICKS
    }
}
