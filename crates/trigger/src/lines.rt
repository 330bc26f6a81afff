// What a tick brings (document 01, "The tick", Input). The definitions are in specs/Lines.antt.
ghost use Rattle.std.specs.Prelude.{◌≡◌};
ghost use Rattle.trigger.specs.Lines.{inputs_of};
ghost use Rattle.trigger.specs.Lines.{has_strobe, has_pass2, has_fail2, has_pass3, has_fail3, has_front_busy, has_inhibit};

// The seven lines, a bit each.
#[derive(Clone, Copy)]
pub struct Lines {
    pub word: u32,
}

#[derive(Clone, Copy)]
pub struct Inputs {
    // bit i is a pulse of input i + 1
    pub triggers: u32,
    pub lines: Lines,
    // laid out as register 10
    pub acks: u32,
}

impl Inputs {
    // [Tick.1] from its three numbers
    pub fn brought(triggers: u32, lines: u32, acks: u32) -> Inputs
        ensures { result ≡ inputs_of triggers lines acks }
    {
        Inputs {
            triggers,
            lines: Lines { word: lines },
            acks,
        }
    }
}

// Each line by its name; one function with a bit's number is `bits::bit_at`.
impl Lines {
    pub fn has_strobe(self) -> bool
        ensures { result ≡ has_strobe self }
    {
        bits::bit_at(self.word, 0)
    }

    pub fn has_pass2(self) -> bool
        ensures { result ≡ has_pass2 self }
    {
        bits::bit_at(self.word, 1)
    }

    pub fn has_fail2(self) -> bool
        ensures { result ≡ has_fail2 self }
    {
        bits::bit_at(self.word, 2)
    }

    pub fn has_pass3(self) -> bool
        ensures { result ≡ has_pass3 self }
    {
        bits::bit_at(self.word, 3)
    }

    pub fn has_fail3(self) -> bool
        ensures { result ≡ has_fail3 self }
    {
        bits::bit_at(self.word, 4)
    }

    pub fn has_front_busy(self) -> bool
        ensures { result ≡ has_front_busy self }
    {
        bits::bit_at(self.word, 5)
    }

    pub fn has_inhibit(self) -> bool
        ensures { result ≡ has_inhibit self }
    {
        bits::bit_at(self.word, 6)
    }
}
