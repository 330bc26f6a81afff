// Trigger control, register 1 (document 01, "Registers"). The definitions are in specs/Control.antt.
ghost use Rattle.std.specs.Prelude.{◌≡◌};
ghost use Rattle.registers.specs.Control.{fresh_of, is_strobe_mode, opens_prescales, counted_of, enabled_of};

// The word that a read of register 1 gives.
#[derive(Clone, Copy)]
pub struct Control {
    pub word: u32,
}

impl Control {
    // the enable bits of the twelve inputs, once bit 0 is gone: none is at or above this
    const ENABLES_LIMIT: u32 = 4096;

    // [Registers.4] every bit 0
    pub fn fresh() -> Control
        ensures { result ≡ fresh_of }
    {
        Control { word: 0 }
    }

    pub fn is_strobe_mode(self) -> bool
        ensures { result ≡ is_strobe_mode self }
    {
        bits::bit_at(self.word, 0)
    }

    pub fn opens_prescales(self) -> bool
        ensures { result ≡ opens_prescales self }
    {
        bits::bit_at(self.word, 15)
    }

    // [Pulses.1] the pulses that count
    pub fn counted(self, triggers: u32, strobe: bool) -> u32
        ensures { result ≡ counted_of strobe triggers self }
    {
        if !self.is_strobe_mode() | strobe {
            return triggers & self.enabled();
        }
        0
    }

    // [Test.3] the inputs that are enabled
    pub fn enabled(self) -> u32
        ensures { result ≡ enabled_of self }
    {
        self.word / 2 % Control::ENABLES_LIMIT
    }
}
