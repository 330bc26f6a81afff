// The timers T1–T5 (document 01, "Registers"), in two units that meet nowhere but in ticks.
// The definitions are in specs/Timers.antt.
#![tactic(auto)]

ghost use Rattle.std.specs.Prelude.{◌≡◌};
ghost use Rattle.timers.specs.Timers.{count40_ticks_of, count20_ticks_of, fresh_of, is_reached};
ghost use Rattle.timers.specs.Timers.{written_of, stored_of, is_late_due, front_test_of, clear_count_of};

// Two types, not one with a parameter: document 01, "Choosing the form by place", has them so. T1–T4: counts of 40 ns.
#[derive(Clone, Copy)]
pub struct Count40(pub u16);

// T5: counts of 20 ns.
#[derive(Clone, Copy)]
pub struct Count20(pub u8);

#[derive(Clone, Copy)]
pub struct Timers {
    pub t1: Count40,
    pub t2: Count40,
    pub t3: Count40,
    pub t4: Count40,
    pub t5: Count20,
}

impl Count40 {
    // [Widths.3] two ticks each
    pub fn ticks(self) -> u32
        ensures { result ≡ count40_ticks_of self }
    {
        2 * (self.0 as u32)
    }

    // [Main.7] an age in ticks has come to this count
    pub fn is_reached(self, age: u32) -> bool
        ensures { result ≡ is_reached age self }
    {
        self.ticks() <= age
    }
}

impl Count20 {
    // [Widths.3] one tick each
    pub fn ticks(self) -> u8
        ensures { result ≡ count20_ticks_of self }
    {
        self.0
    }
}

impl Timers {
    // [Registers.4] every timer 0
    pub fn fresh() -> Timers
        ensures { result ≡ fresh_of }
    {
        Timers {
            t1: Count40(0),
            t2: Count40(0),
            t3: Count40(0),
            t4: Count40(0),
            t5: Count20(0),
        }
    }

    // [Widths.2] a value is cut to its timer's width
    #[tactic(auto, unfolding(crate::specs::Timers::written_of))]
    pub fn written(self, n: u32, value: u32) -> Timers
        ensures { result ≡ written_of n value self }
    {
        let count40 = Count40((value % 65536) as u16);
        let count20 = Count20((value % 256) as u8);
        match n {
            1 => Timers {
                t1: count40,
                ..self
            },
            2 => Timers {
                t2: count40,
                ..self
            },
            3 => Timers {
                t3: count40,
                ..self
            },
            4 => Timers {
                t4: count40,
                ..self
            },
            _ => Timers {
                t5: count20,
                ..self
            },
        }
    }

    #[tactic(auto, unfolding(crate::specs::Timers::stored_of))]
    pub fn stored(self, n: u32) -> u32
        ensures { result ≡ stored_of n self }
    {
        match n {
            1 => self.t1.0 as u32,
            2 => self.t2.0 as u32,
            3 => self.t3.0 as u32,
            4 => self.t4.0 as u32,
            _ => self.t5.0 as u32,
        }
    }

    // [Main.6] used: CSR bit 6
    pub fn is_late_due(self, used: bool, age: u32) -> bool
        ensures { result ≡ is_late_due used age self }
    {
        let t1 = self.t1;
        used & t1.is_reached(age)
    }

    // [Main.8] [Main.15] used: CSR bit 7
    pub fn front_test(self, busy: bool, used: bool, age: u32) -> bool
        ensures { result ≡ front_test_of busy used age self }
    {
        let t4 = self.t4;
        !busy & !(used & !t4.is_reached(age))
    }

    // [Main.15] used: CSR bit 8
    pub fn clear_count(self, used: bool) -> u8
        ensures { result ≡ clear_count_of used self }
    {
        let t5 = self.t5;
        let count = t5.ticks();
        if used & (0 < count) {
            return count;
        }
        1
    }
}
