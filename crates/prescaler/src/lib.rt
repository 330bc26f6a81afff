// The prescalers of inputs 1–8 (document 01, "The tick", Pulses; document 02, N4): of F + 1 counted pulses the last passes.
// The bank goes in by value and comes back. Every contract is an equality with a definition of specs/.
#![tactic(auto)]

ghost use Rattle.std.specs.Prelude.{◌≡◌, true, ℕ, ◌≤◌, ◌<◌, eqb, ltb, slice_index_or, if◌then◌else◌};
ghost use Rattle.std.specs.List.{list_all};
ghost use Rattle.prescaler.specs.Prescaler.{fresh_of, with_factor_of, factor_of, reloaded_of};
ghost use Rattle.prescaler.specs.Prescaler.{prescaled_inputs, fate_of, counter_after, running_counter, scaled_of, step_of};
ghost use Rattle.prescaler.specs.Prescaler.{all_fit_of, has_counters_within_of, has_valid_factors_of};

use registers::register::Register;
use std::array;

// Place i is input i + 1. Two arrays and not eight pairs: RESET makes one of the other ([CSRWrite.2d]), [Spoiled.1a] and [Bytes.9]
// speak of one of them each.
#[derive(Clone, Copy)]
pub struct Prescalers {
    pub counters: [u32; 8],
    pub factors: [u32; 8],
}

// The next bank, and the counted pulses of all twelve inputs by what became of them: bit i is input i + 1.
#[derive(Clone, Copy)]
pub struct Prescaled {
    pub next: Prescalers,
    pub stopped: u32,
    pub scaled: u32,
    pub passed: u32,
}

// [Pulses.3] [Pulses.4] the counter of one prescaler of a bank that runs
fn counter_after(counted: bool, counter: u32, factor: u32) -> u32
    ensures { result ≡ counter_after (fate_of counted true (eqb counter 0)) counter factor }
{
    if counted {
        if 0 < counter {
            return counter - 1;
        }
        return factor;
    }
    counter
}

// [Pulses.3] a pulse, 0 or 1, that meets a counter above 0 is scaled. The second clause is what a sum of them asks.
fn scaled(pulse: u32, counter: u32) -> u32
    ensures value { result ≡ (if eqb counter 0 then 0 else pulse) }
    ensures upper_bound { result ≤ pulse }
{
    if 0 < counter {
        return pulse;
    }
    0
}

impl Prescalers {
    // [Registers.1] how many inputs have a prescaler
    pub const PRESCALED_INPUTS: u32 = 8;

    // [Tick.1] the bits of all twelve inputs, and of those with a prescaler: no bit is at or above these
    const INPUTS_LIMIT: u32 = 4096;

    const PRESCALED_LIMIT: u32 = 256;

    // [Registers.4] every counter and factor 0
    pub fn fresh() -> Prescalers
        ensures { result ≡ fresh_of }
    {
        Prescalers {
            counters: [0u32; 8],
            factors: [0u32; 8],
        }
    }

    // [Registers.2] [Bytes.4a] the input is counted from 1; one without a prescaler changes nothing
    pub fn with_factor(self, loads: bool, input: u32, factor: u32) -> Prescalers
        ensures { result ≡ with_factor_of loads input factor self }
    {
        if 1 <= input {
            if input <= Prescalers::PRESCALED_INPUTS {
                let place = (input - 1) as usize;
                let mut next = self;
                next.factors[place] = factor;
                if loads {
                    next.counters[place] = factor;
                }
                return next;
            }
        }
        self
    }

    // [Registers.1] the factor of an input, counted from 1; 0 for one without a prescaler
    pub fn factor(self, input: u32) -> u32
        ensures { result ≡ factor_of input self }
    {
        let factors = self.factors;
        if 1 <= input {
            if input <= Prescalers::PRESCALED_INPUTS {
                let place = (input - 1) as usize;
                return factors[place];
            }
        }
        0
    }

    // [CSRWrite.2d] every counter loaded
    pub fn reloaded(self) -> Prescalers
        ensures { result ≡ reloaded_of self }
    {
        let factors = self.factors;
        Prescalers {
            counters: factors,
            factors,
        }
    }

    // [Pulses.3] the scaled pulses of a bank that runs; numbers and not tests, so that a compiler takes several at once
    fn scaled_of(self, pulses: u32) -> u32
        ensures { result ≡ scaled_of pulses self }
    {
        let c = self.counters;
        scaled(pulses / 1 % 2, c[0])
            + 2 * scaled(pulses / 2 % 2, c[1])
            + 4 * scaled(pulses / 4 % 2, c[2])
            + 8 * scaled(pulses / 8 % 2, c[3])
            + 16 * scaled(pulses / 16 % 2, c[4])
            + 32 * scaled(pulses / 32 % 2, c[5])
            + 64 * scaled(pulses / 64 % 2, c[6])
            + 128 * scaled(pulses / 128 % 2, c[7])
    }

    // [Pulses.3] [Pulses.4] every counter of a bank that runs, each by itself
    fn counters_after(self, pulses: u32) -> [u32; 8]
        ensures { (i : ℕ) → i < prescaled_inputs → slice_index_or result i 0 ≡ running_counter pulses self i }
    {
        let c = self.counters;
        let f = self.factors;
        array::from_fn(|i| counter_after((pulses >> i) % 2 == 1, c[i], f[i]))
    }

    // All eight prescalers: a loop over the pulses that are there would be slower.
    fn counted_down(self, pulses: u32) -> Prescaled
        ensures { result ≡ step_of true pulses self }
    {
        let factors = self.factors;
        let counters = self.counters_after(pulses);
        let scaled = self.scaled_of(pulses);
        Prescaled {
            next: Prescalers { counters, factors },
            stopped: 0,
            scaled,
            passed: bits::clear(pulses % Prescalers::INPUTS_LIMIT, scaled),
        }
    }

    // [Pulses.2] [Pulses.5] the counted pulses; runs: GO or OPEN PRESCALES is set. Where no counter can move none is looked at.
    pub fn step(self, runs: bool, pulses: u32) -> Prescaled
        ensures { result ≡ step_of runs pulses self }
    {
        let counted = pulses % Prescalers::INPUTS_LIMIT;
        if !runs {
            return Prescaled {
                next: self,
                stopped: counted,
                scaled: 0,
                passed: 0,
            };
        }
        if pulses % Prescalers::PRESCALED_LIMIT == 0 {
            return Prescaled {
                next: self,
                stopped: 0,
                scaled: 0,
                passed: counted,
            };
        }
        self.counted_down(pulses)
    }

    // [Bytes.9] every counter fits the width of its factor
    pub fn has_counters_within(self) -> bool
        ensures { result ≡ has_counters_within_of self }
    {
        let counters = self.counters;
        all_fit(counters)
    }

    // [Spoiled.1a] every factor is one that its write takes
    pub fn has_valid_factors(self) -> bool
        ensures { result ≡ has_valid_factors_of self }
    {
        let factors = self.factors;
        all_fit(factors)
    }
}

fn are_below(values: &[u32], limit: u32) -> bool
    ensures { result ≡ list_all (λ value. ltb value limit) values.now }
{
    values.iter().all(|value| *value < limit)
}

// [Widths.1] each of eight numbers fits the width of its input's factor: inputs 1–4, and 5–8
fn all_fit(values: [u32; 8]) -> bool
    ensures { result ≡ all_fit_of values }
{
    are_below(&values[..4], Register::LOW_FACTOR_LIMIT)
        & are_below(&values[4..], Register::HIGH_FACTOR_LIMIT)
}
