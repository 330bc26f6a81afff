// The script's reader (document 01, "Console program"). The definitions are in specs/Reader.antt. A line is read field by field, from its
// front: what is left of it is a part of the script's slice.
#![tactic(auto, using(crate::proofs::FieldLaws::fields_after))]

ghost use Rattle.std.specs.Prelude.{◌≡◌, ◌+◌, ◌<◌, ◌≤◌, ◌^◌, ◌==◌, [], ◌∷◌, true, false, length, position, drop, IfSome, IfNone};
ghost use Rattle.std.specs.Iterator.{YieldsFirst, item_count};
ghost use Rattle.std.specs.Bool.{then_some};
ghost use Rattle.std.specs.Option.{unwrap_or};
ghost use Rattle.text.specs.Text.{newline};
ghost use Rattle.reader.specs.Reader.{has_digits_of, has_field_of, has_fields, number_at, command_of};
ghost use Rattle.reader.specs.Reader.{line_length_of, first_line_of, commands_of};
ghost use Rattle.reader.specs.Fields.{Field};
ghost use Rattle.reader.specs.declared.Command.TheVariants.{WriteRegister, ReadRegister, WriteMemory, ReadMemory, Tick, Other};

use text::{Digits, digit_value};

// What a line asks.
#[derive(Clone, Copy)]
pub enum Command {
    WriteRegister(u32, u32),
    ReadRegister(u32),
    WriteMemory(u32, u16),
    ReadMemory(u32),
    Tick(u32, u32, u32),
    // A variant and no Option, since `line_answer` and the claims about it go by it.
    Other,
}

// A line of the script, in the form that `first_line` promises: how many bytes stand before its newline, and what it asks.
#[derive(Clone, Copy)]
pub struct Line {
    pub len: usize,
    pub command: Command,
}

// ---- the fields of a line

// [Console.3] what parts the fields
const TAB: u8 = b'\t';

// The number that some digits write, the highest first.
#[tactic(auto, using(crate::proofs::FieldLaws::digits_none, crate::proofs::FieldLaws::digits_next, crate::proofs::FieldLaws::digits_stop, crate::proofs::FieldLaws::number_none, crate::proofs::FieldLaws::number_next))]
fn number(digits: &[u8]) -> Option<u32>
    requires { length digits.now ≤ 8 }
    ensures value { IfSome result (λ v. (has_digits_of digits.now 0 (length digits.now) ≡ true) × (v ≡ number_at digits.now 0 (length digits.now))) }
    ensures upper_bound { IfSome result (λ v. v < 16 ^ length digits.now) }
    ensures other { IfNone result (has_digits_of digits.now 0 (length digits.now) ≡ false) }
{
    let mut value = 0;
    for b in digits {
        value = 16 * value + digit_value(*b)?;
    }
    Some(value)
}

// [Console.3] a tab and so many digits: their number, and what comes after them
#[tactic(auto, using(crate::proofs::FieldLaws::field_found, crate::proofs::FieldLaws::field_bad, crate::proofs::FieldLaws::field_short))]
fn field(rest: &[u8], digits: Digits) -> Option<(u32, &[u8])>
    ensures found { IfSome result (λ r. Field rest.now digits.count r.0 r.1.now) }
    ensures other { IfNone result (has_field_of rest.now 0 digits.count ≡ false) }
{
    let (tab, rest) = rest.split_first()?;
    let (digits, rest) = rest.split_at_checked(digits.count as usize)?;
    if *tab != TAB {
        return None;
    }
    let value = number(digits)?;
    Some((value, rest))
}

// ---- what a line asks, by what comes after its letter

fn write_register(rest: &[u8]) -> Option<Command>
    ensures { result ≡ then_some (has_fields rest.now 0 (2 ∷ 8 ∷ [])) (WriteRegister (number_at rest.now 1 2) (number_at rest.now 4 8)) }
{
    let (number, rest) = field(rest, Digits { count: 2 })?;
    let (value, rest) = field(rest, Digits { count: 8 })?;
    rest.is_empty()
        .then_some(Command::WriteRegister(number, value))
}

fn read_register(rest: &[u8]) -> Option<Command>
    ensures { result ≡ then_some (has_fields rest.now 0 (2 ∷ [])) (ReadRegister (number_at rest.now 1 2)) }
{
    let (number, rest) = field(rest, Digits { count: 2 })?;
    rest.is_empty().then_some(Command::ReadRegister(number))
}

fn write_memory(rest: &[u8]) -> Option<Command>
    ensures { result ≡ then_some (has_fields rest.now 0 (3 ∷ 4 ∷ [])) (WriteMemory (number_at rest.now 1 3) (number_at rest.now 5 4)) }
{
    let (place, rest) = field(rest, Digits { count: 3 })?;
    let (word, rest) = field(rest, Digits { count: 4 })?;
    rest.is_empty()
        .then_some(Command::WriteMemory(place, word as u16))
}

fn read_memory(rest: &[u8]) -> Option<Command>
    ensures { result ≡ then_some (has_fields rest.now 0 (3 ∷ [])) (ReadMemory (number_at rest.now 1 3)) }
{
    let (place, rest) = field(rest, Digits { count: 3 })?;
    rest.is_empty().then_some(Command::ReadMemory(place))
}

fn tick(rest: &[u8]) -> Option<Command>
    ensures { result ≡ then_some (has_fields rest.now 0 (3 ∷ 2 ∷ 8 ∷ [])) (Tick (number_at rest.now 1 3) (number_at rest.now 5 2) (number_at rest.now 8 8)) }
{
    let (triggers, rest) = field(rest, Digits { count: 3 })?;
    let (lines, rest) = field(rest, Digits { count: 2 })?;
    let (acks, rest) = field(rest, Digits { count: 8 })?;
    rest.is_empty()
        .then_some(Command::Tick(triggers, lines, acks))
}

// [Console.3] by its letter, one of the five kinds of line
fn asked(line: &[u8]) -> Option<Command>
    ensures { unwrap_or result Other ≡ command_of line.now }
{
    let (letter, rest) = line.split_first()?;
    match *letter {
        b'W' => write_register(rest),
        b'R' => read_register(rest),
        b'M' => write_memory(rest),
        b'V' => read_memory(rest),
        b'T' => tick(rest),
        _ => None,
    }
}

// [Console.3] [Console.5] or any other
fn command_of(line: &[u8]) -> Command
    ensures { result ≡ command_of line.now }
{
    asked(line).unwrap_or(Command::Other)
}

// ---- the line reader

fn first_newline(rest: &[u8]) -> Option<usize>
    ensures { result ≡ position (λ b. b == newline) rest.now }
{
    rest.iter().position(|b| *b == b'\n')
}

// How many bytes of the rest stand before its first newline. The second clause is for the part that is the line.
#[tactic(auto, using(crate::proofs::ReaderLaws::length_at_most))]
pub fn line_length(rest: &[u8]) -> usize
    ensures value { result ≡ line_length_of rest.now }
    ensures upper_bound { result ≤ length rest.now }
{
    first_newline(rest).unwrap_or(rest.len())
}

// [Console.4] the first line of the rest of a script, from any line onward
pub fn first_line(rest: &[u8]) -> Line
    ensures { result ≡ first_line_of rest.now }
{
    let len = line_length(rest);
    Line {
        len,
        command: command_of(&rest[..len]),
    }
}

// What is left after so many bytes; past the end nothing is.
pub fn after(rest: &[u8], count: usize) -> &[u8]
    ensures { result.now ≡ drop count rest.now }
{
    rest.get(count..).unwrap_or_default()
}

// What the lines of the rest of a script ask, one after the other: each is the first line of what the ones before it left.
#[derive(Drop)]
pub struct Lines<'a>(pub &'a [u8]);

impl Iterator for Lines<'_> {
    type Item = Command;

    ghost next_gives = { YieldsFirst (λ s. commands_of s.0.now) };

    ghost remaining = { item_count (λ s. commands_of s.0.now) };

    fn next(&mut self) -> Option<Command> {
        if self.0.is_empty() {
            return None;
        }
        let line = first_line(self.0);
        self.0 = after(self.0, line.len + 1);
        Some(line.command)
    }
}
