// How an answer is printed (document 01, "Console program"). The definitions are in specs/Printer.antt, and in specs/TickParts.antt
// for the parts of a tick's answer. Each function writes its text on the page that it is lent; by `Display` it would write to any
// writer, and that the page is one would be a law more, for the same bytes.
#![tactic(auto, using(text::proofs::PageLaws::write_append), unfolding(text::specs::Page::write, crate::specs::TickParts::mask_part, crate::specs::TickParts::masks_part))]

ghost use Rattle.std.specs.Prelude.{◌≡◌, ◌≤◌, [], ◌∷◌, ◌++◌};
ghost use Rattle.declines.specs.Answers.{verdict_reply, reading_reply, tick_reply, ticked};
ghost use Rattle.text.specs.Text.{newline, hex};
ghost use Rattle.text.specs.Written.{Wrote};
ghost use Rattle.printer.specs.Printer.{refusal_number, outcome_text, slot_text, no_text, ok_text, reply_text};
ghost use Rattle.printer.specs.TickParts.{mask_part, masks_part, slot_part, slots_part};

use branch::Slot;
use declines::Decline;
use sequencer::states::Outcome;
use supervisor::Answer;
use text::{Digits, Page};
use trigger::latch::Masks;

// ---- refusals

// [Console.5] why a line is refused: its call was declined, or it has no form that asks for one
#[derive(Clone, Copy)]
pub enum Refusal {
    Declined(Decline),
    Malformed,
}

impl Refusal {
    // the documents' number, under its name and not by From
    fn number(self) -> u8
        ensures value { result ≡ refusal_number self }
        ensures upper_bound { result ≤ 9 }
    {
        match self {
            Refusal::Declined(why) => why.number(),
            Refusal::Malformed => 6,
        }
    }
}

// [Console.5] the word `no` and a number of one digit
pub fn put_no(page: &mut Page, number: u8)
    requires { number ≤ 9 }
    ensures { Wrote (no_text number) page.old page.new }
{
    page.put_all(&[b'n', b'o', b' ', b'0' + number, b'\n']);
}

pub fn put_refusal(page: &mut Page, why: Refusal)
    ensures { Wrote (no_text (refusal_number why)) page.old page.new }
{
    put_no(page, why.number());
}

// ---- short answers

fn put_ok(page: &mut Page)
    ensures { Wrote ok_text page.old page.new }
{
    page.put_all(b"ok\n");
}

// [Console.5] the answer to a write
pub fn put_verdict(page: &mut Page, answer: Result<(), Decline>)
    ensures { Wrote (reply_text 0 (verdict_reply answer)) page.old page.new }
{
    match answer {
        Ok(()) => put_ok(page),
        Err(why) => put_refusal(page, Refusal::Declined(why)),
    }
}

fn put_value(page: &mut Page, digits: Digits, v: u32)
    ensures { Wrote (hex digits.count v ++ (newline ∷ [])) page.old page.new }
{
    page.put_hex(digits, v);
    page.put(b'\n');
}

// [Console.5] the answer to a read
pub fn put_reading(page: &mut Page, digits: Digits, answer: Result<u32, Decline>)
    ensures { Wrote (reply_text digits.count (reading_reply answer)) page.old page.new }
{
    match answer {
        Ok(v) => put_value(page, digits, v),
        Err(why) => put_refusal(page, Refusal::Declined(why)),
    }
}

// ---- a tick's fields

// A mask and the space after it.
fn put_mask(page: &mut Page, mask: u32)
    ensures { Wrote (mask_part mask) page.old page.new }
{
    page.put_hex(Digits { count: 3 }, mask);
    page.put(b' ');
}

fn put_masks(page: &mut Page, masks: Masks)
    ensures { Wrote (masks_part masks) page.old page.new }
{
    put_mask(page, masks.stopped);
    put_mask(page, masks.scaled);
    put_mask(page, masks.lost);
    put_mask(page, masks.rejected);
    put_mask(page, masks.accepted);
}

fn put_word(page: &mut Page, word: u8)
    ensures { Wrote (hex 2 word) page.old page.new }
{
    page.put_hex(Digits { count: 2 }, word as u32);
}

fn put_outcome(page: &mut Page, outcome: Outcome)
    ensures { Wrote (outcome_text outcome) page.old page.new }
{
    match outcome {
        Outcome::Nothing => page.put(b'-'),
        Outcome::Cleared => page.put(b'c'),
        Outcome::Event(word) => {
            page.put(b'e');
            put_word(page, word);
        }
        Outcome::Tag(word) => {
            page.put(b'g');
            put_word(page, word);
        }
    }
}

fn put_slot(page: &mut Page, slot: Slot)
    ensures { Wrote (slot_text slot) page.old page.new }
{
    match slot {
        None => page.put(b'-'),
        Some(word) => put_word(page, word),
    }
}

// A space before each slot.
#[tactic(auto, using(text::proofs::PageLaws::write_append, crate::proofs::PartLaws::slots_next), unfolding(text::specs::Page::write, crate::specs::TickParts::slot_part, crate::specs::TickParts::slots_part))]
fn put_slots(page: &mut Page, slots: [Slot; 4])
    ensures { Wrote (slots_part slots) page.old page.new }
{
    for slot in slots {
        page.put(b' ');
        put_slot(page, slot);
    }
}

// [Console.7] masks, lines, outcome, finished, shown
fn put_answer(page: &mut Page, a: Answer)
    ensures { Wrote (reply_text 0 (ticked a)) page.old page.new }
{
    put_masks(page, a.masks);
    page.put_hex(Digits { count: 4 }, a.lines);
    page.put(b' ');
    put_outcome(page, a.outcome);
    put_slots(page, a.sides.map(|side| side.finished));
    put_slots(page, a.sides.map(|side| side.shown));
    page.put(b'\n');
}

// [Console.5] [Console.7] the answer to a tick
pub fn put_tick(page: &mut Page, answer: Result<Answer, Decline>)
    ensures { Wrote (reply_text 0 (tick_reply answer)) page.old page.new }
{
    match answer {
        Ok(a) => put_answer(page, a),
        Err(why) => put_refusal(page, Refusal::Declined(why)),
    }
}
