// A console session (document 01, "Console program"): each line is one public call, and its answer is printed. The
// definitions are in specs/Script.antt.
ghost use Rattle.std.specs.Prelude.{◌≡◌};
ghost use Rattle.declines.specs.Answers.{verdict_reply, reading_reply, tick_reply};
ghost use Rattle.printer.specs.Printer.{reply_text};
ghost use Rattle.declines.specs.Runs.{session};
ghost use Rattle.script.specs.Script.{line_answer, session_after};
ghost use Rattle.text.specs.Written.{Wrote};

use calls::{read_memory, read_register, tick, write_memory, write_register};
use declines::{Decline, Done};
use printer::{Refusal, put_reading, put_refusal, put_tick, put_verdict};
use reader::Command;
use supervisor::{Answer, Supervisor};
use text::{Digits, Page};
use trigger::lines::Inputs;

// [Console.5] how many digits a register has, and a memory word
const REGISTER_DIGITS: Digits = Digits { count: 8 };

const WORD_DIGITS: Digits = Digits { count: 4 };

// The three below are inlined: else the record goes through memory for each line, and a script of register reads takes 1.4 times as long.

// [Console.5] what a write leaves, its answer printed
#[inline(always)]
fn wrote(s: &mut Supervisor, page: &mut Page, done: Done<Result<(), Decline>>)
    ensures next_value { s.new ≡ done.next }
    ensures printed { Wrote (reply_text 0 (verdict_reply done.answer)) page.old page.new }
{
    *s = done.next;
    put_verdict(page, done.answer);
}

// [Console.5] what a read leaves, its value printed in so many digits
#[inline(always)]
fn gave(s: &mut Supervisor, page: &mut Page, digits: Digits, done: Done<Result<u32, Decline>>)
    ensures next_value { s.new ≡ done.next }
    ensures printed { Wrote (reply_text digits.count (reading_reply done.answer)) page.old page.new }
{
    *s = done.next;
    put_reading(page, digits, done.answer);
}

// [Console.7] what a tick leaves, its fields printed
#[inline(always)]
fn ran(s: &mut Supervisor, page: &mut Page, done: Done<Result<Answer, Decline>>)
    ensures next_value { s.new ≡ done.next }
    ensures printed { Wrote (reply_text 0 (tick_reply done.answer)) page.old page.new }
{
    *s = done.next;
    put_tick(page, done.answer);
}

// [Console.5] the one place where a line becomes a call; a plain call is that of the whole run (the laws that are named)
#[tactic(auto, using(declines::proofs::BytesCallsLaws::plain_write_next, declines::proofs::BytesCallsLaws::plain_write_reply, declines::proofs::BytesCallsLaws::plain_read_next, declines::proofs::BytesCallsLaws::plain_read_reply))]
pub fn run_line(s: &mut Supervisor, memory: &mut [u16], command: Command, page: &mut Page)
    ensures memory_after { session s.new memory.new ≡ session_after command (session s.old memory.old) }
    ensures printed { Wrote (line_answer command (session s.old memory.old)) page.old page.new }
{
    // a match: each command has its call and its answer, and they have different types
    match command {
        Command::WriteRegister(number, value) => {
            wrote(s, page, write_register(*s, number, value));
        }
        Command::ReadRegister(number) => {
            gave(s, page, REGISTER_DIGITS, read_register(*s, number));
        }
        Command::WriteMemory(place, word) => {
            wrote(s, page, write_memory(*s, memory, place, word));
        }
        Command::ReadMemory(place) => gave(s, page, WORD_DIGITS, read_memory(*s, memory, place)),
        Command::Tick(triggers, lines, acks) => {
            ran(
                s,
                page,
                tick(*s, memory, Inputs::brought(triggers, lines, acks)),
            );
        }
        Command::Other => put_refusal(page, Refusal::Malformed),
    }
}
