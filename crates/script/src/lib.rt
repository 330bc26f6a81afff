// The console's script (document 01, "Console program"): a script goes in, its answers come out. The definitions are in
// specs/Script.antt. `answers` has no `requires`: it answers every script, and what it prints always fits.
#![tactic(auto)]

ghost use Rattle.std.specs.Prelude.{◌≡◌, ◌≤◌, take, length};
ghost use Rattle.declines.specs.Runs.{zero_memory, fresh_session};
ghost use Rattle.reader.specs.Reader.{lines_of};
ghost use Rattle.script.specs.Script.{capacity, is_header_of, answers_from, answers_of};
ghost use Rattle.text.specs.Written.{Wrote};

mod session;

use calls::MEMORY_PLACES;
use printer::{Refusal, put_refusal};
use reader::{Lines, after, line_length};
use session::run_line;
use supervisor::Supervisor;
use text::Page;

// [Console.1]
pub const SCRIPT_LIMIT: usize = 65536;

// Five bytes of answer for each byte of script: enough for every script.
pub const CAPACITY: usize = 327680;

// A buffer for `answers` to print in.
pub fn output_buffer() -> [u8; CAPACITY]
    ensures { capacity ≡ length result }
{
    [0; CAPACITY]
}

// [Console.2]
fn is_header(line: &[u8]) -> bool
    ensures { result ≡ is_header_of line.now }
{
    line == b"supervisor\t1".as_slice()
}

// [Console.1]
fn zero_memory() -> [u16; MEMORY_PLACES]
    ensures { result ≡ zero_memory }
{
    [0u16; MEMORY_PLACES]
}

// [Console.1] [Console.4] the lines of the rest of a script, on a fresh record and a memory of zeros
#[tactic(auto, using(text::proofs::PageLaws::write_append, crate::proofs::RunLaws::lines_answers), unfolding(declines::specs::Runs::fresh_session, text::specs::Page::write))]
fn run_lines(rest: &[u8], page: &mut Page)
    ensures { Wrote (answers_from (lines_of rest.now) fresh_session) page.old page.new }
{
    let mut memory = zero_memory();
    let mut s = Supervisor::fresh();
    for command in Lines(rest) {
        run_line(&mut s, &mut memory, command, page);
    }
}

// [Console.1] [Console.2] [Console.6] a script that is too long or begins otherwise is refused as a whole
#[tactic(auto, using(crate::proofs::RunLaws::long_script, crate::proofs::RunLaws::bad_first, crate::proofs::RunLaws::good_first))]
fn run_script(script: &[u8], page: &mut Page)
    ensures { Wrote (answers_of script.now) page.old page.new }
{
    if SCRIPT_LIMIT < script.len() {
        return put_refusal(page, Refusal::Malformed);
    }
    let first = line_length(script);
    if !is_header(&script[..first]) {
        return put_refusal(page, Refusal::Malformed);
    }
    run_lines(after(script, first + 1), page)
}

// What a script prints is the first so many bytes of `out`, which is as long as ever; the README names `answers`, so it keeps its form.
pub fn answers(script: &[u8], out: &mut [u8; CAPACITY]) -> usize
    ensures out_after { take result out.new ≡ answers_of script.now }
    ensures upper_bound { (result ≤ capacity) × (length out.new ≡ capacity) }
{
    let mut page = Page::new(out);
    run_script(script, &mut page);
    page.len()
}
