// Runs the stored scripts of data/scripts through the library and prints the answers of each, with a line `--` after it.
// A byte 1Eh ends each script there. Two more scripts, of 65,536 and 65,537 bytes, are made here. What must be printed,
// in the file stdout, comes from the model in reference/ and never from this program.
#![tactic(auto)]

use input::read_all;
use script::SCRIPT_LIMIT;
use std::fs::File;
use std::io;
use std::io::Write;

const END_OF_SCRIPT: u8 = 30;

// More than the stored scripts take.
const STORED: usize = 65536;

fn run<W: Write>(out: &mut W, script: &[u8]) -> io::Result<()> {
    // The buffer and what of it is printed, as `script::answers` has them.
    let mut answers = script::output_buffer();
    let printed = script::answers(script, &mut answers);
    out.write_all(&answers[..printed])?;
    out.write_all(b"--\n")
}

fn run_all<W: Write>(out: &mut W, scripts: &[u8]) -> io::Result<()> {
    for ended in scripts.split_inclusive(|b| *b == END_OF_SCRIPT) {
        run(out, ended.strip_suffix(&[END_OF_SCRIPT]).unwrap_or(ended))?;
    }
    Ok(())
}

// A read in a script whose last line is as long as it can be, and with one byte more.
fn run_long<W: Write>(out: &mut W) -> io::Result<()> {
    let mut long = [b'X'; SCRIPT_LIMIT + 1];
    long[..18].copy_from_slice(b"supervisor\t1\nR\t00\n");
    run(out, &long[..SCRIPT_LIMIT])?;
    run(out, &long)
}

// The buffer and what of it is used, not a vector: a heap would be one more thing that is trusted (three axioms).
fn main(rt: HostRuntime) -> io::Result<()> {
    let mut scripts = [0; STORED];
    let len = read_all(&mut File::open(&rt, "scripts")?, &mut scripts)?;
    let mut out = rt.stdout();
    run_all(&mut out, &scripts[..len])?;
    run_long(&mut out)
}
