// The console (document 01, "Console program"): a script on standard input, its answers on standard output. Input and
// output stand here; everything else is `script::answers`, which is proved.
#![tactic(auto)]

ghost use Rattle.std.specs.Prelude.{◌≡◌, IfOk, Ok};

use input::read_all;
use script::SCRIPT_LIMIT;
use std::io;
use std::io::Write;

// A read or a write that fails is named on standard error.
fn named<T: Drop>(rt: &HostRuntime, what: &str, outcome: io::Result<T>) -> io::Result<T>
    ensures { IfOk result (λ value. outcome ≡ Ok value) }
{
    if let Err(error) = &outcome {
        eprintln!(rt; "{what}: {error}")?;
    }
    outcome
}

// The buffers and what of them is used, not two vectors: a heap would be one more thing that is trusted (three axioms).
fn main(rt: HostRuntime) -> io::Result<()> {
    // [Console.1] one byte more than the limit is enough to know that a script is longer
    let mut script = [0; SCRIPT_LIMIT + 1];
    let len = named(
        &rt,
        "standard input",
        read_all(&mut rt.stdin(), &mut script),
    )?;
    let mut out = script::output_buffer();
    let printed = script::answers(&script[..len], &mut out);
    named(
        &rt,
        "standard output",
        rt.stdout().write_all(&out[..printed]),
    )
}
