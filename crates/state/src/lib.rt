// The STATE register, made of its four bytes (document 02, N2). The definitions are in specs/State.antt, where each bit has
// its name.
#![tactic(auto, using(crate::proofs::StateLaws::state_of_bytes), unfolding(bits::specs::Bits::mask_of, bits::specs::Bits::tabulate, branches::specs::Handshakes::strobes_of, branches::specs::Handshakes::ands_of, branches::specs::Handshakes::ors_of, crate::specs::State::state_bits_of, crate::specs::State::state_byte_of))]

ghost use Rattle.std.specs.Prelude.{◌≡◌, ◌<◌};
ghost use Rattle.state.specs.State.{state_of, state_byte_of};

use supervisor::Supervisor;

// [State.2] [State.6] [State.7] bits 0–7: the trigger levels
fn levels(s: Supervisor) -> u8
    ensures { result ≡ state_byte_of 0 s }
{
    let core = s.core;
    let main = core.main;
    let raised = main.raised as u32;
    let lines = core.latest.lines;
    let ok = bits::bit_at(raised, 0);
    let start2 = bits::bit_at(raised, 1);
    let accept2 = bits::bit_at(raised, 2);
    let start3 = bits::bit_at(raised, 3);
    bits::mask8([
        ok,
        start2,
        lines.has_pass2(),
        lines.has_fail2(),
        accept2,
        start3,
        lines.has_pass3(),
        lines.has_fail3(),
    ])
}

// [State.3] [State.4a] [State.4b] [State.7] bits 8–15: from LEVEL 3 ACCEPT to READY
fn cycle(s: Supervisor) -> u8
    ensures { result ≡ state_byte_of 1 s }
{
    let core = s.core;
    let main = core.main;
    let state = main.state;
    let lines = core.latest.lines;
    let accept3 = bits::bit_at(main.raised as u32, 4);
    let ready = core.is_ready(lines);
    bits::mask8([
        accept3,
        main.is_clearing(),
        lines.has_front_busy(),
        lines.has_inhibit(),
        core.latest.latched,
        !ready,
        !state.is_idle(),
        ready,
    ])
}

// [State.5] [State.7] bits 16–23: from ACTIVE to the strobe of branch 2
fn buffers(s: Supervisor) -> u8
    ensures { result ≡ state_byte_of 2 s }
{
    let core = s.core;
    let csr = core.csr;
    let main = core.main;
    let state = main.state;
    let readout = s.readout;
    let holds = state.is_sync_hold() | core.user.waiting;
    let room = readout.has_room(csr.locks_roc(), csr.locks_branch4());
    let strobes = readout.strobes();
    let ands = readout.ands();
    let ors = readout.ors();
    bits::mask8([
        s.is_active(),
        holds,
        readout.is_empty(),
        !room,
        strobes[0],
        ands[0],
        ors[0],
        strobes[1],
    ])
}

// [State.7] bits 24–31: the other branches
fn handshakes(s: Supervisor) -> u8
    ensures { result ≡ state_byte_of 3 s }
{
    let readout = s.readout;
    let strobes = readout.strobes();
    let ands = readout.ands();
    let ors = readout.ors();
    bits::mask8([
        ands[1], ors[1], strobes[2], ands[2], ors[2], strobes[3], ands[3], ors[3],
    ])
}

// [State.2]
pub fn state(s: Supervisor) -> u32
    ensures { result ≡ state_of s }
{
    u32::from_le_bytes([levels(s), cycle(s), buffers(s), handshakes(s)])
}
