// What a tick brings, the latch of its pulses, the blind time after a rejected pattern, what is kept of the latest tick,
// and what the moves of main and of the user sync change besides themselves (document 01, "The tick"; document 02, N1, N2).
#![tactic(auto)]

pub mod blind;
pub mod effects;
pub mod latch;
pub mod latest;
pub mod lines;
