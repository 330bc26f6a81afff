// The main sequencer (document 01, "The tick", Main), and the memory word by which it accepts a pattern.
#![tactic(auto)]

pub mod main_sequencer;
pub mod memory_word;
mod moves;
pub mod states;
