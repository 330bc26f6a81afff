// Syncs (document 01, "The tick"): the count of the scheduled sync, and the user sync with its tag and its wait.
#![tactic(auto)]

pub mod counter;
pub mod user;
