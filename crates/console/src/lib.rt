// The console: start, play, rewind, lateness and feeders.
#![tactic(auto)]

pub mod consoles;
mod desks;
pub mod faults;
