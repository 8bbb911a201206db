// The patch of a session: the order of its nodes, how late each is, what feeds it, and how long each line is held.
#![tactic(auto)]

pub mod faults;
mod flows;
pub mod inputs;
pub mod orders;
pub mod patches;
mod sweeps;
pub mod theorems;
mod wirings;
