// The words of a session text with their places, the numbers that they spell, and why a text is refused.
#![tactic(auto)]

pub mod bytes;
pub mod faults;
mod numbers;
pub mod pieces;
pub mod shorts;
pub mod words;
