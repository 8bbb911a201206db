// Frames of two 16-bit samples, gains, and the sums that a bus makes; and the record of a refusal.
#![tactic(auto)]

pub mod buses;
pub mod refusals;
pub mod samples;
pub mod sums;
