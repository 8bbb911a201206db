// Reels: the tracks that a session plays, each with a length and its frames.
#![tactic(auto)]

pub mod clicks;
pub mod tracks;
pub mod unity;
