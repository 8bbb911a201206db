// What each line of a session text does to a draft.
#![tactic(auto)]

pub mod turns;
