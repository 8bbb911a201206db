// Session texts: the reader that builds a session from a text.
#![tactic(auto)]

mod checks;
pub mod reader;
mod stages;
mod turning;
