// The forms of the lines of a session text, word by word.
#![tactic(auto)]

mod forms;
mod kinds;
mod roles;

pub use crate::forms::{gain, line, node, numbered, session};
pub use crate::kinds::kind;
pub use crate::roles::Role;
