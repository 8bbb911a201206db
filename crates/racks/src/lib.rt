// Racks: units by number.
#![tactic(auto)]

pub mod interface;
pub mod latest;
pub mod pair;
pub mod session_rack;
mod sides;
pub mod single;
pub mod strips;
