// Sessions: nodes, lines and the settings of the units.
#![tactic(auto)]

pub mod nodes;
pub mod sessions;
pub mod settings;
