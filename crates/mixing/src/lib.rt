// How long a mix is.
#![tactic(auto)]

pub mod lengths;
