// Listings: numbers and frames in upper-case hexadecimal digits.
#![tactic(auto)]

pub mod hex;
