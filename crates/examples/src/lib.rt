// Worked examples of the console's rules, run as tests.
#![tactic(auto)]

#[cfg(test)]
mod bytes;
#[cfg(test)]
mod sums;
