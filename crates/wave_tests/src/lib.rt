// WAVE files, run on examples.
#![tactic(auto)]

#[cfg(test)]
mod reading;
#[cfg(test)]
mod refusing;
