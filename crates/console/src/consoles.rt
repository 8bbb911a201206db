ghost use Rattle.std.specs.Prelude.{◌≤◌};

use crate::desks::Desk;

pub mod calls;
mod checks;
mod steps;

// A console: what it plays, and its position in frames. One that was not started holds the empty session.
#[derive(Drop)]
pub struct Console {
    desk: Desk,
    position: u32,
    ghost within: { position ≤ 1073741824 },
}
