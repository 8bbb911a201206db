ghost use Rattle.std.specs.Prelude.{◌≤◌};

use crate::shorts::Short;

pub mod cuts;

// A text that is cut at every mark, piece by piece from the front. `at` is where the next piece begins; past the text's end
// no piece is left.
#[derive(Drop)]
pub struct Pieces<'a> {
    text: Short<'a>,
    mark: u8,
    at: usize,
    ghost near: { at ≤ 16385 },
}
