ghost use Rattle.std.specs.Prelude.{◌≡◌, ℕ, ◌<◌, Some, None, slice_index_or};

pub mod arranging;
pub mod views;
pub mod walking;

// Lines by their ends: each node's first line in, and after each line the next one into the same node, a later one.
// They are links by index: `next_after` is asked of a line alone, and what a patch promises of them is said of links.
#[derive(Drop)]
pub struct Inputs {
    pub(crate) first: [Option<u8>; 16],
    pub(crate) next: [Option<u8>; 48],
    ghost rises: { (i j : ℕ) → slice_index_or next i None ≡ Some j → (i < j) × (j < 48) },
}
