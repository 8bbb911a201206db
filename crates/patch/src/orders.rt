ghost use Rattle.std.specs.Prelude.{◌≡◌, ℕ, ◌≤◌, false, length, slice_index_or};
ghost use Rattle.patch.specs.Placing.{stands};

use arrayvec::ArrayVec;

pub mod views;

// Nodes in the order in which they were placed, at most 16, and which of them are placed, so that one is found by a look.
#[derive(Drop)]
pub struct Order {
    nodes: ArrayVec<u8, 16>,
    placed: [bool; 16],
    ghost few: { length nodes.items ≤ 16 },
    ghost sixteen: { length placed ≡ 16 },
    ghost agrees: { (v : ℕ) → slice_index_or placed v false ≡ stands nodes.items v },
}
