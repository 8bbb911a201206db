ghost use Rattle.std.specs.Prelude.{◌≡◌, ◌≤◌, length};

use crate::inputs::Inputs;
use crate::orders::Order;
use arrayvec::ArrayVec;

mod made;
pub mod ours;
pub mod views;

// The patch of a session: at most 16 nodes and 48 lines.
// `late` and `fed` are by node and filled in the order of placing, so they are arrays; as many count as the order has nodes.
#[derive(Drop)]
pub struct Patch {
    order: Order,
    late: [u16; 16],
    fed: [u16; 16],
    held: ArrayVec<u16, 48>,
    inputs: Inputs,
    ghost few: { length held.items ≤ 48 },
    ghost full: { (length late ≡ 16) × (length fed ≡ 16) },
}
