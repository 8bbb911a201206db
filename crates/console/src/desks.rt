ghost use Rattle.std.specs.Prelude.{◌≡◌, ℕ, ◌<◌, ◌≤◌, length, slice_index};
ghost use Rattle.patch.specs.Inputs.{Arranges};
ghost use Rattle.patch.specs.Patches.{delays, ordered_nodes};
ghost use Rattle.patch.specs.Placing.{plan_of};
ghost use Rattle.patch.specs.Props.{arranges_prop};
ghost use Rattle.session.specs.Plan.{line};

use arrayvec::ArrayVec;
use frames::samples::Frame;
use patch::patches::Patch;
use session::nodes::{Line, Node};

pub mod empty;
pub mod making;
pub mod works;

// 1,024 frames behind each of 16 nodes.
pub(crate) type Tape = [Frame; 16384];

// A session's nodes and lines, and the patch with the order of the nodes, how long each line is held and the lines by
// their ends.
#[derive(Drop)]
pub struct Desk {
    pub(crate) nodes: ArrayVec<Node, 16>,
    pub(crate) lines: ArrayVec<Line, 48>,
    pub(crate) patch: Patch,
    ghost few: { (length nodes.items ≤ 16) × (length lines.items ≤ 48) },
    ghost starts: { (i : ℕ) → i < length lines.items → (line (plan_of nodes.items lines.items) i).start < 16 },
    ghost held: { length (delays patch) ≡ length lines.items },
    ghost ordered: { (k : ℕ) → k < length (ordered_nodes patch) → slice_index (ordered_nodes patch) k < length nodes.items },
    ghost arranged: { Arranges lines.items patch.inputs } by { arranges_prop lines.items patch.inputs },
}
