ghost use Rattle.std.specs.Prelude.{◌≡◌, []};
ghost use Rattle.console.specs.Desks.{desk_plan};
ghost use Rattle.patch.specs.Patches.{ordered_nodes};

use crate::desks::Desk;
use arrayvec::ArrayVec;
use patch::patches::Patch;

impl Desk {
    // A desk without nodes and lines.
    pub(crate) fn empty() -> Desk
        ensures nodes { (desk_plan result).nodes ≡ [] }
        ensures lines { (desk_plan result).lines ≡ [] }
        ensures order { ordered_nodes result.patch ≡ [] }
    {
        Desk {
            nodes: ArrayVec::new(),
            lines: ArrayVec::new(),
            patch: Patch::empty(),
        }
    }
}
