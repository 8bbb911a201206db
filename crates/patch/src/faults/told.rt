ghost use Rattle.patch.specs.Faults.{patch_refusal};

use crate::faults::PatchFault;
use frames::refusals::{Fault, Layer, Refusal};

impl Fault for PatchFault {
    ghost told = { patch_refusal };

    fn refusal(&self) -> Refusal {
        let (number, first) = match *self {
            PatchFault::NoNode => (19, 0),
            PatchFault::NoUnit(node) => (20, node),
            PatchFault::Unplaced(node) => (21, node),
            PatchFault::NotDeclared(node) => (25, node),
        };
        Refusal::new(number, Layer::Patch, first, 0)
    }
}
