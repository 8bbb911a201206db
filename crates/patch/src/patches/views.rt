ghost use Rattle.std.specs.Prelude.{◌≡◌, ◌<◌, [], length, if◌then◌else◌, Ok, Err, nat_lt, slice_index};
ghost use Rattle.patch.specs.Inputs.{Arranges, first_into, next_after};
ghost use Rattle.patch.specs.Patches.{delays, feeder_sets, feeders_of, late_of, latenesses, ordered_nodes};
ghost use Rattle.patch.specs.declared.faults.PatchFault.TheVariants.{NotDeclared};

use crate::faults::PatchFault;
use crate::inputs::Inputs;
use crate::inputs::arranging::arrange;
use crate::orders::Order;
use crate::patches::Patch;
use arrayvec::ArrayVec;

// What a list by node has for a node.
fn declared(values: &[u16], v: usize) -> Result<u16, PatchFault>
    ensures { result ≡ (if nat_lt v (length values.now) then Ok (slice_index values.now v) else Err (NotDeclared v)) }
{
    values.get(v).copied().ok_or(PatchFault::NotDeclared(v))
}

impl Patch {
    // The patch without nodes and lines.
    pub fn empty() -> Patch
        ensures order { ordered_nodes result ≡ [] }
        ensures delays { delays result ≡ [] }
        ensures inputs { Arranges [] result.inputs }
    {
        Patch {
            order: Order::empty(),
            late: [0; 16],
            fed: [0; 16],
            held: ArrayVec::new(),
            inputs: arrange(&[]),
        }
    }

    // The nodes, each after those that it hears.
    pub fn order(&self) -> &[u8]
        ensures { result.now ≡ ordered_nodes self.now }
    {
        self.order.nodes()
    }

    // How late each node is.
    // This and the sets of feeders are two public lists of one length; what they share is a slice.
    pub fn latenesses(&self) -> &[u16]
        ensures { result.now ≡ latenesses self.now }
    {
        &self.late[..self.order.len()]
    }

    // The nodes that feed each node, itself included: bit v for node v.
    pub fn feeder_sets(&self) -> &[u16]
        ensures { result.now ≡ feeder_sets self.now }
    {
        &self.fed[..self.order.len()]
    }

    // How many frames each line is held.
    pub fn delays(&self) -> &[u16]
        ensures { result.now ≡ delays self.now }
    {
        self.held.as_slice()
    }

    // The lines by their ends.
    pub fn inputs(&self) -> &Inputs
        ensures { result.now ≡ self.now.inputs }
    {
        &self.inputs
    }

    // The first line into a node.
    pub fn first_into(&self, v: usize) -> Option<u8>
        ensures { result ≡ first_into self.now.inputs v }
    {
        self.inputs.first_into(v)
    }

    // After a line, the next one into the same node.
    pub fn next_after(&self, i: usize) -> Option<u8>
        ensures { result ≡ next_after self.now.inputs i }
    {
        self.inputs.next_after(i)
    }

    // How late a node is.
    pub fn lateness(&self, v: usize) -> Result<u16, PatchFault>
        ensures { result ≡ (if nat_lt v (length (latenesses self.now)) then Ok (late_of self.now v) else Err (NotDeclared v)) }
    {
        declared(self.latenesses(), v)
    }

    // The nodes that feed a node, itself included.
    pub fn feeders(&self, v: usize) -> Result<u16, PatchFault>
        ensures { result ≡ (if nat_lt v (length (feeder_sets self.now)) then Ok (feeders_of self.now v) else Err (NotDeclared v)) }
    {
        declared(self.feeder_sets(), v)
    }
}
