pub mod told;

// Why there is no patch, or no answer about a node.
#[derive(Clone, Copy, PartialEq, Eq, Debug)]
pub enum PatchFault {
    NoNode,
    NoUnit(usize),
    Unplaced(usize),
    NotDeclared(usize),
}
