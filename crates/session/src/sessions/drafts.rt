ghost use Rattle.std.specs.Prelude.{◌≡◌, length};
ghost use Rattle.session.specs.Lawful.{LawfulDraft};
ghost use Rattle.session.specs.declared.sessions.drafts.DraftFault.TheVariants.{NoMemory};

use crate::nodes::{Line, Node};
use crate::settings::Setting;
use std::alloc::AllocFailed;

pub mod additions;
pub mod layers;
pub mod queries;

// A session in the making. It keeps the rules of nodes, lines and settings at every moment. Rate 0 says that none is set, as
// the empty session tells it.
#[derive(Drop)]
pub struct Draft {
    pub(super) rate: u32,
    pub(super) nodes: Vec<Node>,
    pub(super) lines: Vec<Line>,
    settings: [Setting; 8],
    ghost eight: { length settings ≡ 8 },
    ghost lawful: { ∥ LawfulDraft (record { rate = rate; plan = record { nodes = nodes.items; lines = lines.items }; settings = settings }) ∥₁ },
}

// Why an addition is not made.
#[derive(Clone, Copy, PartialEq, Eq, Debug)]
pub enum DraftFault {
    Unfit,
    NoMemory,
}

impl<T: Drop> From<AllocFailed<T>> for DraftFault {
    ghost from_gives = { λ _ fault. fault ≡ NoMemory };

    fn from(_: AllocFailed<T>) -> DraftFault {
        DraftFault::NoMemory
    }
}
