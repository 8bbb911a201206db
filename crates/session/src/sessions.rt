ghost use Rattle.session.specs.Drafts.{drafted};
ghost use Rattle.session.specs.Held.{LawfulSession};

use crate::sessions::drafts::Draft;

pub mod drafts;
pub mod views;

// A rate, nodes, lines in order, and the settings of units 0 to 7. Every session keeps the rules or is the empty one.
#[derive(Drop)]
pub struct Session {
    draft: Draft,
    ghost lawful: { ∥ LawfulSession (drafted draft) ∥₁ },
}
