ghost use Rattle.std.specs.Prelude.{◌≡◌, ◌≤◌};
ghost use Rattle.session.specs.Drafts.{draft as contents_of};
ghost use Rattle.forms.specs.Forms.{role_fits, role_most};

use session::sessions::drafts::Draft;

// What a number names: a unit that is new, is set, or is set and free; the next node, a declared one, or a bus. The
// definitions of the format name these roles, which a closure for the test would not.
#[derive(Clone, Copy)]
pub enum Role {
    NewUnit,
    SetUnit,
    FreeUnit,
    NextNode,
    AnyNode,
    BusNode,
}

impl Role {
    // The greatest number in the role.
    pub(crate) fn most(self) -> u32
        ensures value { result ≡ role_most self }
        ensures bound { result ≤ 15 }
    {
        match self {
            Role::NewUnit | Role::SetUnit | Role::FreeUnit => 7,
            Role::NextNode | Role::AnyNode | Role::BusNode => 15,
        }
    }

    // Whether a number fits what the draft holds.
    pub(crate) fn fits(self, draft: &Draft, n: u8) -> bool
        ensures { result ≡ role_fits (contents_of draft.now) self n }
    {
        match self {
            Role::NewUnit => !draft.is_set(n),
            Role::SetUnit => draft.is_set(n),
            Role::FreeUnit => draft.is_set(n) && !draft.is_used(n),
            Role::NextNode => usize::from(n) == draft.node_count(),
            Role::AnyNode => usize::from(n) < draft.node_count(),
            Role::BusNode => draft.is_bus(n),
        }
    }
}
