ghost use Rattle.std.specs.Prelude.{◌≡◌};
ghost use Rattle.session.specs.Held.{nothing, setting};
ghost use Rattle.session.specs.Sessions.{held};

use crate::nodes::{Line, Node};
use crate::sessions::Session;
use crate::sessions::drafts::Draft;
use crate::settings::Setting;
use std::alloc::Global;

impl Session {
    // The empty session.
    pub fn empty(heap: Global) -> Session
        ensures { held result ≡ nothing }
    {
        Session {
            draft: Draft::new(heap),
        }
    }

    // Frames a second; 0 for the empty session.
    pub fn rate(&self) -> u32
        ensures { result ≡ (held self.now).rate }
    {
        self.draft.rate
    }

    pub fn nodes(&self) -> &[Node]
        ensures { result.now ≡ (held self.now).plan.nodes }
    {
        self.draft.nodes.as_slice()
    }

    pub fn lines(&self) -> &[Line]
        ensures { result.now ≡ (held self.now).plan.lines }
    {
        self.draft.lines.as_slice()
    }

    // What unit `s` is set to; there are eight.
    pub fn setting(&self, s: usize) -> Setting
        ensures { result ≡ setting (held self.now).settings s }
    {
        self.draft.entry(s)
    }
}
