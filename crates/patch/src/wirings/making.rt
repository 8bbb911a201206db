ghost use Rattle.std.specs.Prelude.{◌≡◌, length, MatchOption};
ghost use Rattle.patch.specs.Wirings.{wired};
ghost use Rattle.session.specs.Sessions.{held};

use crate::inputs::arranging::arrange;
use crate::wirings::Wiring;
use session::sessions::Session;

impl<'a> Wiring<'a> {
    // A session's nodes and lines, if it has a node.
    pub(crate) fn of(session: &'a Session) -> Option<Wiring<'a>>
        ensures { MatchOption result (length (held session.now).plan.nodes ≡ 0) (λ wiring. wired wiring ≡ (held session.now).plan) }
    {
        let nodes = session.nodes();
        let lines = session.lines();
        if nodes.is_empty() {
            return None;
        }
        let inputs = arrange(lines);
        Some(Wiring {
            nodes,
            lines,
            inputs,
        })
    }
}
