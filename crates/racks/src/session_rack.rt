ghost use Rattle.std.specs.Prelude.{◌≡◌, ◌+◌, ◌<◌, [], ◌∷◌};
ghost use Rattle.racks.specs.SessionRack.{layered, rack_of};
ghost use Rattle.racks.specs.SessionUnits.{session_units, two_units};
ghost use Rattle.session.specs.Held.{setting};
ghost use Rattle.session.specs.Sessions.{held};

use crate::pair::Pair;
use crate::strips::{Kinded, Strip, strip};
use session::sessions::Session;
use units::delay::Delay;
use units::fir::Fir;
use units::limit::Limit;
use units::pan::Pan;

// Two units of one kind, each under its layers.
pub type Two<U> = Pair<Strip<U>, Strip<U>>;

pub type Firs = Two<Fir>;

pub type Limits = Two<Limit>;

pub type Pans = Two<Pan>;

pub type Delays = Two<Delay>;

// The eight units of a session, by number.
pub type SessionRack = Pair<Pair<Firs, Limits>, Pair<Pans, Delays>>;

// Unit `s` of a session and the next one, both of one kind.
fn two<U: Kinded>(session: &Session, s: usize) -> Two<U>
    requires { s < 7 }
    ensures { two_units U.meaning result ≡ layered (setting (held session.now).settings s) (U.unit_by (setting (held session.now).settings s).kind) ∷ layered (setting (held session.now).settings (s + 1)) (U.unit_by (setting (held session.now).settings (s + 1)).kind) ∷ [] }
{
    Pair {
        first: strip(session.setting(s)),
        second: strip(session.setting(s + 1)),
    }
}

// The rack that a session's settings make, at rest.
pub fn session_rack(session: &Session) -> SessionRack
    ensures { session_units result ≡ rack_of (held session.now).settings }
{
    Pair {
        first: Pair {
            first: two(session, 0),
            second: two(session, 2),
        },
        second: Pair {
            first: two(session, 4),
            second: two(session, 6),
        },
    }
}
