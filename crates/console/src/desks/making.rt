ghost use Rattle.std.specs.Prelude.{◌≡◌, Some, MatchResult};
ghost use Rattle.console.specs.Desks.{desk_plan};
ghost use Rattle.patch.specs.Due.{due};
ghost use Rattle.patch.specs.Ours.{OurPatch};
ghost use Rattle.session.specs.Sessions.{held};

use crate::desks::Desk;
use arrayvec::ArrayVec;
use patch::faults::PatchFault;
use patch::patches::Patch;
use patch::patches::ours::our_patch;
use racks::interface::Rack;
use session::sessions::Session;

impl Desk {
    // A session's nodes and lines under our patch.
    fn under<R: Rack>(session: &Session, rack: &R, patch: Patch) -> Desk
        requires { OurPatch (held session.now).plan (R.Rack.units rack.now) patch }
        ensures plan { desk_plan result ≡ (held session.now).plan }
        ensures patch { result.patch ≡ patch }
    {
        Desk {
            nodes: ArrayVec::try_from(session.nodes()).unwrap(),
            lines: ArrayVec::try_from(session.lines()).unwrap(),
            patch,
        }
    }

    // A session's desk with our patch of it and the rack, or the first refusal that is due.
    pub(crate) fn new<R: Rack>(session: &Session, rack: &R) -> Result<Desk, PatchFault>
        ensures { MatchResult result (λ desk. (desk_plan desk ≡ (held session.now).plan) × OurPatch (held session.now).plan (R.Rack.units rack.now) desk.patch) (λ fault. due (held session.now).plan (R.Rack.units rack.now) ≡ Some fault) }
    {
        let patch = our_patch(session, rack)?;
        Ok(Desk::under(session, rack, patch))
    }
}
