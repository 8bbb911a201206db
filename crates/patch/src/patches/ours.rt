ghost use Rattle.std.specs.Prelude.{◌≡◌, Some, MatchResult};
ghost use Rattle.patch.specs.Due.{due};
ghost use Rattle.patch.specs.Ours.{OurPatch};
ghost use Rattle.session.specs.Sessions.{held};

use crate::faults::PatchFault;
use crate::patches::Patch;
use crate::patches::made::{order_of, patch_along};
use crate::wirings::Wiring;
use racks::interface::Rack;
use session::sessions::Session;

// Our patch of a session and a rack, or the first refusal that is due.
pub fn our_patch<R: Rack>(session: &Session, rack: &R) -> Result<Patch, PatchFault>
    ensures { MatchResult result (λ patch. OurPatch (held session.now).plan (R.Rack.units rack.now) patch) (λ fault. due (held session.now).plan (R.Rack.units rack.now) ≡ Some fault) }
{
    let wiring = Wiring::of(session).ok_or(PatchFault::NoNode)?;
    let order = order_of(&wiring, rack.count())?;
    Ok(patch_along(wiring, rack, order))
}
