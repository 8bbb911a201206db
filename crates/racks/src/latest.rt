ghost use Rattle.std.specs.Prelude.{◌≡◌};
ghost use Rattle.voices.specs.Kinds.{greatest};

use crate::interface::Rack;

// How late the latest of a rack's units is; 0 without units.
pub fn latest_unit<R: Rack>(rack: &R) -> u8
    ensures { result ≡ greatest (λ m. m.late) (R.units rack.now) }
{
    (0..rack.count())
        .map(|s| rack.lateness(s))
        .max()
        .unwrap_or(0)
}
