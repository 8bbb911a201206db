ghost use Rattle.std.specs.Prelude.{◌≡◌, ◌≤◌, length, if◌then◌else◌, Some, None, nat_le};
ghost use Rattle.frames.specs.Buses.{bus, left_of, right_of};
ghost use Rattle.frames.specs.Samples.{total};

use crate::samples::{Frame, Part};
use crate::sums::Sum;

// What some lines bring, added on each side.
fn added(parts: &[Part]) -> Sum
    requires { length parts.now ≤ 48 }
    ensures left { result.left ≡ total left_of parts.now }
    ensures right { result.right ≡ total right_of parts.now }
{
    let mut sum = Sum::new();
    for part in parts {
        // There are at most 48, so none is refused.
        let _ = sum.add(*part);
    }
    sum
}

// What a bus makes of its lines' frames, or None where there are more than 48.
pub fn mix(parts: &[Part]) -> Option<Frame>
    ensures { result ≡ (if nat_le (length parts.now) 48 then Some (bus parts.now) else None) }
{
    if parts.len() > 48 {
        return None;
    }
    Some(added(parts).frame())
}
