ghost use Rattle.std.specs.Prelude.{◌≡◌, ◌-◌, ◌/◌, ◌≤◌, length};
ghost use Rattle.units.specs.Firs.{fir_is, fir_seen};
ghost use Rattle.units.specs.Heard.{heard};
ghost use Rattle.units.specs.Taps.{taps_of, tapped};
ghost use Rattle.voices.proofs.KindLaws.{fir_late, fir_late_bound, fir_silent};
ghost use Rattle.voices.specs.Kinds.{fir_rule, fir_unit};

use crate::past::Past;
use crate::ruled::{Rule, Ruled};
use crate::settings::FirSettings;
use frames::samples::{Frame, clamp, divide, product};

// The exact sums on the two sides.
#[derive(Drop)]
struct Sides {
    left: i64,
    right: i64,
}

// A unit that adds up the newest frames, each times its tap.
pub type Fir = Ruled<FirSettings>;

// The taps that count.
fn taps(settings: &FirSettings) -> &[i16]
    ensures value { result.now ≡ taps_of settings.now }
    ensures few { length result.now ≤ 31 }
{
    &settings.taps[..usize::from(settings.count)]
}

// The sum of the taps, each times its frame.
fn sums(taps: &[i16], past: &Past) -> Sides
    requires { length taps.now ≤ 31 }
    ensures left { result.left ≡ tapped taps.now (λ f. f.left) (heard past.now) (length taps.now) }
    ensures right { result.right ≡ tapped taps.now (λ f. f.right) (heard past.now) (length taps.now) }
{
    let mut left: i64 = 0;
    let mut right: i64 = 0;
    for (k, tap) in taps.iter().enumerate() {
        let f = past.back(k);
        left += product(*tap, f.left);
        right += product(*tap, f.right);
    }
    Sides { left, right }
}

impl Rule for FirSettings {
    const MAX_LATENESS: u8 = 15;

    ghost MAX_LATENESS = { 15 };

    ghost late = { λ s. (s.count - 1) / 2 };

    ghost rule = { λ s. fir_rule (taps_of s) };

    ghost unit = { λ s. fir_unit (taps_of s) };

    ghost is_unit = { fir_is };

    ghost within = { λ s. fir_late s.count s.range.1 };

    ghost bound = { λ s. fir_late_bound s.count s.range.1 };

    ghost silent = { λ s. fir_silent (taps_of s) };

    ghost looks = { fir_seen };

    fn lateness(&self) -> u8 {
        (self.count - 1) / 2
    }

    fn answer(&self, past: &Past) -> Frame {
        let sums = sums(taps(self), past);
        Frame {
            left: clamp(divide(sums.left)),
            right: clamp(divide(sums.right)),
        }
    }
}
