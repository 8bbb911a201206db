ghost use Rattle.std.proofs.Common.{zero-le};
ghost use Rattle.std.specs.Prelude.{refl};
ghost use Rattle.voices.proofs.Looks.{delay_looks};
ghost use Rattle.voices.specs.Kinds.{delay_rule, delay_unit};

use crate::past::Past;
use crate::ruled::{Rule, Ruled};
use crate::settings::DelaySettings;
use frames::samples::Frame;

// A unit that answers the frame of some frames before: an echo, not a lateness.
pub type Delay = Ruled<DelaySettings>;

impl Rule for DelaySettings {
    const MAX_LATENESS: u8 = 0;

    ghost MAX_LATENESS = { 0 };

    ghost late = { λ s. 0 };

    ghost rule = { λ s. delay_rule s.frames };

    ghost unit = { λ s. delay_unit s.frames };

    ghost is_unit = { λ s. refl };

    ghost within = { λ s. zero-le };

    ghost bound = { λ s. zero-le };

    ghost silent = { λ s. refl };

    ghost looks = { λ s. delay_looks s.frames s.range };

    fn lateness(&self) -> u8 {
        0
    }

    fn answer(&self, past: &Past) -> Frame {
        past.back(usize::from(self.frames))
    }
}
