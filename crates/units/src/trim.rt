ghost use Rattle.std.specs.Prelude.{◌≡◌};
ghost use Rattle.units.specs.Meanings.{trim_meaning};
ghost use Rattle.voices.proofs.KindLaws.{trim_lawful};
ghost use Rattle.voices.specs.Kinds.{trim_over, trimmed};

use crate::interface::Unit;
use crate::settings::TrimSettings;
use frames::samples::{Frame, clamp, scale};

// A layer that scales what the unit below answers, and clamps.
#[derive(Drop)]
pub struct Trim<U> {
    unit: U,
    settings: TrimSettings,
}

fn trim_frame(f: Frame, settings: TrimSettings) -> Frame
    ensures { result ≡ trimmed settings.gain f }
{
    Frame {
        left: clamp(scale(f.left, settings.gain)),
        right: clamp(scale(f.right, settings.gain)),
    }
}

impl<U: Unit> Trim<U> {
    // A trim over a unit, which stays as it is.
    pub fn new(unit: U, settings: TrimSettings) -> Trim<U>
        ensures { trim_meaning U.Unit.meaning result ≡ trim_over settings.gain (U.Unit.meaning unit) }
    {
        Trim { unit, settings }
    }
}

impl<U: Unit> Unit for Trim<U> {
    type Settings = TrimSettings;

    const MAX_LATENESS: u8 = U::MAX_LATENESS;

    ghost MAX_LATENESS = { U.MAX_LATENESS };

    ghost meaning = { trim_meaning U.Unit.meaning };

    ghost lawful = { λ u. trim_lawful u.settings.gain (U.Unit.meaning u.unit) (U.Unit.lawful u.unit) };

    ghost within = { λ u. U.Unit.within u.unit };

    fn lateness(&self) -> u8 {
        self.unit.lateness()
    }

    fn step(&mut self, f: Frame) -> Frame {
        let below = self.unit.step(f);
        trim_frame(below, self.settings)
    }

    fn rest(&mut self) {
        self.unit.rest();
    }
}
