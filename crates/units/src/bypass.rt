ghost use Rattle.std.specs.Prelude.{◌≡◌, Bool, true, cond};
ghost use Rattle.frames.specs.Samples.{silence};
ghost use Rattle.units.specs.Heard.{heard};
ghost use Rattle.units.specs.Meanings.{bypass_meaning, Steps, Rests};
ghost use Rattle.voices.proofs.KindLaws.{bypass_lawful, bypass_within};
ghost use Rattle.voices.specs.Kinds.{bypass_over, delay_rule};
ghost use Rattle.voices.specs.Rules.{by_rule_after};

use crate::interface::Unit;
use crate::past::Past;
use crate::settings::BypassSettings;
use frames::samples::Frame;

// A layer that, when on, passes the unit below by and is as late as it.
#[derive(Drop)]
pub struct Bypass<U> {
    unit: U,
    settings: BypassSettings,
    past: Past,
}

impl<U: Unit> Bypass<U> {
    // A past in which nothing was heard: a bypass over any unit is at rest with it, on or off.
    fn fresh() -> Past
        ensures { (on : Bool) (u : U) → cond on (by_rule_after silence (U.Unit.meaning u).late (delay_rule (U.Unit.meaning u).late) (heard result)) (U.Unit.meaning u) ≡ bypass_over on (U.Unit.meaning u) }
    {
        Past::new()
    }

    // A bypass over a unit, which stays as it is.
    pub fn new(unit: U, settings: BypassSettings) -> Bypass<U>
        ensures { bypass_meaning U.Unit.meaning result ≡ bypass_over settings.on (U.Unit.meaning unit) }
    {
        Bypass {
            unit,
            settings,
            past: Self::fresh(),
        }
    }

    // What a bypass answers when on: the frame of `late` frames before, where the unit below is so late.
    fn pass(&mut self, f: Frame, late: u8) -> Frame
        requires on { self.old.settings.on ≡ true }
        requires late { late ≡ (U.Unit.meaning self.old.unit).late }
        ensures { Steps (bypass_meaning U.Unit.meaning self.old) f result (bypass_meaning U.Unit.meaning self.new) }
    {
        self.past.echo(f, late)
    }

    fn forget(&mut self)
        ensures { Rests (bypass_meaning U.Unit.meaning self.old) (bypass_meaning U.Unit.meaning self.new) }
    {
        self.unit.rest();
        self.past = Past::new();
    }
}

impl<U: Unit> Unit for Bypass<U> {
    type Settings = BypassSettings;

    const MAX_LATENESS: u8 = U::MAX_LATENESS;

    ghost MAX_LATENESS = { U.MAX_LATENESS };

    ghost meaning = { bypass_meaning U.Unit.meaning };

    ghost lawful = { λ u. bypass_lawful u.settings.on (heard u.past) (U.Unit.meaning u.unit) (U.Unit.lawful u.unit) };

    ghost within = { λ u. bypass_within u.settings.on (heard u.past) (U.Unit.meaning u.unit) U.MAX_LATENESS (U.Unit.within u.unit) };

    fn lateness(&self) -> u8 {
        self.unit.lateness()
    }

    fn step(&mut self, f: Frame) -> Frame {
        if self.settings.on {
            let late = self.unit.lateness();
            self.pass(f, late)
        } else {
            self.unit.step(f)
        }
    }

    fn rest(&mut self) {
        self.forget();
    }
}
