ghost use Rattle.std.specs.Prelude.{◌≡◌, ℕ, ◌≤◌};
ghost use Rattle.frames.specs.Samples.{silence};
ghost use Rattle.frames.specs.declared.samples.Frame.{Frame};
ghost use Rattle.units.specs.Heard.{heard};
ghost use Rattle.units.specs.Meanings.{ruled_meaning};
ghost use Rattle.voices.proofs.Looks.{Looks};
ghost use Rattle.voices.proofs.Pasts.{rule_lawful};
ghost use Rattle.voices.specs.Meaning.{Meaning};
ghost use Rattle.voices.specs.Rules.{by_rule, by_rule_after, voice_after, voice_by};

use crate::interface::Unit;
use crate::past::Past;
use frames::samples::Frame;

// The settings of a kind that answers by a rule to what it has heard.
pub trait Rule {
    // How late a unit so set can be.
    const MAX_LATENESS: u8;

    ghost MAX_LATENESS: { ℕ };

    ghost late: { Self → ℕ };

    ghost rule: { Self → (ℕ → Frame) → Frame };

    // The unit that the settings make, at rest.
    ghost unit: { Self → Meaning Frame };

    ghost is_unit: { (s : Self) → unit s ≡ by_rule silence (late s) (rule s) };

    ghost within: { (s : Self) → late s ≤ MAX_LATENESS };

    ghost bound: { (s : Self) → late s ≤ 63 };

    ghost silent: { (s : Self) → rule s (λ _. silence) ≡ silence };

    ghost looks: { (s : Self) → Looks 63 (rule s) };

    fn lateness(&self) -> u8
        ensures { result ≡ late self.now };

    fn answer(&self, past: &Past) -> Frame
        ensures { result ≡ rule self.now (heard past.now) };

    // The past of a unit at rest, in which nothing was heard.
    final fn fresh(&self) -> Past
        ensures unit { by_rule_after silence (late self.now) (rule self.now) (heard result) ≡ unit self.now }
        ensures voice { voice_after (rule self.now) (heard result) ≡ voice_by silence (rule self.now) }
    {
        Past::new()
    }
}

// A unit that answers by the rule of its settings.
#[derive(Drop)]
pub struct Ruled<S> {
    settings: S,
    past: Past,
}

impl<S: Rule> Ruled<S> {
    // A unit at rest.
    pub fn new(settings: S) -> Ruled<S>
        ensures { ruled_meaning S.late S.rule result ≡ S.unit settings }
    {
        let past = settings.fresh();
        Ruled { settings, past }
    }
}

impl<S: Rule> Unit for Ruled<S> {
    type Settings = S;

    const MAX_LATENESS: u8 = S::MAX_LATENESS;

    ghost MAX_LATENESS = { S.MAX_LATENESS };

    ghost meaning = { ruled_meaning S.late S.rule };

    ghost lawful = { λ u. rule_lawful silence (S.rule u.settings) (S.late u.settings) (heard u.past) (S.bound u.settings) (S.silent u.settings) };

    ghost within = { λ u. S.within u.settings };

    fn lateness(&self) -> u8 {
        self.settings.lateness()
    }

    fn step(&mut self, f: Frame) -> Frame {
        self.past.push(f);
        self.settings.answer(&self.past)
    }

    fn rest(&mut self) {
        self.past = self.settings.fresh();
    }
}
