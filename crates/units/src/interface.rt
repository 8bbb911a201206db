ghost use Rattle.std.specs.Prelude.{◌≡◌, ℕ, ◌≤◌, List, ◌∷◌};
ghost use Rattle.frames.specs.Samples.{silence};
ghost use Rattle.frames.specs.declared.samples.Frame.{Frame};
ghost use Rattle.voices.specs.Meaning.{Meaning, Lawful};

use frames::samples::Frame;

// A processor that hears one frame at a time and answers one. All that is known of it is its meaning: how late it is, its
// voice (what it makes of a list from rest) and its present voice (the same from its state now).
pub trait Unit {
    // The project sets this form: the settings' type and the greatest lateness belong to the trait, and layers pass them on.
    // What this kind is set by.
    type Settings;

    // How late a unit of this kind can be.
    const MAX_LATENESS: u8;

    ghost MAX_LATENESS: { ℕ };

    ghost meaning: { Self → Meaning Frame };

    ghost lawful: { (u : Self) → Lawful silence (meaning u) };

    ghost within: { (u : Self) → (meaning u).late ≤ MAX_LATENESS };

    // The constant, told to callers.
    final fn greatest_lateness() -> u8
        ensures { result ≡ MAX_LATENESS }
    {
        Self::MAX_LATENESS
    }

    fn lateness(&self) -> u8
        ensures { result ≡ (meaning self.now).late };

    // One frame in, one frame out: the old present voice of `f` followed by any list is the answer followed by the new
    // present voice of that list.
    fn step(&mut self, f: Frame) -> Frame
        ensures steps { (x : List Frame) → (meaning self.old).present (f ∷ x) ≡ result ∷ (meaning self.new).present x }
        ensures late { (meaning self.new).late ≡ (meaning self.old).late }
        ensures voice { (meaning self.new).voice ≡ (meaning self.old).voice };

    // The present voice becomes the voice, and nothing else changes.
    fn rest(&mut self)
        ensures present { (meaning self.new).present ≡ (meaning self.old).voice }
        ensures late { (meaning self.new).late ≡ (meaning self.old).late }
        ensures voice { (meaning self.new).voice ≡ (meaning self.old).voice };
}
