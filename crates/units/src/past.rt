ghost use Rattle.std.specs.Prelude.{◌≡◌, ℕ, ◌<◌, ◌≤◌, List, ◌∷◌};
ghost use Rattle.frames.specs.Samples.{silence};
ghost use Rattle.frames.specs.declared.samples.Frame.{Frame};
ghost use Rattle.units.specs.Heard.{heard};
ghost use Rattle.voices.specs.Kinds.{delay_rule};
ghost use Rattle.voices.specs.Rules.{then_heard, voice_after};

use frames::samples::Frame;

// The newest 64 frames that a unit has heard, the newest at the place `at` and each older one a place further round.
// It is a ring of its own, since the kit's ring lies on the heap, and no unit allocates.
#[derive(Drop)]
pub struct Past {
    frames: [Frame; 64],
    // That `at` is below 64 is no fact of the type: it would make the definition of what was heard and the type cite one another.
    at: u8,
}

impl Past {
    // Nothing has been heard.
    pub(crate) fn new() -> Past
        ensures { heard result ≡ (λ _. silence) }
    {
        Past {
            frames: [Frame::SILENCE; 64],
            at: 0,
        }
    }

    pub(crate) fn push(&mut self, f: Frame)
        ensures { (k : ℕ) → k < 64 → heard self.new k ≡ then_heard (heard self.old) f k }
    {
        self.at = (self.at % 64 + 63) % 64;
        self.frames[usize::from(self.at)] = f;
    }

    // The frame of k frames before the newest.
    pub(crate) fn back(&self, k: usize) -> Frame
        requires { k < 64 }
        ensures { result ≡ heard self.now k }
    {
        self.frames[(usize::from(self.at) + k) % 64]
    }

    // One more frame is heard, and the frame of k frames before it answered.
    pub(crate) fn echo(&mut self, f: Frame, k: u8) -> Frame
        requires { k ≤ 63 }
        ensures { (x : List Frame) → voice_after (delay_rule k) (heard self.old) (f ∷ x) ≡ result ∷ voice_after (delay_rule k) (heard self.new) x }
    {
        self.push(f);
        self.back(usize::from(k))
    }
}
