ghost use Rattle.std.specs.Prelude.{◌≡◌, List, map, length};
ghost use Rattle.frames.specs.declared.samples.Frame.{Frame};
ghost use Rattle.racks.specs.Rack.{answer_of, RackLaws, rested, stepped, unit};
ghost use Rattle.voices.specs.Meaning.{Meaning};

use frames::samples::Frame;

// At most 16 units by number, from 0. None of its calls refuses, and only `step` and `rest` alter anything.
pub trait Rack {
    // What the rack's units mean, in order.
    ghost units: { Self → List (Meaning Frame) };

    ghost lawful: { (r : Self) → RackLaws (units r) };

    fn count(&self) -> u8
        ensures { result ≡ length (units self.now) };

    // How late unit `s` is; 0 where the rack lacks it.
    fn lateness(&self, s: u8) -> u8
        ensures { result ≡ (unit (units self.now) s).late };

    // Unit `s` hears a frame and answers one. Where the rack lacks it the answer is silence and nothing moves.
    fn step(&mut self, s: u8, f: Frame) -> Frame
        ensures value { result ≡ answer_of (units self.old) s f }
        ensures after { units self.new ≡ stepped (units self.old) s f };

    // Every unit comes to rest.
    fn rest(&mut self)
        ensures { units self.new ≡ map rested (units self.old) };
}
