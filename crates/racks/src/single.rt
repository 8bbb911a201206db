ghost use Rattle.std.specs.Prelude.{[], ◌∷◌};
ghost use Rattle.racks.specs.Laws.{single_lawful};

use crate::interface::Rack;
use frames::samples::Frame;
use units::interface::Unit;

// One unit as a rack: its number is 0.
#[derive(Drop)]
pub struct Single<U> {
    pub unit: U,
}

impl<U: Unit> Rack for Single<U> {
    ghost units = { λ r. U.Unit.meaning r.unit ∷ [] };

    ghost lawful = { λ r. single_lawful (U.Unit.meaning r.unit) (U.Unit.lawful r.unit) };

    fn count(&self) -> u8 {
        1
    }

    fn lateness(&self, s: u8) -> u8 {
        if s == 0 { self.unit.lateness() } else { 0 }
    }

    fn step(&mut self, s: u8, f: Frame) -> Frame {
        if s == 0 {
            self.unit.step(f)
        } else {
            Frame::SILENCE
        }
    }

    fn rest(&mut self) {
        self.unit.rest();
    }
}
