ghost use Rattle.std.specs.Prelude.{◌≡◌, ◌+◌, map, length};
ghost use Rattle.racks.specs.Laws.{pair_lawful};
ghost use Rattle.racks.specs.Rack.{rested};
ghost use Rattle.racks.specs.Sides.{paired, Stands};

use crate::interface::Rack;
use crate::sides::Side;
use frames::samples::Frame;

// Two racks as one: the first's units and then the second's, cut to 16.
#[derive(Drop)]
pub struct Pair<P, Q> {
    pub first: P,
    pub second: Q,
}

impl<P: Rack, Q: Rack> Pair<P, Q> {
    // How many units both racks have.
    fn both(&self) -> u8
        ensures { result ≡ length (P.Rack.units self.now.first) + length (Q.Rack.units self.now.second) }
    {
        self.first.count() + self.second.count()
    }

    // Where unit `s` of the pair stands, if the pair has it.
    fn find(&self, s: u8) -> Option<Side>
        ensures { Stands (P.Rack.units self.now.first) (Q.Rack.units self.now.second) s result }
    {
        let before = self.first.count();
        if s < before {
            Some(Side::First(s))
        } else if s < 16 {
            Some(Side::Second(s - before))
        } else {
            None
        }
    }

    // Every unit of both racks comes to rest.
    fn rest_both(&mut self)
        ensures first { P.Rack.units self.new.first ≡ map rested (P.Rack.units self.old.first) }
        ensures second { Q.Rack.units self.new.second ≡ map rested (Q.Rack.units self.old.second) }
    {
        self.first.rest();
        self.second.rest();
    }
}

impl<P: Rack, Q: Rack> Rack for Pair<P, Q> {
    ghost units = { λ r. paired (P.Rack.units r.first) (Q.Rack.units r.second) };

    ghost lawful = { λ r. pair_lawful (P.Rack.units r.first) (Q.Rack.units r.second) (P.Rack.lawful r.first) (Q.Rack.lawful r.second) };

    fn count(&self) -> u8 {
        self.both().min(16)
    }

    fn lateness(&self, s: u8) -> u8 {
        match self.find(s) {
            Some(Side::First(i)) => self.first.lateness(i),
            Some(Side::Second(i)) => self.second.lateness(i),
            None => 0,
        }
    }

    fn step(&mut self, s: u8, f: Frame) -> Frame {
        match self.find(s) {
            Some(Side::First(i)) => self.first.step(i, f),
            Some(Side::Second(i)) => self.second.step(i, f),
            None => Frame::SILENCE,
        }
    }

    fn rest(&mut self) {
        self.rest_both();
    }
}
