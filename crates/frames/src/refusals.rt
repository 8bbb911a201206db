ghost use Rattle.std.specs.Prelude.{◌≡◌, Some};
ghost use Rattle.frames.specs.Refusals.{layer_name, refused_line};
ghost use Rattle.frames.specs.declared.refusals.Refusal.{Refusal};

use std::fmt;

// The part of the console that refuses.
#[derive(Clone, Copy, PartialEq, Eq, Debug)]
pub enum Layer {
    Text,
    Wave,
    Patch,
    Play,
}

// What is told of every refusal: the number of the check that failed, the layer that made it, and where.
#[derive(Clone, Copy, PartialEq, Eq, Debug)]
pub struct Refusal {
    pub number: u8,
    pub layer: Layer,
    pub first: usize,
    pub second: usize,
}

impl Refusal {
    pub fn new(number: u8, layer: Layer, first: usize, second: usize) -> Refusal
        ensures { result ≡ record { number = number; layer = layer; first = first; second = second } }
    {
        Refusal {
            number,
            layer,
            first,
            second,
        }
    }
}

impl fmt::Display for Layer {
    ghost output = { λ l. Some (layer_name l) };

    fn fmt<W: fmt::Write>(&self, f: &mut fmt::Formatter<W>) -> fmt::Result {
        match self {
            Layer::Text => write!(f, "text"),
            Layer::Wave => write!(f, "wave"),
            Layer::Patch => write!(f, "patch"),
            Layer::Play => write!(f, "play"),
        }
    }
}

impl fmt::Display for Refusal {
    ghost output = { λ r. Some (refused_line r) };

    fn fmt<W: fmt::Write>(&self, f: &mut fmt::Formatter<W>) -> fmt::Result {
        let Refusal {
            number,
            layer,
            first,
            second,
        } = *self;
        write!(f, "refused {number} {layer} {first} {second}")
    }
}

// A layer's own faults: each case has one record.
pub trait Fault {
    ghost told: { Self → Refusal };

    fn refusal(&self) -> Refusal
        ensures { result ≡ told self.now };
}
