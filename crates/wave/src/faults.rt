ghost use Rattle.wave.specs.Faults.{wave_refusal, write_refusal};

use crate::reader::WaveFault;
use crate::writer::WriteFault;
use frames::refusals::{Fault, Layer, Refusal};

impl Fault for WriteFault {
    ghost told = { write_refusal };

    fn refusal(&self) -> Refusal {
        match self {
            WriteFault::NoNode => Refusal::new(19, Layer::Patch, 0, 0),
            WriteFault::TooLong => Refusal::new(27, Layer::Play, 0, 0),
            WriteFault::BufferLength => Refusal::new(26, Layer::Play, 0, 0),
        }
    }
}

impl Fault for WaveFault {
    ghost told = { wave_refusal };

    fn refusal(&self) -> Refusal {
        match self {
            WaveFault::NoNode => Refusal::new(19, Layer::Patch, 0, 0),
            WaveFault::Outside(track) => Refusal::new(18, Layer::Wave, *track, 0),
            WaveFault::Length(track) => Refusal::new(10, Layer::Wave, *track, 0),
            WaveFault::Head(track, byte) => Refusal::new(11, Layer::Wave, *track, *byte),
        }
    }
}
