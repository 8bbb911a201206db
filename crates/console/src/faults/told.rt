ghost use Rattle.std.specs.Prelude.{◌≡◌};
ghost use Rattle.console.specs.Faults.{console_refusal, play_refusal};
ghost use Rattle.console.specs.declared.faults.ConsoleFault.TheVariants.{Patch, Play};

use crate::faults::{ConsoleFault, PlayFault};
use frames::refusals::{Fault, Layer, Refusal};
use patch::faults::PatchFault;

impl Fault for PlayFault {
    ghost told = { play_refusal };

    fn refusal(&self) -> Refusal {
        let number = match *self {
            PlayFault::TapeLength => 22,
            PlayFault::TooManyFrames => 23,
            PlayFault::PastTheEnd => 24,
        };
        Refusal::new(number, Layer::Play, 0, 0)
    }
}

impl Fault for ConsoleFault {
    ghost told = { console_refusal };

    fn refusal(&self) -> Refusal {
        match self {
            ConsoleFault::Patch(fault) => fault.refusal(),
            ConsoleFault::Play(fault) => fault.refusal(),
        }
    }
}

// A conversion is written out, since clauses name what it gives and a derived one does not say it.
impl From<PatchFault> for ConsoleFault {
    ghost from_gives = { λ x y. y ≡ Patch x };

    fn from(fault: PatchFault) -> ConsoleFault {
        ConsoleFault::Patch(fault)
    }
}

impl From<PlayFault> for ConsoleFault {
    ghost from_gives = { λ x y. y ≡ Play x };

    fn from(fault: PlayFault) -> ConsoleFault {
        ConsoleFault::Play(fault)
    }
}
