ghost use Rattle.std.specs.Prelude.{◌≡◌};
ghost use Rattle.console.specs.declared.faults.ConsoleFault.TheVariants.{Patch};
ghost use Rattle.faults.specs.Faults.{mix_refusal};
ghost use Rattle.faults.specs.declared.MixFault.TheVariants.{Console, Text, Wave, Write};

use crate::MixFault;
use console::faults::ConsoleFault;
use frames::refusals::{Fault, Refusal};
use patch::faults::PatchFault;
use wave::reader::WaveFault;
use wave::writer::WriteFault;
use words::faults::ReadFault;

impl Fault for MixFault {
    ghost told = { mix_refusal };

    fn refusal(&self) -> Refusal {
        match self {
            MixFault::Text(fault) => fault.refusal(),
            MixFault::Wave(fault) => fault.refusal(),
            MixFault::Console(fault) => fault.refusal(),
            MixFault::Write(fault) => fault.refusal(),
        }
    }
}

// A conversion is written out, since clauses name what it gives and a derived one does not say it.
impl From<ReadFault> for MixFault {
    ghost from_gives = { λ x y. y ≡ Text x };

    fn from(fault: ReadFault) -> MixFault {
        MixFault::Text(fault)
    }
}

impl From<WaveFault> for MixFault {
    ghost from_gives = { λ x y. y ≡ Wave x };

    fn from(fault: WaveFault) -> MixFault {
        MixFault::Wave(fault)
    }
}

impl From<ConsoleFault> for MixFault {
    ghost from_gives = { λ x y. y ≡ Console x };

    fn from(fault: ConsoleFault) -> MixFault {
        MixFault::Console(fault)
    }
}

impl From<PatchFault> for MixFault {
    ghost from_gives = { λ x y. y ≡ Console (Patch x) };

    fn from(fault: PatchFault) -> MixFault {
        MixFault::Console(fault.into())
    }
}

impl From<WriteFault> for MixFault {
    ghost from_gives = { λ x y. y ≡ Write x };

    fn from(fault: WriteFault) -> MixFault {
        MixFault::Write(fault)
    }
}
