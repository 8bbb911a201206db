use faults::MixFault;

// Why there is no mix: it is refused, or something outside fails.
pub enum Stop {
    Refused(MixFault),
    Failed(anyhow::Error),
}

// Two conversions by hand: the kit's derive wants a message for each case, and none is printed.
impl From<MixFault> for Stop {
    fn from(fault: MixFault) -> Stop {
        Stop::Refused(fault)
    }
}

impl From<anyhow::Error> for Stop {
    fn from(e: anyhow::Error) -> Stop {
        Stop::Failed(e)
    }
}
