use patch::faults::PatchFault;

pub mod told;

// Why a console does not play.
#[derive(Clone, Copy, PartialEq, Eq, Debug)]
pub enum PlayFault {
    // The tape has not exactly 16,384 frames.
    TapeLength,
    // More than 4,096 frames at once.
    TooManyFrames,
    // The position would pass 1,073,741,824.
    PastTheEnd,
}

// Why a call on the console is refused: by the patch, or at playing.
#[derive(Clone, Copy, PartialEq, Eq, Debug)]
pub enum ConsoleFault {
    Patch(PatchFault),
    Play(PlayFault),
}
