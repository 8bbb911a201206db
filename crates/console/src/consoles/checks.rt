ghost use Rattle.std.specs.Prelude.{◌≡◌};
ghost use Rattle.console.specs.Answers.{play_answer, rewind_answer};

use crate::consoles::Console;
use crate::faults::{ConsoleFault, PlayFault};
use frames::samples::Frame;
use patch::faults::PatchFault;

impl Console {
    // May the console go on with this tape?
    pub(crate) fn check_rewind(&self, tape: &[Frame]) -> Result<(), ConsoleFault>
        ensures { result ≡ rewind_answer self.now tape.now }
    {
        if self.desk.node_count() == 0 {
            return Err(PatchFault::NoNode.into());
        }
        if tape.len() != 16384 {
            return Err(PlayFault::TapeLength.into());
        }
        Ok(())
    }

    // May it play so many frames?
    pub(crate) fn check_play(&self, tape: &[Frame], frames: usize) -> Result<(), ConsoleFault>
        ensures { result ≡ play_answer self.now tape.now frames }
    {
        self.check_rewind(tape)?;
        if frames > 4096 {
            return Err(PlayFault::TooManyFrames.into());
        }
        if self.position as usize + frames > 1073741824 {
            return Err(PlayFault::PastTheEnd.into());
        }
        Ok(())
    }
}
