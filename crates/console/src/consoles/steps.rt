ghost use Rattle.std.specs.Prelude.{◌≡◌, ◌+◌, ◌≤◌, map, length, Ok, MatchResult};
ghost use Rattle.console.specs.Answers.{by_answer, play_answer, rewind_answer, start_answer};
ghost use Rattle.console.specs.Points.{console_patch, console_plan};
ghost use Rattle.patch.specs.Ours.{OurPatch};
ghost use Rattle.patch.specs.Patches.{delay_of, ordered_nodes};
ghost use Rattle.playing.specs.Promise.{lateness_answer};
ghost use Rattle.playing.specs.Tape.{silent_tape};
ghost use Rattle.playing.specs.Work.{after_frames, deck, frames_out};
ghost use Rattle.racks.specs.Rack.{rested};
ghost use Rattle.session.specs.Sessions.{held};

use crate::consoles::Console;
use crate::desks::{Desk, Tape};
use crate::faults::{ConsoleFault, PlayFault};
use frames::samples::Frame;
use patch::faults::PatchFault;
use racks::interface::Rack;
use reels::tracks::Reel;
use session::sessions::Session;

// The rack rests, and the tape is silent.
fn lay<R: Rack>(rack: &mut R, tape: &mut Tape)
    ensures rack { R.units rack.new ≡ map rested (R.units rack.old) }
    ensures tape { tape.new ≡ silent_tape }
{
    rack.rest();
    tape.fill(Frame::SILENCE);
}

impl Console {
    // Places the nodes, makes our patch, and goes to the beginning.
    pub(crate) fn begin<R: Rack>(
        &mut self,
        session: &Session,
        rack: &mut R,
        tape: &mut [Frame],
    ) -> Result<(), ConsoleFault>
        ensures answer { result ≡ start_answer (held session.now).plan (R.units rack.old) tape.old }
        ensures console { MatchResult result (λ _. (console_plan self.new ≡ (held session.now).plan) × OurPatch (held session.now).plan (R.units rack.old) (console_patch self.new) × (self.new.position ≡ 0)) (λ _. self.new ≡ self.old) }
        ensures rack { R.units rack.new ≡ by_answer result (map rested (R.units rack.old)) (R.units rack.old) }
        ensures tape { tape.new ≡ by_answer result silent_tape tape.old }
    {
        let desk = Desk::new(session, rack)?;
        let tape = tape.as_mut_array().ok_or(PlayFault::TapeLength)?;
        lay(rack, tape);
        *self = Console { desk, position: 0 };
        Ok(())
    }

    // Plays the next frames.
    pub(crate) fn go_on<R: Rack, L: Reel>(
        &mut self,
        rack: &mut R,
        reel: &L,
        tape: &mut [Frame],
        out: &mut [Frame],
    ) -> Result<(), ConsoleFault>
        ensures answer { result ≡ play_answer self.old tape.old (length out.old) }
        ensures desk { self.new.desk ≡ self.old.desk }
        ensures position { self.new.position ≡ self.old.position + by_answer result (length out.old) 0 }
        ensures deck { deck (R.units rack.new) tape.new ≡ by_answer result (after_frames (console_plan self.old) (ordered_nodes (console_patch self.old)) (delay_of (console_patch self.old)) (L.tracks reel.now) (length out.old) self.old.position (deck (R.units rack.old) tape.old)) (deck (R.units rack.old) tape.old) }
        ensures out { out.new ≡ by_answer result (frames_out (console_plan self.old) (ordered_nodes (console_patch self.old)) (delay_of (console_patch self.old)) (L.tracks reel.now) (length out.old) self.old.position (deck (R.units rack.old) tape.old)) out.old }
    {
        self.check_play(tape, out.len())?;
        let tape = tape.as_mut_array().unwrap();
        self.desk.fill(rack, reel, tape, out, self.position);
        self.position += out.len() as u32;
        Ok(())
    }

    // Goes back to the beginning.
    pub(crate) fn go_back<R: Rack>(
        &mut self,
        rack: &mut R,
        tape: &mut [Frame],
    ) -> Result<(), ConsoleFault>
        ensures answer { result ≡ rewind_answer self.old tape.old }
        ensures desk { self.new.desk ≡ self.old.desk }
        ensures position { self.new.position ≡ by_answer result 0 self.old.position }
        ensures rack { R.units rack.new ≡ by_answer result (map rested (R.units rack.old)) (R.units rack.old) }
        ensures tape { tape.new ≡ by_answer result silent_tape tape.old }
    {
        self.check_rewind(tape)?;
        let tape = tape.as_mut_array().unwrap();
        lay(rack, tape);
        self.position = 0;
        Ok(())
    }

    // How late a node is.
    pub(crate) fn late(&self, v: usize) -> Result<u16, PatchFault>
        ensures { result ≡ lateness_answer (console_patch self.now) v }
    {
        self.desk.patch.lateness(v)
    }
}
