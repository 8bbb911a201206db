use crate::output::{Summary, list, save};
use crate::stops::Stop;
use console::consoles::Console;
use faults::MixFault;
use frames::samples::Frame;
use mixing::lengths::mix_length;
use racks::interface::Rack;
use racks::session_rack::session_rack;
use reels::tracks::Reel;
use session::sessions::Session;
use units::interface::Unit;
use wave::writer::{write_file, write_head};

// A console with the rack, the reel and the tape that a mix takes.
#[derive(Drop)]
struct Desk<'a, R, L> {
    console: Console,
    rack: R,
    reel: &'a L,
    tape: Vec<Frame>,
}

impl<'a, R: Rack, L: Reel> Desk<'a, R, L> {
    // Starts the console; tells how late, how long and from which nodes the mix is. A mix too long to write is refused here.
    fn begin(&mut self, session: &Session) -> Result<Summary, MixFault> {
        self.console.start(session, &mut self.rack, &mut self.tape)?;
        let late = self.console.lateness(0)?;
        let feeders = self.console.feeders(0)?;
        let frames = mix_length(session, self.reel, late);
        write_head(session, frames, &mut [0; 44])?;
        Ok(Summary {
            late,
            frames,
            feeders,
        })
    }

    // Fills a buffer of any length, at most 4,096 frames at a time.
    // Progress is a flag: a closure would be one more type parameter of four functions.
    fn play_all(
        &mut self,
        rt: &HostRuntime,
        out: &mut [Frame],
        progress: bool,
    ) -> Result<(), Stop> {
        let total = out.len();
        let mut played = 0usize;
        for frames in out.chunks_mut(4096) {
            self.console
                .play(&mut self.rack, self.reel, &mut self.tape, frames)
                .map_err(MixFault::Console)?;
            played = played.saturating_add(frames.len());
            if progress {
                show(rt, played, total)?;
            }
        }
        Ok(())
    }
}

fn show(rt: &HostRuntime, played: usize, total: usize) -> anyhow::Result<()> {
    eprintln!(rt; "{played} of {total} frames")?;
    Ok(())
}

fn filled<T: Copy + Drop>(rt: &HostRuntime, value: T, count: usize) -> anyhow::Result<Vec<T>> {
    Ok(vec![in rt.alloc(); value; count]?)
}

fn mix_with<R: Rack + Drop, L: Reel>(
    rt: &HostRuntime,
    session: &Session,
    rack: R,
    reel: &L,
    progress: bool,
) -> Result<(), Stop> {
    let mut desk = Desk {
        console: Console::new(),
        rack,
        reel,
        tape: filled(rt, Frame::SILENCE, 16384)?,
    };
    let summary = desk.begin(session)?;
    let mut frames = filled(rt, Frame::SILENCE, summary.frames as usize)?;
    desk.play_all(rt, &mut frames, progress)?;
    let mut bytes = filled(rt, 0u8, 44 + 4 * frames.len())?;
    write_file(session, &frames, &mut bytes).map_err(MixFault::Write)?;
    save(rt, &bytes)?;
    list(rt, summary, &frames)?;
    Ok(())
}

// Mixes a session over its own rack, writes the mix and lists it.
pub(crate) fn mix<L: Reel>(
    rt: &HostRuntime,
    session: &Session,
    reel: &L,
    progress: bool,
) -> Result<(), Stop> {
    mix_with(rt, session, session_rack(session), reel, progress)
}
