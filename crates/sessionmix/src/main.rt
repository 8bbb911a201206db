// Mixes a session: its text comes on standard input, its tracks from track0.wav to track7.wav in the working folder, or
// from the click reel where none of them is there. The mix goes to mix.wav, and its frames are listed.
#![tactic(auto)]

mod output;
mod rendering;
mod stops;
mod tracks;

use crate::rendering::mix;
use crate::stops::Stop;
use crate::tracks::{TrackFiles, read_tracks};
use anyhow::anyhow;
use faults::MixFault;
use frames::refusals::Fault;
use reels::clicks::Clicks;
use session::sessions::Session;
use std::env;
use std::io::Read;
use text::reader::read;
use wave::reel::WaveReel;
use words::faults::ReadFault;

fn read_session(rt: &HostRuntime, session: &mut Session) -> Result<(), Stop> {
    let mut text = Vec::new(rt.alloc());
    rt.stdin()
        .read_to_end(&mut text)
        .map_err(anyhow::Error::from)?;
    read(&text, session, rt.alloc()).map_err(|fault| match fault {
        ReadFault::NoMemory => Stop::Failed(anyhow!("no memory for the session")),
        fault => Stop::Refused(fault.into()),
    })
}

fn run(rt: &HostRuntime, progress: bool) -> Result<(), Stop> {
    let mut session = Session::empty(rt.alloc());
    read_session(rt, &mut session)?;
    match read_tracks(rt)? {
        Some(files) => {
            let reel = WaveReel::open(&session, files.bytes(), files.parts()).map_err(
                MixFault::Wave,
            )?;
            mix(rt, &session, &reel, progress)
        }
        None => mix(rt, &session, &Clicks, progress),
    }
}

// Whether progress is asked for.
fn asked(rt: &HostRuntime) -> anyhow::Result<bool> {
    match env::args(rt)?.nth(1) {
        None => Ok(false),
        Some(arg) if arg.as_str() == "--progress" => Ok(true),
        Some(_) => Err(anyhow!("the only argument is --progress")),
    }
}

fn told(rt: &HostRuntime) -> anyhow::Result<()> {
    let progress = asked(rt)?;
    match run(rt, progress) {
        Ok(()) => Ok(()),
        Err(Stop::Failed(e)) => Err(e),
        Err(Stop::Refused(fault)) => {
            let refusal = fault.refusal();
            println!(rt; "{refusal}")?;
            Ok(())
        }
    }
}

fn main(rt: HostRuntime) -> anyhow::Result<()> {
    told(&rt)
}
