ghost use Rattle.session.specs.Sessions.{held};
ghost use Rattle.wave.specs.Judged.{reel_fault};
ghost use Rattle.wave.specs.Laws.{wave_lawful};
ghost use Rattle.wave.specs.Opened.{Opened};
ghost use Rattle.wave.specs.Reel.{wave_tracks};

use crate::parts::TrackPart;
use crate::reader::{WaveFault, check_reel};
use frames::samples::Frame;
use reels::tracks::Reel;
use session::sessions::Session;

// A reel whose tracks are WAVE files in one buffer.
#[derive(Clone, Copy)]
pub struct WaveReel<'a> {
    bytes: &'a [u8],
    parts: [TrackPart; 8],
}

impl<'a> WaveReel<'a> {
    // The reel of a buffer and its parts, at a session's rate.
    pub fn open(
        session: &Session,
        bytes: &'a [u8],
        parts: [TrackPart; 8],
    ) -> Result<WaveReel<'a>, WaveFault>
        ensures { Opened (reel_fault (held session.now) bytes.now parts) bytes.now parts result }
    {
        check_reel(session, bytes, &parts)?;
        Ok(WaveReel { bytes, parts })
    }
}

impl<'a> Reel for WaveReel<'a> {
    ghost tracks = { λ r. wave_tracks r.bytes.now r.parts };

    ghost lawful = { λ r. wave_lawful r.bytes.now r.parts };

    fn length(&self, track: u8) -> u32 {
        self.parts
            .get(usize::from(track))
            .map_or(0, |part| part.frames(self.bytes))
    }

    fn frame(&self, track: u8, n: u32) -> Frame {
        self.parts
            .get(usize::from(track))
            .map_or(Frame::SILENCE, |part| part.frame(self.bytes, n))
    }
}
