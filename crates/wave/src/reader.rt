ghost use Rattle.std.specs.Prelude.{◌≡◌, ◌≤◌, length};
ghost use Rattle.session.specs.Sessions.{held};
ghost use Rattle.wave.specs.Due.{answered};
ghost use Rattle.wave.specs.Judged.{first_other, part_fault, parts_fault, reel_fault};

use crate::parts::TrackPart;
use crate::writer::head;
use session::sessions::Session;

// Why a buffer and its parts are not taken for a reel. A track is named by its number.
#[derive(Clone, Copy, PartialEq, Eq, Debug)]
pub enum WaveFault {
    // The session has no node.
    NoNode,
    // The track's part does not lie in the buffer.
    Outside(usize),
    // No file is as long as the track's part.
    Length(usize),
    // The track's part does not begin with its head: the first other byte.
    Head(usize, usize),
}

// The first byte that is not as expected.
fn first_other(expected: &[u8], held: &[u8]) -> Option<usize>
    requires { length expected.now ≤ length held.now }
    ensures { result ≡ first_other 0 expected.now held.now }
{
    expected
        .iter()
        .zip(held)
        .position(|(byte, other)| other != byte)
}

// The checks of a track whose part is not empty, in turn: 18, 10 and 11.
fn check_part(rate: u32, bytes: &[u8], track: usize, part: TrackPart) -> Result<(), WaveFault>
    ensures { result ≡ answered (part_fault rate bytes.now track part) }
{
    if part.length == 0 {
        return Ok(());
    }
    let held = part.from_start(bytes).ok_or(WaveFault::Outside(track))?;
    let n = part.frame_count().ok_or(WaveFault::Length(track))?;
    first_other(&head(n, rate), held).map_or(Ok(()), |byte| Err(WaveFault::Head(track, byte)))
}

// The checks of all tracks, one after the other, at a session's rate.
pub fn check_parts(rate: u32, bytes: &[u8], parts: &[TrackPart]) -> Result<(), WaveFault>
    ensures { result ≡ answered (parts_fault rate bytes.now 0 parts.now) }
{
    for (track, part) in parts.iter().enumerate() {
        check_part(rate, bytes, track, *part)?;
    }
    Ok(())
}

// The session's check first, then the tracks'.
pub(crate) fn check_reel(
    session: &Session,
    bytes: &[u8],
    parts: &[TrackPart],
) -> Result<(), WaveFault>
    ensures { result ≡ answered (reel_fault (held session.now) bytes.now parts.now) }
{
    if session.nodes().is_empty() {
        return Err(WaveFault::NoNode);
    }
    check_parts(session.rate(), bytes, parts)
}
