ghost use Rattle.std.specs.Prelude.{◌≡◌, ◌+◌, ◌*◌, ◌<◌, ◌≤◌, ◌++◌, length, take, drop, if◌then◌else◌, Ok, Err, OnOk, nat_eq};
ghost use Rattle.session.specs.Sessions.{held};
ghost use Rattle.wave.specs.Back.{AllFrames, IsFrame, ReadBack};
ghost use Rattle.wave.specs.Bytes.{file_bytes, four_bytes, frame_bytes, frames_bytes, head_bytes};
ghost use Rattle.wave.specs.Due.{answered};
ghost use Rattle.wave.specs.Written.{frames_fault, left_in, size_fault, write_fault};
ghost use Rattle.wave.specs.declared.writer.WriteFault.TheVariants.{BufferLength};

use frames::samples::Frame;
use session::sessions::Session;

// Why nothing was written.
#[derive(Clone, Copy, PartialEq, Eq, Debug)]
pub enum WriteFault {
    // The session has no node.
    NoNode,
    // A file has at most 1,048,576 frames.
    TooLong,
    // The buffer is not exactly as long as the bytes.
    BufferLength,
}

// The lowest 32 bits of a number, the lowest byte first.
fn little(n: u64) -> [u8; 4]
    ensures { result ≡ four_bytes n }
{
    let [a, b, c, d, _, _, _, _] = n.to_le_bytes();
    [a, b, c, d]
}

// The 44 bytes that stand before `n` frames at a rate.
#[tactic(auto, unfolding(crate::specs::Bytes::head_around))]
pub fn head(n: u32, rate: u32) -> [u8; 44]
    ensures { result ≡ head_bytes n rate }
{
    let frames = u64::from(n);
    let hertz = u64::from(rate);
    let [a, b, c, d] = little(36 + 4 * frames);
    let [e, f, g, h] = little(hertz);
    let [i, j, k, l] = little(4 * hertz);
    let [m, o, p, q] = little(4 * frames);
    [
        b'R', b'I', b'F', b'F', a, b, c, d, b'W', b'A', b'V', b'E', b'f', b'm', b't', b' ', 16, 0,
        0, 0, 1, 0, 2, 0, e, f, g, h, i, j, k, l, 4, 0, 16, 0, b'd', b'a', b't', b'a', m, o, p, q,
    ]
}

// One frame's bytes.
fn bytes_of(f: Frame) -> [u8; 4]
    ensures { result ≡ frame_bytes f }
{
    let [a, b] = f.left.to_le_bytes();
    let [c, d] = f.right.to_le_bytes();
    [a, b, c, d]
}

// One frame's bytes, at their place.
fn put(out: &mut [u8], at: usize, f: Frame)
    requires { at + 4 ≤ length out.old }
    ensures bytes { out.new ≡ take at out.old ++ (frame_bytes f ++ drop (at + 4) out.old) }
    ensures samples { IsFrame f }
{
    let bytes = bytes_of(f);
    out[at..at + 4].copy_from_slice(&bytes);
}

// The bytes of some frames, into a buffer of their length. Each frame is put at its place: of a slice that was lent in chunks
// no proof knows what it holds afterwards.
fn put_all(frames: &[Frame], out: &mut [u8])
    requires { length out.old ≡ 4 * length frames.now }
    ensures bytes { out.new ≡ frames_bytes frames.now }
    ensures samples { AllFrames frames.now }
{
    for (i, f) in frames.iter().enumerate() {
        put(out, 4 * i, *f);
    }
}

// Checks 19 and 27: a session with a node, and not too many frames.
fn check_frames(session: &Session, n: usize) -> Result<(), WriteFault>
    ensures value { result ≡ answered (frames_fault (held session.now) n) }
    ensures node { OnOk result (0 < length (held session.now).plan.nodes) }
    ensures few { OnOk result (n ≤ 1048576) }
{
    if session.nodes().is_empty() {
        return Err(WriteFault::NoNode);
    }
    if n > 1048576 {
        return Err(WriteFault::TooLong);
    }
    Ok(())
}

// Check 26: a buffer of exactly the size that is needed.
fn check_size(size: usize, needed: usize) -> Result<(), WriteFault>
    ensures value { result ≡ answered (size_fault size needed) }
    ensures same { OnOk result (size ≡ needed) }
{
    if size != needed {
        return Err(WriteFault::BufferLength);
    }
    Ok(())
}

// The bytes of some frames, into a buffer that must be exactly as long; else it stays as it was.
pub fn write_frames(frames: &[Frame], out: &mut [u8]) -> Result<(), WriteFault>
    ensures value { result ≡ (if nat_eq (length out.old) (4 * length frames.now) then Ok tt else Err BufferLength) }
    ensures bytes { out.new ≡ (if nat_eq (length out.old) (4 * length frames.now) then frames_bytes frames.now else out.old) }
{
    check_size(out.len(), 4 * frames.len())?;
    put_all(frames, out);
    Ok(())
}

// The head of `n` frames at the session's rate, into a buffer that must be exactly 44 bytes long. On a refusal the buffer
// stays as it was.
pub fn write_head(session: &Session, n: u32, out: &mut [u8]) -> Result<(), WriteFault>
    ensures value { result ≡ answered (write_fault (held session.now) n (length out.old) 44) }
    ensures bytes { out.new ≡ left_in (write_fault (held session.now) n (length out.old) 44) (head_bytes n (held session.now).rate) out.old }
{
    check_frames(session, n as usize)?;
    check_size(out.len(), 44)?;
    out.copy_from_slice(&head(n, session.rate()));
    Ok(())
}

// The whole file of some frames at the session's rate, into a buffer that must be exactly as long. On a refusal the buffer
// stays as it was.
pub fn write_file(session: &Session, frames: &[Frame], out: &mut [u8]) -> Result<(), WriteFault>
    ensures value { result ≡ answered (write_fault (held session.now) (length frames.now) (length out.old) (44 + 4 * length frames.now)) }
    ensures bytes { out.new ≡ left_in (write_fault (held session.now) (length frames.now) (length out.old) (44 + 4 * length frames.now)) (file_bytes (held session.now).rate frames.now) out.old }
    ensures back { OnOk result (ReadBack (held session.now) out.new frames.now) }
{
    check_frames(session, frames.len())?;
    check_size(out.len(), 44 + 4 * frames.len())?;
    let (front, body) = out.split_at_mut(44);
    front.copy_from_slice(&head(frames.len() as u32, session.rate()));
    put_all(frames, body);
    Ok(())
}
