ghost use Rattle.std.specs.Prelude.{◌≡◌, ◌+◌, ◌≤◌, true, false, length, drop, IfSome, MatchOption};
ghost use Rattle.wave.specs.Parts.{frame_at, frame_count, inside, part_frame, part_frames, sample_of};

use frames::samples::Frame;

// Where a track's file stands in a buffer. A part of length 0 is an empty track. It is no slice of the buffer, since a part
// that does not lie there is to be refused.
#[derive(Clone, Copy)]
pub struct TrackPart {
    pub start: usize,
    pub length: usize,
}

impl TrackPart {
    pub const EMPTY: TrackPart = TrackPart {
        start: 0,
        length: 0,
    };

    // Whether the part lies in a buffer of `size` bytes.
    pub fn lies_in(self, size: usize) -> bool
        ensures { result ≡ inside size self }
    {
        self.start <= size && self.length <= size - self.start
    }

    // The bytes from the part's start on; None where the part does not lie in them.
    pub(crate) fn from_start(self, bytes: &[u8]) -> Option<&[u8]>
        ensures value { MatchOption result (inside (length bytes.now) self ≡ false) (λ held. (inside (length bytes.now) self ≡ true) × (held.now ≡ drop self.start bytes.now)) }
        ensures room { IfSome result (λ held. self.length ≤ length held.now) }
    {
        self.lies_in(bytes.len()).then(|| &bytes[self.start..])
    }

    // How many frames a file of the part's length holds; None where no file is that long.
    pub fn frame_count(self) -> Option<u32>
        ensures { result ≡ frame_count self.length }
    {
        let n = self.length.saturating_sub(44) / 4;
        (self.length == 44 + 4 * n && n <= 1048576).then(|| n as u32)
    }

    // How many frames the part gives of these bytes.
    pub fn frames(self, bytes: &[u8]) -> u32
        ensures { result ≡ part_frames bytes.now self }
    {
        if !self.lies_in(bytes.len()) {
            return 0;
        }
        self.frame_count().unwrap_or(0)
    }

    // Frame `n` of the part.
    pub fn frame(self, bytes: &[u8], n: u32) -> Frame
        ensures { result ≡ part_frame bytes.now self n }
    {
        if n < self.frames(bytes) {
            read(bytes, self.start + 44 + 4 * n as usize)
        } else {
            Frame::SILENCE
        }
    }
}

// A sample of two bytes, the lower first.
fn sample(low: u8, high: u8) -> i16
    ensures { result ≡ sample_of low high }
{
    i16::from_le_bytes([low, high])
}

// The frame whose four bytes stand at a place.
fn read(bytes: &[u8], at: usize) -> Frame
    requires { at + 4 ≤ length bytes.now }
    ensures { result ≡ frame_at bytes.now at }
{
    Frame {
        left: sample(bytes[at], bytes[at + 1]),
        right: sample(bytes[at + 2], bytes[at + 3]),
    }
}
