// WAVE files of 16-bit stereo frames.
#![tactic(auto)]

ghost use Rattle.std.specs.Prelude.{◌≡◌, true};
ghost use Rattle.wave.specs.Accepted.{AcceptedExactly, FirstIsFirst};
ghost use Rattle.wave.specs.Back.{FilesReadBack, RoundTrip};

pub mod faults;
pub mod parts;
// Each theorem stands on a call of its own, so that an edit which denies that call's answer is refused.
mod proved;
pub mod reader;
pub mod reel;
pub mod writer;

// Files in the parts of a buffer, however they lie, make a reel for every session with a node, and each track gives its
// file's frames. So a head and its frames, written one after the other, are read as the same frames.
pub fn files_are_read_back() -> bool
    ensures answer { result ≡ true }
    ensures files_read_back { FilesReadBack }
    ensures round_trip { RoundTrip }
{
    proved::read_back()
}

// A reel is made exactly where the session has a node and each part is empty or lies in the buffer, is as long as a file
// and begins with its head; and where a head is refused, its place is the first byte that is not the head's.
pub fn only_files_are_accepted() -> bool
    ensures answer { result ≡ true }
    ensures accepted_exactly { AcceptedExactly }
    ensures first_is_first { FirstIsFirst }
{
    proved::accepted()
}
