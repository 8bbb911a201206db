ghost use Rattle.std.specs.Prelude.{◌≡◌, map, IfOk};
ghost use Rattle.reels.specs.Tracks.{all_at_unity};
ghost use Rattle.std.specs.List.{range_with_len};

use crate::tracks::Reel;
use frames::buses::mix;
use frames::samples::{Frame, Part, UNITY};
use std::alloc::{AllocError, Global};

// A reel's eight tracks at frame `n`, each at unity, added as a bus adds.
pub fn mix_at_unity<R: Reel>(reel: &R, n: u32) -> Frame
    ensures { result ≡ all_at_unity (R.tracks reel.now) n }
{
    let parts = [0, 1, 2, 3, 4, 5, 6, 7].map(|track| Part {
        frame: reel.frame(track, n),
        gain: UNITY,
    });
    mix(&parts).unwrap_or(Frame::SILENCE)
}

// The first `count` frames of a reel's tracks, each at unity, added as a bus adds.
pub fn mix_all<R: Reel>(heap: Global, reel: &R, count: u32) -> Result<Vec<Frame>, AllocError>
    ensures { IfOk result (λ v. v.items ≡ map (all_at_unity (R.tracks reel.now)) (range_with_len 0 count)) }
{
    (0..count).map(|n| mix_at_unity(reel, n)).collect(heap)
}
