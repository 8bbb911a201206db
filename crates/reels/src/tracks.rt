ghost use Rattle.std.specs.Prelude.{◌≡◌};
ghost use Rattle.reels.specs.Tracks.{Tracks, ReelLaws};

use frames::samples::Frame;

// Any set of tracks. Asking for a length or a frame alters nothing and is never refused.
pub trait Reel {
    // What the reel holds.
    ghost tracks: { Self → Tracks };

    ghost lawful: { (r : Self) → ReelLaws (tracks r) };

    // The track's length in frames.
    fn length(&self, track: u8) -> u32
        ensures { result ≡ (tracks self.now).length_of track };

    // The track's frame `n`, from 0.
    fn frame(&self, track: u8, n: u32) -> Frame
        ensures { result ≡ (tracks self.now).frame_of track n };
}
