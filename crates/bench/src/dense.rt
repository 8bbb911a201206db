ghost use Rattle.std.specs.Prelude.{◌≡◌, ◌+◌, ◌*◌};
ghost use Rattle.bench.specs.Dense.{dense, dense_lawful, loud, saw};

use frames::samples::Frame;
use reels::tracks::Reel;

// A sample from −30,000 to 30,000.
fn sample(x: u64) -> i16
    ensures { result ≡ saw x }
{
    ((x % 60001) as i32 - 30000) as i16
}

fn sounding(track: u8, n: u32) -> Frame
    ensures { result ≡ loud track n }
{
    let track = u64::from(track);
    let n = u64::from(n);
    Frame {
        left: sample(7919 * n + 4099 * track),
        right: sample(10007 * n + 911 * track),
    }
}

// Eight tracks of the greatest length, loud at every frame.
#[derive(Clone, Copy)]
pub(crate) struct Dense;

impl Reel for Dense {
    ghost tracks = { λ _. dense };

    ghost lawful = { λ _. dense_lawful };

    fn length(&self, track: u8) -> u32 {
        if track < 8 { 2147483647 } else { 0 }
    }

    fn frame(&self, track: u8, n: u32) -> Frame {
        if n < self.length(track) {
            sounding(track, n)
        } else {
            Frame::SILENCE
        }
    }
}
