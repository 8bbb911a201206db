ghost use Rattle.reels.specs.Clicks.{clicks};
ghost use Rattle.reels.specs.Laws.{clicks_lawful};

use crate::tracks::Reel;
use frames::samples::Frame;

// Eight tracks of one click each: track t is 8t + 1 frames long, and its last frame is the click.
#[derive(Clone, Copy)]
pub struct Clicks;

impl Reel for Clicks {
    ghost tracks = { λ _. clicks };

    ghost lawful = { λ _. clicks_lawful };

    fn length(&self, track: u8) -> u32 {
        if track < 8 {
            8 * u32::from(track) + 1
        } else {
            0
        }
    }

    fn frame(&self, track: u8, n: u32) -> Frame {
        if track < 8 && n == 8 * u32::from(track) {
            Frame {
                left: 16000,
                right: -16000,
            }
        } else {
            Frame::SILENCE
        }
    }
}
