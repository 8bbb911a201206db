ghost use Rattle.std.specs.Prelude.{◌≡◌, ◌<◌, ◌≤◌, refl};
ghost use Rattle.units.specs.Heard.{heard};
ghost use Rattle.units.specs.Limits.{limited, peak_within, reduced, size};
ghost use Rattle.voices.proofs.KindLaws.{limit_silent};
ghost use Rattle.voices.proofs.Looks.{limit_looks};
ghost use Rattle.voices.specs.Kinds.{limit_rule, limit_unit};

use crate::past::Past;
use crate::ruled::{Rule, Ruled};
use crate::settings::LimitSettings;
use frames::samples::Frame;

fn frame_size(f: Frame) -> u16
    ensures { result ≡ size f }
{
    f.left.unsigned_abs().max(f.right.unsigned_abs())
}

// The greatest size of the newest frames.
fn peak_within(past: &Past, frames: usize) -> u16
    requires { frames ≤ 64 }
    ensures { result ≡ peak_within frames (heard past.now) }
{
    (0..frames).fold(
        0,
        |peak, k| -> u16
            requires { k < 64 }
        { frame_size(past.back(k)).max(peak) },
    )
}

// A sample times the ceiling over the peak, rounded toward zero.
fn reduce(sample: i16, ceiling: u16, peak: u16) -> i16
    requires { ceiling < peak }
    ensures { result ≡ reduced ceiling peak sample }
{
    (i64::from(sample) * i64::from(ceiling) / i64::from(peak)) as i16
}

fn limit_frame(f: Frame, ceiling: u16, peak: u16) -> Frame
    ensures { result ≡ limited ceiling peak f }
{
    if peak == 0 {
        Frame::SILENCE
    } else if peak <= ceiling {
        f
    } else {
        Frame {
            left: reduce(f.left, ceiling, peak),
            right: reduce(f.right, ceiling, peak),
        }
    }
}

// A unit that holds its frames under a ceiling, and looks ahead for those above it.
pub type Limit = Ruled<LimitSettings>;

impl Rule for LimitSettings {
    const MAX_LATENESS: u8 = 63;

    ghost MAX_LATENESS = { 63 };

    ghost late = { λ s. s.lookahead };

    ghost rule = { λ s. limit_rule s.lookahead s.ceiling };

    ghost unit = { λ s. limit_unit s.lookahead s.ceiling };

    ghost is_unit = { λ s. refl };

    ghost within = { λ s. s.range.0 };

    ghost bound = { λ s. s.range.0 };

    ghost silent = { λ s. limit_silent s.lookahead s.ceiling };

    ghost looks = { λ s. limit_looks s.lookahead s.ceiling s.range.0 };

    fn lateness(&self) -> u8 {
        self.lookahead
    }

    fn answer(&self, past: &Past) -> Frame {
        let lookahead = usize::from(self.lookahead);
        limit_frame(
            past.back(lookahead),
            self.ceiling,
            peak_within(past, lookahead + 1),
        )
    }
}
