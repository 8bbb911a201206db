ghost use Rattle.std.specs.Prelude.{◌≡◌, ◌≤◌, pos};
ghost use Rattle.std.proofs.Common.{zero-le};
ghost use Rattle.frames.specs.Samples.{scaled};
ghost use Rattle.units.specs.Meanings.{pan_meaning, Steps};
ghost use Rattle.units.specs.Pans.{panned};
ghost use Rattle.voices.proofs.KindLaws.{pan_lawful};
ghost use Rattle.voices.specs.Kinds.{pan_unit, weight, Weighs};

use crate::interface::Unit;
use crate::settings::PanSettings;
use frames::samples::{Frame, scale};

// The weight of each position p: the largest whole number whose square is at most 1,048,576 × (256 − p).
// The project sets this form: a constant table, whose rule is proved for each entry.
const WEIGHTS: [u16; 257] = [
    16384, 16351, 16319, 16287, 16255, 16223, 16190, 16158, 16125, 16093, 16060, 16028, 15995,
    15962, 15929, 15896, 15863, 15830, 15797, 15764, 15730, 15697, 15664, 15630, 15597, 15563,
    15529, 15495, 15462, 15428, 15394, 15360, 15325, 15291, 15257, 15222, 15188, 15153, 15119,
    15084, 15049, 15014, 14979, 14944, 14909, 14874, 14839, 14803, 14768, 14732, 14697, 14661,
    14625, 14589, 14553, 14517, 14481, 14445, 14408, 14372, 14336, 14299, 14262, 14225, 14188,
    14151, 14114, 14077, 14040, 14002, 13965, 13927, 13890, 13852, 13814, 13776, 13738, 13700,
    13661, 13623, 13584, 13546, 13507, 13468, 13429, 13390, 13351, 13312, 13272, 13232, 13193,
    13153, 13113, 13073, 13033, 12993, 12952, 12912, 12871, 12830, 12789, 12748, 12707, 12666,
    12624, 12583, 12541, 12499, 12457, 12415, 12373, 12330, 12288, 12245, 12202, 12159, 12116,
    12072, 12029, 11985, 11941, 11897, 11853, 11809, 11764, 11720, 11675, 11630, 11585, 11539,
    11494, 11448, 11402, 11356, 11310, 11264, 11217, 11170, 11123, 11076, 11028, 10981, 10933,
    10885, 10836, 10788, 10739, 10690, 10641, 10592, 10542, 10492, 10442, 10392, 10341, 10291,
    10240, 10188, 10137, 10085, 10033, 9980, 9928, 9875, 9821, 9768, 9714, 9660, 9605, 9551, 9496,
    9440, 9385, 9329, 9272, 9216, 9158, 9101, 9043, 8985, 8927, 8868, 8808, 8749, 8688, 8628, 8567,
    8505, 8444, 8381, 8319, 8255, 8192, 8127, 8062, 7997, 7931, 7865, 7798, 7731, 7662, 7594, 7524,
    7454, 7384, 7312, 7240, 7168, 7094, 7020, 6945, 6869, 6792, 6714, 6636, 6556, 6476, 6394, 6312,
    6228, 6144, 6058, 5970, 5882, 5792, 5701, 5608, 5514, 5418, 5320, 5221, 5120, 5016, 4910, 4802,
    4692, 4579, 4463, 4344, 4222, 4096, 3965, 3831, 3692, 3547, 3396, 3238, 3072, 2896, 2709, 2508,
    2289, 2048, 1773, 1448, 1024, 0,
];

fn weight_of(position: usize) -> u16
    requires { position ≤ 256 }
    ensures rule { Weighs position result }
    ensures value { result ≡ weight position }
    ensures bound { result ≤ 16384 }
{
    WEIGHTS[position]
}

// A sample times a weight, of which 16,384 is the whole.
fn weigh(sample: i16, weight: u16) -> i16
    requires { weight ≤ 16384 }
    ensures { result ≡ scaled sample (pos weight) }
{
    scale(sample, weight as i16) as i16
}

// A unit that weighs its sides by a position between left and right.
// It answers by the newest frame alone, so it keeps no past and is no `Ruled`.
#[derive(Drop)]
pub struct Pan {
    settings: PanSettings,
}

impl Pan {
    // A pan, which is always at rest.
    pub fn new(settings: PanSettings) -> Pan
        ensures { pan_meaning result ≡ pan_unit settings.position }
    {
        Pan { settings }
    }

    // Left by the weight of the position, right by that of the position seen from the right.
    fn place(&self, f: Frame) -> Frame
        ensures { result ≡ panned self.now.settings.position f }
    {
        Frame {
            left: weigh(f.left, weight_of(usize::from(self.settings.position))),
            right: weigh(
                f.right,
                weight_of(256 - usize::from(self.settings.position)),
            ),
        }
    }

    fn hear(&self, f: Frame) -> Frame
        ensures { Steps (pan_meaning self.now) f result (pan_meaning self.now) }
    {
        self.place(f)
    }
}

impl Unit for Pan {
    type Settings = PanSettings;

    const MAX_LATENESS: u8 = 0;

    ghost MAX_LATENESS = { 0 };

    ghost meaning = { pan_meaning };

    ghost lawful = { λ u. pan_lawful u.settings.position };

    ghost within = { λ u. zero-le };

    fn lateness(&self) -> u8 {
        0
    }

    fn step(&mut self, f: Frame) -> Frame {
        self.hear(f)
    }

    fn rest(&mut self) {}
}
