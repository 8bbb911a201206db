ghost use Rattle.std.specs.Prelude.{◌≡◌, ◌≤◌, ◌*ℤ◌, unsigned_abs};
ghost use Rattle.frames.specs.Samples.{clamped, divided, DividesDown, scaled};

// A left and a right sample.
#[derive(Clone, Copy, PartialEq, Eq, Debug)]
pub struct Frame {
    pub left: i16,
    pub right: i16,
}

impl Frame {
    pub const SILENCE: Frame = Frame { left: 0, right: 0 };
}

// A frame that a line brings to a bus, with the line's gain.
#[derive(Clone, Copy)]
pub struct Part {
    pub frame: Frame,
    pub gain: i16,
}

// The gain that changes nothing.
pub const UNITY: i16 = 16384;

// The sample nearest to a number.
pub fn clamp(z: i64) -> i16
    ensures { result ≡ clamped z }
{
    z.clamp(-32768, 32767) as i16
}

// A number divided down by 16,384.
pub fn divide(z: i64) -> i64
    ensures value { result ≡ divided z }
    ensures law { DividesDown z result }
{
    z >> 14
}

// A sample times a gain or a tap, exactly.
pub fn product(sample: i16, gain: i16) -> i64
    ensures value { result ≡ sample *ℤ gain }
    ensures bound { unsigned_abs result ≤ 1073741824 }
{
    i64::from(sample) * i64::from(gain)
}

// A sample scaled by a gain.
pub fn scale(sample: i16, gain: i16) -> i64
    ensures value { result ≡ scaled sample gain }
{
    divide(product(sample, gain))
}
