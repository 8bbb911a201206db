ghost use Rattle.std.specs.Prelude.{◌≡◌, ◌+◌, ◌*◌, ◌<◌, ◌≤◌, pos, ◌+ℤ◌, if◌then◌else◌, is_ok, nat_lt, unsigned_abs};
ghost use Rattle.frames.specs.Buses.{left_of, right_of};
ghost use Rattle.frames.specs.Samples.{clamped};

use crate::samples::{Frame, Part, clamp, scale};

// A bus has 48 lines already.
#[derive(Clone, Copy, PartialEq, Eq, Debug)]
pub struct BusFull;

// A bus's sum on its way: on each side the scaled samples so far, added exactly. It takes at most 48 lines.
#[derive(Clone, Copy)]
pub struct Sum {
    pub left: i64,
    pub right: i64,
    pub lines: u8,
    ghost few: { lines ≤ 48 },
    ghost left_bound: { unsigned_abs left ≤ 65536 * lines },
    ghost right_bound: { unsigned_abs right ≤ 65536 * lines },
}

impl Sum {
    pub fn new() -> Sum
        ensures left { result.left ≡ pos 0 }
        ensures right { result.right ≡ pos 0 }
        ensures lines { result.lines ≡ 0 }
    {
        Sum {
            left: 0,
            right: 0,
            lines: 0,
        }
    }

    // What one line brings, added on each side.
    fn take(&mut self, part: Part)
        requires { self.old.lines < 48 }
        ensures left { self.new.left ≡ self.old.left +ℤ left_of part }
        ensures right { self.new.right ≡ self.old.right +ℤ right_of part }
        ensures lines { self.new.lines ≡ self.old.lines + 1 }
    {
        self.left += scale(part.frame.left, part.gain);
        self.right += scale(part.frame.right, part.gain);
        self.lines += 1;
    }

    // One line's frame more; nothing is added where there are 48 already.
    pub fn add(&mut self, part: Part) -> Result<(), BusFull>
        ensures room { is_ok result ≡ nat_lt self.old.lines 48 }
        ensures left { self.new.left ≡ (if is_ok result then self.old.left +ℤ left_of part else self.old.left) }
        ensures right { self.new.right ≡ (if is_ok result then self.old.right +ℤ right_of part else self.old.right) }
        ensures lines { self.new.lines ≡ (if is_ok result then self.old.lines + 1 else self.old.lines) }
    {
        if self.lines >= 48 {
            return Err(BusFull);
        }
        self.take(part);
        Ok(())
    }

    // The bus's frame: each side clamped, once.
    pub fn frame(&self) -> Frame
        ensures left { result.left ≡ clamped self.now.left }
        ensures right { result.right ≡ clamped self.now.right }
    {
        Frame {
            left: clamp(self.left),
            right: clamp(self.right),
        }
    }
}
