ghost use Rattle.std.specs.Prelude.{◌≡◌, ◌+◌, ◌*◌, ◌/◌, ◌%◌, ◌≤◌, true, ◌++◌, length, take, drop, is_ok, if◌then◌else◌, vec_len, vec_capacity, OnOk};
ghost use Rattle.listing.specs.Hex.{digit, four_digits, frame_line, frame_lines, number, without_zeros};

use frames::samples::Frame;
use std::alloc::{AllocError, Global};

const DIGITS: [u8; 16] = *b"0123456789ABCDEF";

// The lowest digit of a number. `{:X}` writes the same digits, but nothing says that it succeeds where the vector has room.
fn lowest(n: u32) -> u8
    ensures { result ≡ digit (n % 16) }
{
    DIGITS[(n % 16) as usize]
}

// The lowest four digits of a number.
fn four(n: u32) -> [u8; 4]
    ensures { result ≡ four_digits n }
{
    [lowest(n / 4096), lowest(n / 256), lowest(n / 16), lowest(n)]
}

// The eight digits of a number.
fn eight(n: u32) -> [u8; 8]
    ensures { result ≡ four_digits (n / 65536) ++ four_digits n }
{
    let [a, b, c, d] = four(n / 65536);
    let [e, f, g, h] = four(n);
    [a, b, c, d, e, f, g, h]
}

// How many zeros stand in front of the first four of eight digits.
fn zeros(digits: &[u8; 8]) -> usize
    ensures bound { result ≤ 4 }
    ensures rest { drop result digits.now ≡ without_zeros 4 digits.now }
{
    digits[..4]
        .iter()
        .take_while(|digit| **digit == b'0')
        .count()
}

// Adds eight digits without the zeros in front.
fn push_digits(out: &mut Vec<u8>, digits: [u8; 8]) -> Result<(), AllocError>
    ensures items { out.new.items ≡ (if is_ok result then out.old.items ++ without_zeros 4 digits else out.old.items) }
    ensures room { vec_len out.old + length (without_zeros 4 digits) ≤ vec_capacity out.old → is_ok result ≡ true }
{
    let from = zeros(&digits);
    out.extend_from_slice(&digits[from..])
}

// Adds a number: four digits, or as many as it needs. Without memory for them nothing is added; where the vector has room
// they are added.
pub fn push_number(out: &mut Vec<u8>, n: u32) -> Result<(), AllocError>
    ensures items { out.new.items ≡ (if is_ok result then out.old.items ++ number n else out.old.items) }
    ensures room { vec_len out.old + length (number n) ≤ vec_capacity out.old → is_ok result ≡ true }
{
    push_digits(out, eight(n))
}

// A frame's line.
fn line_of(f: Frame) -> [u8; 9]
    ensures { result ≡ frame_line f }
{
    let [a, b, c, d] = four(u32::from(f.left.cast_unsigned()));
    let [e, g, h, i] = four(u32::from(f.right.cast_unsigned()));
    [a, b, c, d, e, g, h, i, 10]
}

// Adds a line for each frame, as far as there is memory.
fn push_lines(out: &mut Vec<u8>, frames: &[Frame]) -> Result<(), AllocError>
    ensures front { take (vec_len out.old) out.new.items ≡ out.old.items }
    ensures all { OnOk result (out.new.items ≡ out.old.items ++ frame_lines frames.now) }
    ensures room { vec_len out.old + 9 * length frames.now ≤ vec_capacity out.old → is_ok result ≡ true }
{
    for f in frames {
        out.extend_from_slice(&line_of(*f))?;
    }
    Ok(())
}

// Adds a line for each frame; without memory for them all, nothing is added, and where the vector has room for them, of 9
// bytes each, all are added.
pub fn push_frames(out: &mut Vec<u8>, frames: &[Frame]) -> Result<(), AllocError>
    ensures items { out.new.items ≡ (if is_ok result then out.old.items ++ frame_lines frames.now else out.old.items) }
    ensures room { vec_len out.old + 9 * length frames.now ≤ vec_capacity out.old → is_ok result ≡ true }
{
    // Not by `inspect_err`: no proof knows what its closure leaves in the vector.
    let before = out.len();
    let done = push_lines(out, frames);
    if done.is_err() {
        out.truncate(before);
    }
    done
}
