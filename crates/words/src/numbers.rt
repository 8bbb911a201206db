ghost use Rattle.std.specs.Prelude.{◌≡◌, ◌<◌, ◌≤◌, true, length};
ghost use Rattle.words.specs.Bytes.{all_digits};
ghost use Rattle.words.specs.Numbers.{between, gain, is_negative, negative, positive, read_on, unsigned, well_spelt, whole};

use crate::bytes::all_digits;

// The number that at most six digits write.
fn value(digits: &[u8]) -> u32
    requires digits { all_digits digits.now ≡ true }
    requires short { length digits.now ≤ 6 }
    ensures { result ≡ read_on 0 digits.now }
{
    // A loop: the closure of a fold would be called at sums of which nothing is known.
    let mut n = 0u32;
    for d in digits {
        n = 10 * n + u32::from(*d - b'0');
    }
    n
}

fn is_well_spelt(digits: &[u8]) -> bool
    ensures { result ≡ well_spelt digits.now }
{
    all_digits(digits) && matches!(digits.len(), 1..=6) && (digits.len() == 1 || digits[0] != b'0')
}

// The number that digits write, where they are well spelt.
pub fn whole(digits: &[u8]) -> Option<u32>
    ensures { result ≡ whole digits.now }
{
    is_well_spelt(digits).then(|| value(digits))
}

fn is_negative(bytes: &[u8]) -> bool
    ensures { result ≡ is_negative bytes.now }
{
    bytes.starts_with(b"-")
}

// The digits of a number, without its hyphen.
pub fn digits_of(bytes: &[u8]) -> &[u8]
    ensures { result.now ≡ unsigned bytes.now }
{
    bytes.strip_prefix(b"-").unwrap_or(bytes)
}

fn positive(n: Option<u32>) -> Option<i16>
    ensures { result ≡ positive (between 0 32767 n) }
{
    n.filter(|n| *n <= 32767).map(|n| n as i16)
}

fn negative(n: Option<u32>) -> Option<i16>
    ensures { result ≡ negative (between 1 32768 n) }
{
    n.filter(|n| matches!(*n, 1..=32768))
        .map(|n| (-(n as i32)) as i16)
}

// The gain that a hyphen and digits, or digits, write.
pub fn gain(bytes: &[u8]) -> Option<i16>
    ensures { result ≡ gain bytes.now }
{
    let n = whole(digits_of(bytes));
    if is_negative(bytes) {
        negative(n)
    } else {
        positive(n)
    }
}
