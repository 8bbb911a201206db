ghost use Rattle.std.specs.Prelude.{◌≡◌, ◌≤◌, IfOk};
ghost use Rattle.std.specs.Option.{ok_or};
ghost use Rattle.std.specs.Str.{bytes_eq};
ghost use Rattle.words.specs.Numbers.{between};
ghost use Rattle.words.specs.Words.{gain_of, is_name, is_one, spelt, whole_of};

use crate::faults::ReadFault;
use crate::numbers::{gain, whole};
use crate::words::{Token, Word};

impl<'a> Token<'a> {
    // Whether the word is this name.
    pub fn is(&self, name: &[u8]) -> bool
        ensures { result ≡ is_name name.now (spelt self.now.word) }
    {
        matches!(self.word, Word::Name(bytes) if bytes == name)
    }

    // Whether the word is the number 1.
    pub fn is_one(&self) -> bool
        ensures { result ≡ is_one (spelt self.now.word) }
    {
        matches!(self.word, Word::Number(bytes) if bytes == b"1".as_slice())
    }

    // Two short matches: a function that hands out a number's bytes would need a definition of its own.
    fn whole(&self) -> Option<u32>
        ensures { result ≡ whole_of (spelt self.now.word) }
    {
        match self.word {
            Word::Number(bytes) => whole(bytes),
            _ => None,
        }
    }

    fn gain_value(&self) -> Option<i16>
        ensures { result ≡ gain_of (spelt self.now.word) }
    {
        match self.word {
            Word::Number(bytes) => gain(bytes),
            _ => None,
        }
    }

    // The number that the word spells, if it is from `low` to `high`.
    pub fn number(&self, low: u32, high: u32) -> Result<u32, ReadFault>
        ensures value { result ≡ ok_or (between low high (whole_of (spelt self.now.word))) (ReadFault.Number self.now.place) }
        ensures range { IfOk result (λ n. (low ≤ n) × (n ≤ high)) }
    {
        let within = self.whole().filter(|n| low <= *n && *n <= high);
        within.ok_or(ReadFault::Number(self.place))
    }

    // The gain that the word spells.
    pub fn gain(&self) -> Result<i16, ReadFault>
        ensures { result ≡ ok_or (gain_of (spelt self.now.word)) (ReadFault.Number self.now.place) }
    {
        self.gain_value().ok_or(ReadFault::Number(self.place))
    }
}
