ghost use Rattle.std.specs.Prelude.{◌≡◌, ◌≤◌, length, OnErr};
ghost use Rattle.words.specs.Parsing.{no_more, paired, without_first, word};
ghost use Rattle.words.specs.Pieces.{is_nil};
ghost use Rattle.words.specs.Words.{cursor, has_digits, item, line_words, spelling, spelt};

use crate::bytes::{all_digits, all_letters};
use crate::faults::{Place, ReadFault};
use crate::numbers::digits_of;
use crate::pieces::Pieces;
use crate::shorts::Short;
use crate::words::{Token, Word, Words};

fn has_digits(bytes: &[u8]) -> bool
    ensures { result ≡ has_digits bytes.now }
{
    !bytes.is_empty() && all_digits(bytes)
}

#[tactic(auto, unfolding(crate::specs::Words::spelling))]
fn word_of(bytes: &[u8]) -> Word<'_>
    ensures { spelt result ≡ spelling bytes.now }
{
    if all_letters(bytes) {
        Word::Name(bytes)
    } else if has_digits(digits_of(bytes)) {
        Word::Number(bytes)
    } else {
        Word::Unknown(bytes)
    }
}

impl<'a> Words<'a> {
    #[tactic(auto, using(crate::proofs::Lexing::words_new))]
    pub fn new(text: Short<'a>, line: usize) -> Words<'a>
        ensures { cursor result ≡ line_words line text.entry.bytes.now }
    {
        Words {
            pieces: Pieces::new(text, b' '),
            line,
        }
    }

    // Whether no word is left.
    #[tactic(auto, using(crate::proofs::Lexing::done_is))]
    pub fn is_done(&self) -> bool
        ensures { result ≡ is_nil (cursor self.now).items }
    {
        self.pieces.is_done()
    }

    // The next word; where none is left, it is missing after the line.
    pub fn word(&mut self) -> Result<Token<'a>, ReadFault>
        ensures value { paired item result (cursor self.new) ≡ word (cursor self.old) }
        ensures left { cursor self.new ≡ without_first (cursor self.old) }
    {
        let column = self.pieces.at() + 1;
        let Some(piece) = self.pieces.next() else {
            return Err(ReadFault::Form(Place {
                line: self.line,
                column: self.pieces.len() + 1,
            }));
        };
        Ok(Token {
            word: word_of(piece.bytes()),
            place: Place {
                line: self.line,
                column,
            },
        })
    }

    // No word may be left; an extra one is taken.
    pub fn end(&mut self) -> Result<(), ReadFault>
        ensures value { paired (λ x. x) result (cursor self.new) ≡ no_more (cursor self.old) }
        ensures left { OnErr result (cursor self.new ≡ without_first (cursor self.old)) }
    {
        if self.is_done() {
            return Ok(());
        }
        let extra = self.word()?;
        Err(ReadFault::Form(extra.place))
    }
}
