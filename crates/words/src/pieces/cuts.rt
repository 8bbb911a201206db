ghost use Rattle.std.specs.Prelude.{◌≡◌, ◌+◌, ◌≤◌, false, [], ◌∷◌, length, drop, is_some, MatchOption};
ghost use Rattle.words.specs.Pieces.{is_nil, nothing_follows, pieces, split, upto};

use crate::pieces::Pieces;
use crate::shorts::Short;

// How many bytes stand before the first mark.
fn upto(bytes: &[u8], mark: u8) -> usize
    ensures value { result ≡ upto mark bytes.now }
    ensures bound { result ≤ length bytes.now }
{
    let found = bytes.iter().position(|b| *b == mark);
    found.unwrap_or(bytes.len())
}

impl<'a> Pieces<'a> {
    #[tactic(auto, using(crate::proofs::Cutting::pieces_some))]
    pub fn new(text: Short<'a>, mark: u8) -> Pieces<'a>
        ensures cut { pieces result ≡ split mark text.entry.bytes.now }
        ensures at { result.at ≡ 0 }
        ensures bytes { result.text.bytes.now ≡ text.entry.bytes.now }
    {
        Pieces { text, mark, at: 0 }
    }

    // Where the next piece begins.
    pub fn at(&self) -> usize
        ensures value { result ≡ self.now.at }
        ensures bound { result ≤ 16385 }
    {
        self.at
    }

    // How many bytes there are in all.
    pub fn len(&self) -> usize
        ensures value { result ≡ length self.now.text.bytes.now }
        ensures bound { result ≤ 16384 }
    {
        self.text.bytes().len()
    }

    // Whether no piece is left.
    #[tactic(auto, using(crate::proofs::Cutting::pieces_done))]
    pub fn is_done(&self) -> bool
        ensures { result ≡ is_nil (pieces self.now) }
    {
        self.at > self.len()
    }

    // Whether one piece is left, and it is empty.
    #[tactic(auto, using(crate::proofs::Cutting::pieces_spent))]
    pub fn is_spent(&self) -> bool
        ensures { result ≡ nothing_follows (pieces self.now) }
    {
        self.at == self.len()
    }

    // The next piece. No `Iterator`: its clauses would tell the pieces alone, and callers also need where the next begins.
    #[tactic(auto, using(crate::proofs::Cutting::pieces_none))]
    pub fn next(&mut self) -> Option<Short<'a>>
        ensures bytes { self.new.text.bytes.now ≡ self.old.text.bytes.now }
        ensures mark { self.new.mark ≡ self.old.mark }
        ensures cut { MatchOption result (pieces self.old ≡ []) (λ p. (pieces self.old ≡ p.bytes.now ∷ pieces self.new) × (self.new.at ≡ self.old.at + length p.bytes.now + 1)) }
        ensures stays { is_some result ≡ false → self.new.at ≡ self.old.at }
    {
        let rest = self.text.bytes().get(self.at..)?;
        let piece = &rest[..upto(rest, self.mark)];
        self.at += piece.len() + 1;
        Short::new(piece)
    }
}
