ghost use Rattle.std.specs.Prelude.{◌≡◌, is_some};
ghost use Rattle.std.specs.Option.{unwrap_or};
ghost use Rattle.text.specs.Stages.{first_of, next_stage};
ghost use Rattle.words.specs.Words.{spelt};

use words::words::Token;

// Where the reader is: at the head, among units, among nodes or among lines.
#[derive(Clone, Copy)]
pub enum Stage {
    Head,
    Units,
    Nodes,
    Lines,
}

// The first word of a line. `Other` has its row in each table of the format, so an Option would only add a match to it.
#[derive(Clone, Copy, PartialEq, Eq)]
pub enum First {
    Session,
    Unit,
    Layer,
    Node,
    Line,
    End,
    Other,
}

// The first word of a line. A match on byte strings was tried: the search leaves the arm of `session`, the longest.
pub fn first_of(word: &Token<'_>) -> First
    ensures { result ≡ first_of (spelt word.now.word) }
{
    if word.is(b"session") {
        First::Session
    } else if word.is(b"unit") {
        First::Unit
    } else if word.is(b"layer") {
        First::Layer
    } else if word.is(b"node") {
        First::Node
    } else if word.is(b"line") {
        First::Line
    } else if word.is(b"end") {
        First::End
    } else {
        First::Other
    }
}

impl Stage {
    // Goes on by a first word; false, and it stays, where that may not come now. The project sets this form: one match on
    // state and first word that changes the reader; the bool is what the definition of a next stage is asked for.
    pub fn advance(&mut self, first: First) -> bool
        ensures due { result ≡ is_some (next_stage self.old first) }
        ensures after { self.new ≡ unwrap_or (next_stage self.old first) self.old }
    {
        match (*self, first) {
            (Stage::Head, First::Session) => *self = Stage::Units,
            (Stage::Units, First::Unit | First::Layer) => {}
            (Stage::Units | Stage::Nodes, First::Node) => *self = Stage::Nodes,
            (Stage::Nodes | Stage::Lines, First::Line) => *self = Stage::Lines,
            (Stage::Nodes | Stage::Lines, First::End) => {}
            _ => return false,
        }
        true
    }
}
