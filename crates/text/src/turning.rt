ghost use Rattle.std.specs.Prelude.{◌≡◌, true, is_ok};
ghost use Rattle.turns.specs.Turns.{DoesOrWants};
ghost use Rattle.session.specs.Drafts.{draft as contents_of};
ghost use Rattle.text.specs.Turning.{RoomUsed, turn};
ghost use Rattle.words.specs.Words.{cursor, item};

use crate::stages::First;
use session::sessions::drafts::Draft;
use turns::turns::{layer_turn, line_turn, node_turn, session_turn, unit_turn};
use words::faults::ReadFault;
use words::words::{Token, Words};

// The line that begins with this first word. The project sets this form, one match on the first word.
pub fn turn(
    draft: &mut Draft,
    first: First,
    word: &Token<'_>,
    words: &mut Words<'_>,
) -> Result<(), ReadFault>
    ensures { DoesOrWants (λ _. contents_of draft.new) result (cursor words.new) (turn first (contents_of draft.old) (item word.now) (cursor words.old)) ((is_ok (turn first (contents_of draft.old) (item word.now) (cursor words.old)) ≡ true) × RoomUsed first draft.old) }
{
    match first {
        First::Session => session_turn(draft, words),
        First::Unit => unit_turn(draft, words),
        First::Layer => layer_turn(draft, words),
        First::Node => node_turn(draft, words),
        First::Line => line_turn(draft, word, words),
        First::End => words.end(),
        First::Other => Err(ReadFault::First(word.place)),
    }
}
