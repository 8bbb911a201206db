ghost use Rattle.std.specs.Prelude.{◌≡◌, ◌≤◌, true, OnErr};
ghost use Rattle.session.specs.Contents.{contents, no_contents};
ghost use Rattle.session.specs.Drafts.{draft as contents_of};
ghost use Rattle.session.specs.Held.{nothing};
ghost use Rattle.session.specs.Sessions.{held};
ghost use Rattle.text.specs.Accepted.{Accepts};
ghost use Rattle.text.specs.Reading.{GivesOrWants, closed, line_holds, line_read, lines_read, may_want, reading, some_held, value_of};
ghost use Rattle.turns.specs.Turns.{DoesOrWants};
ghost use Rattle.text.specs.Turning.{SomeFull, turned, whole_turn};
ghost use Rattle.words.specs.Pieces.{pieces, split};
ghost use Rattle.words.specs.Words.{cursor};
ghost use Rattle.text.specs.declared.stages.Stage.TheVariants.{Head};

use crate::checks::{check_bytes, check_spaces};
use crate::stages::{First, Stage, first_of};
use crate::turning::turn;
use session::sessions::Session;
use session::sessions::drafts::Draft;
use std::alloc::Global;
use words::faults::{Place, ReadFault};
use words::pieces::Pieces;
use words::shorts::Short;
use words::words::Words;

// The reader: where it is, and what is held so far.
#[derive(Drop)]
pub struct Reader {
    stage: Stage,
    draft: Draft,
}

// Nothing may follow the end, which is line `row`.
fn close(lines: &Pieces<'_>, row: usize) -> Result<(), ReadFault>
    requires { row ≤ 16386 }
    ensures { result ≡ closed row (pieces lines.now) tt }
{
    if lines.is_spent() {
        Ok(())
    } else {
        Err(ReadFault::Rest(Place {
            line: row + 1,
            column: 1,
        }))
    }
}

impl Reader {
    pub fn new(heap: Global) -> Reader
        ensures stage { result.stage ≡ Head }
        ensures draft { contents_of result.draft ≡ no_contents }
    {
        Reader {
            stage: Stage::Head,
            draft: Draft::new(heap),
        }
    }

    // A line by its words; true at the end, as the definition of a turn has it.
    fn whole_turn(&mut self, words: &mut Words<'_>) -> Result<bool, ReadFault>
        ensures { DoesOrWants (turned self.new) result (cursor words.new) (whole_turn self.old.stage (contents_of self.old.draft) (cursor words.old)) ((line_holds (value_of (whole_turn self.old.stage (contents_of self.old.draft) (cursor words.old))) ≡ true) × SomeFull self.old.draft) }
    {
        let word = words.word()?;
        let first = first_of(&word);
        if !self.stage.advance(first) {
            return Err(ReadFault::First(word.place));
        }
        turn(&mut self.draft, first, &word, words)?;
        Ok(first == First::End)
    }

    // A line of the text; true at the end. `last` says that no 0A ends it.
    fn read_line(&mut self, line: Short<'_>, row: usize, last: bool) -> Result<bool, ReadFault>
        ensures { GivesOrWants (turned self.new) result (line_read row self.old.stage (contents_of self.old.draft) line.entry.bytes.now last) ((line_holds (line_read row self.old.stage (contents_of self.old.draft) line.entry.bytes.now last) ≡ true) × SomeFull self.old.draft) }
    {
        check_bytes(line, row, last)?;
        check_spaces(line, row)?;
        let mut words = Words::new(line, row);
        self.whole_turn(&mut words)
    }

    // All lines of a text.
    fn read_lines(&mut self, text: Short<'_>) -> Result<(), ReadFault>
        ensures { GivesOrWants (λ _. contents_of self.new.draft) result (lines_read 1 self.old.stage (contents_of self.old.draft) (split 10 text.entry.bytes.now)) (some_held 1 self.old.stage (contents_of self.old.draft) (split 10 text.entry.bytes.now) ≡ true) }
    {
        let mut lines = Pieces::new(text, b'\n');
        // Counted by hand: the loop also asks the lines whether one is left, so no adapter may hold them.
        let mut row = 1;
        while let Some(line) = lines.next() {
            let ended = self.read_line(line, row, lines.is_done())?;
            if ended {
                return close(&lines, row);
            }
            row += 1;
        }
        Err(ReadFault::Byte(Place {
            line: row,
            column: 1,
        }))
    }
}

// Reads a text that is not too long.
fn read_short(text: Short<'_>, session: &mut Session, heap: Global) -> Result<(), ReadFault>
    ensures refused { OnErr result (held session.new ≡ held session.old) }
    ensures wants { GivesOrWants (λ _. contents (held session.new)) result (lines_read 1 Head no_contents (split 10 text.entry.bytes.now)) (some_held 1 Head no_contents (split 10 text.entry.bytes.now) ≡ true) }
{
    let mut reader = Reader::new(heap);
    reader.read_lines(text)?;
    *session = reader.draft.finish(heap);
    Ok(())
}

// Reads a session text. The session then holds what the text says; where the text is refused or memory lacks, it is the
// empty session. The texts that are accepted are the spellings of well-formed scripts. Memory is wanted only where the
// lines are all right up to the first node's.
#[tactic(auto, using(crate::proofs::Scripting::accepts))]
pub fn read(text: &[u8], session: &mut Session, heap: Global) -> Result<(), ReadFault>
    ensures refused { OnErr result (held session.new ≡ nothing) }
    ensures wants { GivesOrWants (λ _. contents (held session.new)) result (reading text.now) (may_want text.now ≡ true) }
    ensures accepts { Accepts result text.now (contents (held session.new)) }
{
    *session = Session::empty(heap);
    let Some(text) = Short::new(text) else {
        return Err(ReadFault::Long);
    };
    read_short(text, session, heap)
}
