ghost use Rattle.std.specs.Prelude.{◌≡◌, ◌≤◌, true, length, IfOk, nat_lt};
ghost use Rattle.session.specs.Contents.{bus_at, free, line_fits, node_fits};
ghost use Rattle.session.specs.Drafts.{draft as contents_of};
ghost use Rattle.forms.specs.Forms.{joined_form, line_form, node_form, numbered, role_fits, role_most, session_form, some_unit, source_form, unit_part};
ghost use Rattle.words.specs.Parsing.{gain_word, keyword, paired, ranged, without_first};
ghost use Rattle.words.specs.Words.{cursor, item};

use crate::roles::Role;
use session::nodes::{Line, Node, Source};
use session::sessions::drafts::Draft;
use words::faults::ReadFault;
use words::words::{Token, Words};

// A unit's or a node's number. One word is taken, fit or not. Only the words are changed, so the draft is no part of them.
pub fn numbered(draft: &Draft, role: Role, words: &mut Words<'_>) -> Result<u8, ReadFault>
    ensures value { paired (λ x. x) result (cursor words.new) ≡ numbered (contents_of draft.now) role (cursor words.old) }
    ensures fits { IfOk result (λ n. (n ≤ role_most role) × (role_fits (contents_of draft.now) role n ≡ true)) }
    ensures left { cursor words.new ≡ without_first (cursor words.old) }
{
    let word = words.word()?;
    let n = word.number(0, role.most())? as u8;
    if !role.fits(draft, n) {
        return Err(ReadFault::Fit(word.place));
    }
    Ok(n)
}

// A name that has to come.
pub fn keyword(words: &mut Words<'_>, name: &[u8]) -> Result<(), ReadFault>
    ensures { paired (λ x. x) result (cursor words.new) ≡ keyword name.now (cursor words.old) }
{
    let word = words.word()?;
    if word.is(name) {
        Ok(())
    } else {
        Err(ReadFault::Form(word.place))
    }
}

// A number from `low` to `high`.
pub fn ranged(words: &mut Words<'_>, low: u32, high: u32) -> Result<u32, ReadFault>
    ensures value { paired (λ x. x) result (cursor words.new) ≡ ranged low high (cursor words.old) }
    ensures range { IfOk result (λ n. (low ≤ n) × (n ≤ high)) }
{
    let word = words.word()?;
    word.number(low, high)
}

// A gain. One word is taken, fit or not.
pub fn gain(words: &mut Words<'_>) -> Result<i16, ReadFault>
    ensures value { paired (λ x. x) result (cursor words.new) ≡ gain_word (cursor words.old) }
    ensures left { cursor words.new ≡ without_first (cursor words.old) }
{
    let word = words.word()?;
    word.gain()
}

// The version and the rate.
pub fn session(words: &mut Words<'_>) -> Result<u32, ReadFault>
    ensures value { paired (λ x. x) result (cursor words.new) ≡ session_form (cursor words.old) }
    ensures range { IfOk result (λ n. (8000 ≤ n) × (n ≤ 192000)) }
{
    let version = words.word()?;
    if !version.is_one() {
        return Err(ReadFault::Form(version.place));
    }
    let rate = ranged(words, 8000, 192000)?;
    words.end()?;
    Ok(rate)
}

// Where a node's sound comes from.
fn source(words: &mut Words<'_>) -> Result<Source, ReadFault>
    ensures { paired (λ x. x) result (cursor words.new) ≡ source_form (cursor words.old) }
{
    let word = words.word()?;
    if word.is(b"bus") {
        return Ok(Source::Bus);
    }
    if word.is(b"track") {
        let track = ranged(words, 0, 7)?;
        return Ok(Source::Track(track as u8));
    }
    Err(ReadFault::Form(word.place))
}

fn some_unit(draft: &Draft, words: &mut Words<'_>) -> Result<Option<u8>, ReadFault>
    ensures value { paired (λ x. x) result (cursor words.new) ≡ some_unit (contents_of draft.now) (cursor words.old) }
    ensures fits { IfOk result (λ u. free (contents_of draft.now) u ≡ true) }
{
    keyword(words, b"unit")?;
    let s = numbered(draft, Role::FreeUnit, words)?;
    words.end()?;
    Ok(Some(s))
}

// A node's unit, where words for one follow.
fn unit_part(draft: &Draft, words: &mut Words<'_>) -> Result<Option<u8>, ReadFault>
    ensures value { paired (λ x. x) result (cursor words.new) ≡ unit_part (contents_of draft.now) (cursor words.old) }
    ensures fits { IfOk result (λ u. free (contents_of draft.now) u ≡ true) }
{
    if words.is_done() {
        return Ok(None);
    }
    some_unit(draft, words)
}

pub fn node(draft: &Draft, words: &mut Words<'_>) -> Result<Node, ReadFault>
    ensures value { paired (λ x. x) result (cursor words.new) ≡ node_form (contents_of draft.now) (cursor words.old) }
    ensures fits { IfOk result (λ n. node_fits (contents_of draft.now) n ≡ true) }
{
    numbered(draft, Role::NextNode, words)?;
    let source = source(words)?;
    let unit = unit_part(draft, words)?;
    Ok(Node { source, unit })
}

fn joined(draft: &Draft, words: &mut Words<'_>) -> Result<Line, ReadFault>
    ensures value { paired (λ x. x) result (cursor words.new) ≡ joined_form (contents_of draft.now) (cursor words.old) }
    ensures fits { IfOk result (λ l. (nat_lt l.start (length (contents_of draft.now).nodes) ≡ true) × (bus_at (contents_of draft.now) l.end ≡ true)) }
{
    let start = numbered(draft, Role::AnyNode, words)?;
    let end = numbered(draft, Role::BusNode, words)?;
    let gain = gain(words)?;
    words.end()?;
    Ok(Line { start, end, gain })
}

// A line; `word` is the first word of its text.
pub fn line(draft: &Draft, word: &Token<'_>, words: &mut Words<'_>) -> Result<Line, ReadFault>
    ensures value { paired (λ x. x) result (cursor words.new) ≡ line_form (contents_of draft.now) (item word.now) (cursor words.old) }
    ensures fits { IfOk result (λ l. line_fits (contents_of draft.now) l ≡ true) }
{
    if draft.line_count() >= 48 {
        return Err(ReadFault::Full(word.place));
    }
    joined(draft, words)
}
