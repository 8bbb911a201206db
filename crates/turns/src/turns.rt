ghost use Rattle.std.specs.Prelude.{◌≡◌, true, is_ok, Err, OnErr};
ghost use Rattle.session.specs.Contents.{is_set};
ghost use Rattle.session.specs.Drafts.{LinesFull, NodesFull, draft as contents_of};
ghost use Rattle.forms.specs.Forms.{bypass_form, given_layer, layer_form, trim_form};
ghost use Rattle.turns.specs.Turns.{DoesOrWants, for_memory, line_turn, node_turn, session_turn, unit_turn};
ghost use Rattle.words.specs.Parsing.{paired};
ghost use Rattle.words.specs.Words.{cursor, item};

use forms::{Role, gain, kind, line, node, numbered, session};
use session::sessions::drafts::{Draft, DraftFault};
use units::settings::TrimSettings;
use words::faults::ReadFault;
use words::words::{Token, Words};

// What is told of a draft's answer to an addition that fits it: where it is not made, memory lacks.
fn fitting(answer: Result<(), DraftFault>) -> Result<(), ReadFault>
    ensures { result ≡ for_memory answer }
{
    answer.map_err(|_| ReadFault::NoMemory)
}

// The draft and the words stay two parameters: tried in one struct that lends both, each clause is longer, and two goals of
// `given_layer` stay open.
pub fn session_turn(draft: &mut Draft, words: &mut Words<'_>) -> Result<(), ReadFault>
    ensures exact { paired (λ _. contents_of draft.new) result (cursor words.new) ≡ session_turn (contents_of draft.old) (cursor words.old) }
    ensures stays { OnErr result (contents_of draft.new ≡ contents_of draft.old) }
{
    let rate = session(words)?;
    fitting(draft.set_rate(rate))
}

pub fn unit_turn(draft: &mut Draft, words: &mut Words<'_>) -> Result<(), ReadFault>
    ensures exact { paired (λ _. contents_of draft.new) result (cursor words.new) ≡ unit_turn (contents_of draft.old) (cursor words.old) }
    ensures stays { OnErr result (contents_of draft.new ≡ contents_of draft.old) }
{
    let s = numbered(draft, Role::NewUnit, words)?;
    let kind = kind(words, s)?;
    words.end()?;
    fitting(draft.set_unit(s, kind))
}

// That unit `s` is set is a fact of the draft that is lent here, so no type could carry it to the layers' functions.
fn trim_layer(
    draft: &mut Draft,
    s: u8,
    word: &Token<'_>,
    words: &mut Words<'_>,
) -> Result<(), ReadFault>
    requires { is_set (contents_of draft.old) s ≡ true }
    ensures exact { paired (λ _. contents_of draft.new) result (cursor words.new) ≡ trim_form (contents_of draft.old) s (item word.now) (cursor words.old) }
    ensures stays { OnErr result (contents_of draft.new ≡ contents_of draft.old) }
{
    if draft.has_trim(s) {
        return Err(ReadFault::Fit(word.place));
    }
    let gain = gain(words)?;
    words.end()?;
    fitting(draft.give_trim(s, TrimSettings { gain }))
}

fn bypass_layer(
    draft: &mut Draft,
    s: u8,
    word: &Token<'_>,
    words: &mut Words<'_>,
) -> Result<(), ReadFault>
    requires { is_set (contents_of draft.old) s ≡ true }
    ensures exact { paired (λ _. contents_of draft.new) result (cursor words.new) ≡ bypass_form (contents_of draft.old) s (item word.now) (cursor words.old) }
    ensures stays { OnErr result (contents_of draft.new ≡ contents_of draft.old) }
{
    if draft.has_bypass(s) {
        return Err(ReadFault::Fit(word.place));
    }
    words.end()?;
    fitting(draft.give_bypass(s))
}

fn given_layer(
    draft: &mut Draft,
    s: u8,
    word: &Token<'_>,
    words: &mut Words<'_>,
) -> Result<(), ReadFault>
    requires { is_set (contents_of draft.old) s ≡ true }
    ensures exact { paired (λ _. contents_of draft.new) result (cursor words.new) ≡ given_layer (contents_of draft.old) s (item word.now) (cursor words.old) }
    ensures stays { OnErr result (contents_of draft.new ≡ contents_of draft.old) }
{
    if word.is(b"trim") {
        trim_layer(draft, s, word, words)
    } else if word.is(b"bypass") {
        bypass_layer(draft, s, word, words)
    } else {
        Err(ReadFault::Form(word.place))
    }
}

pub fn layer_turn(draft: &mut Draft, words: &mut Words<'_>) -> Result<(), ReadFault>
    ensures exact { paired (λ _. contents_of draft.new) result (cursor words.new) ≡ layer_form (contents_of draft.old) (cursor words.old) }
    ensures stays { OnErr result (contents_of draft.new ≡ contents_of draft.old) }
{
    let s = numbered(draft, Role::SetUnit, words)?;
    let word = words.word()?;
    given_layer(draft, s, &word, words)
}

pub fn node_turn(draft: &mut Draft, words: &mut Words<'_>) -> Result<(), ReadFault>
    ensures wants { DoesOrWants (λ _. contents_of draft.new) result (cursor words.new) (node_turn (contents_of draft.old) (cursor words.old)) ((is_ok (node_turn (contents_of draft.old) (cursor words.old)) ≡ true) × NodesFull draft.old) }
    ensures stays { OnErr result (contents_of draft.new ≡ contents_of draft.old) }
{
    let node = node(draft, words)?;
    fitting(draft.add_node(node))
}

pub fn line_turn(
    draft: &mut Draft,
    word: &Token<'_>,
    words: &mut Words<'_>,
) -> Result<(), ReadFault>
    ensures wants { DoesOrWants (λ _. contents_of draft.new) result (cursor words.new) (line_turn (contents_of draft.old) (item word.now) (cursor words.old)) ((is_ok (line_turn (contents_of draft.old) (item word.now) (cursor words.old)) ≡ true) × LinesFull draft.old) }
    ensures stays { OnErr result (contents_of draft.new ≡ contents_of draft.old) }
{
    let line = line(draft, word, words)?;
    fitting(draft.add_line(line))
}
