ghost use Rattle.std.specs.Prelude.{◌≡◌};
ghost use Rattle.words.specs.Faults.{at_place, refusal};

use frames::refusals::{Fault, Layer, Refusal};

// A line of the text and a column in it, both from 1.
#[derive(Clone, Copy, PartialEq, Eq, Debug)]
pub struct Place {
    pub line: usize,
    pub column: usize,
}

// Why a text is not read.
#[derive(Clone, Copy, PartialEq, Eq, Debug)]
pub enum ReadFault {
    // The text is longer than 16,384 bytes.
    Long,
    // A byte that no line may have, or the text's end where a line goes on.
    Byte(Place),
    // A space or the line's end where a word should begin.
    Space(Place),
    // A first word that may not come now.
    First(Place),
    // A word that is not of the form, or is missing or too much.
    Form(Place),
    // A number that is not well spelt or out of range.
    Number(Place),
    // A word that does not fit earlier lines.
    Fit(Place),
    // A line too many.
    Full(Place),
    // Something after the end.
    Rest(Place),
    // There is no memory for a node or a line.
    NoMemory,
}

fn at(number: u8, place: &Place) -> Refusal
    ensures { result ≡ at_place number place.now }
{
    Refusal::new(number, Layer::Text, place.line, place.column)
}

impl Fault for ReadFault {
    ghost told = { refusal };

    fn refusal(&self) -> Refusal {
        match self {
            ReadFault::Long => Refusal::new(1, Layer::Text, 0, 0),
            ReadFault::Byte(place) => at(2, place),
            ReadFault::Space(place) => at(3, place),
            ReadFault::First(place) => at(4, place),
            ReadFault::Form(place) => at(5, place),
            ReadFault::Number(place) => at(6, place),
            ReadFault::Fit(place) => at(7, place),
            ReadFault::Full(place) => at(8, place),
            ReadFault::Rest(place) => at(9, place),
            ReadFault::NoMemory => Refusal::new(0, Layer::Text, 0, 0),
        }
    }
}
