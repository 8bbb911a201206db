use crate::faults::Place;
use crate::pieces::Pieces;

pub mod lexing;
pub mod tokens;

// The project sets this form, with its three cases. A word of the text: letters, digits after at most one hyphen, or anything else.
#[derive(Clone, Copy)]
pub enum Word<'a> {
    Name(&'a [u8]),
    Number(&'a [u8]),
    Unknown(&'a [u8]),
}

// A word with its place.
#[derive(Clone, Copy)]
pub struct Token<'a> {
    pub word: Word<'a>,
    pub place: Place,
}

// The words of a line, one after the other.
#[derive(Drop)]
pub struct Words<'a> {
    pieces: Pieces<'a>,
    line: usize,
}
