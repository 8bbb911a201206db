// Where a node's sound comes from: a track of the reel, or the lines that end at it.
#[derive(Clone, Copy, PartialEq, Eq, Default, Debug)]
pub enum Source {
    Track(u8),
    #[default]
    Bus,
}

// A node; it may have one unit of the rack.
#[derive(Clone, Copy, PartialEq, Eq, Default, Debug)]
pub struct Node {
    pub source: Source,
    pub unit: Option<u8>,
}

// A line from one node to another, with its gain.
#[derive(Clone, Copy, PartialEq, Eq, Default, Debug)]
pub struct Line {
    pub start: u8,
    pub end: u8,
    pub gain: i16,
}
