// What comes of a piece of the stream.
use crate::openings::Opening;
use message::{Facts, Place};

// A frame that is whole: its metadata are the first bytes of their hold, its body those of the other.
#[derive(Clone, Copy, Debug, PartialEq, Eq, Hash)]
pub struct FrameHead {
    pub place: Place,
    pub opening: Opening,
    pub facts: Facts,
    // how many bytes of body
    pub body: usize,
}

#[derive(Clone, Copy, Debug, PartialEq, Eq, Hash)]
pub enum Event {
    Frame { head: FrameHead },
    // the end mark
    End { place: Place },
}

// How many bytes of the piece were used, and what the last of them made whole.
#[derive(Clone, Copy, Debug, Default, PartialEq, Eq, Hash)]
pub struct Step {
    pub used: usize,
    pub event: Option<Event>,
}
