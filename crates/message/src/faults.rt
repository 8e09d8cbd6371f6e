// Why a stream is refused, and where.
ghost use Rattle.std.specs.Prelude.{◌≡◌};
ghost use Rattle.message.specs.Faults.{bare, number_of, placed};

use std::error::Error;
use std::fmt;

// In the order of their numbers, which are one more than their discriminants.
#[derive(Clone, Copy, Debug, PartialEq, Eq, Hash)]
pub enum Refusal {
    // a memory's length is out of bounds, or not the one that it had at first
    Lengths,
    // more than 64 column numbers
    ChoiceLength,
    // a byte behind the end of the stream
    BehindEnd,
    // metadata longer than their hold
    MetadataSize,
    // metadata that the reading refuses
    Metadata,
    // a body length below 0, or above the body's hold
    BodyLength,
    // a header type above 3
    HeaderType,
    // a schema where there is one already
    SecondSchema,
    // rows that are no schema
    Rows,
    // a batch before the schema
    NoSchema,
    // a dictionary batch whose id no field has
    NoSuchId,
    // a compressed batch, or one without its lists
    Marks,
    // more nodes, buffers or counts than their table has room for
    ListLength,
    // a row without its node
    NoNode,
    // a node that is no length with a null count
    NodeRange,
    // a view without its count, or with more buffers than are left
    ViewCount,
    // a row without one of its buffers
    NoBuffer,
    // a buffer that does not lie within the body
    BufferRange,
    // a column that breaks a rule of its kind
    Rule,
    // a chosen number that names no column
    NoSuchColumn,
    // counts that no view takes
    CountsLeft,
    // a batch length out of bounds, or unlike that of a shown column
    BatchLength,
    // a delta for an id that is not held
    DeltaFirst,
    // more ids, or more values, than the store has room for
    Room,
    // the stream stops inside a frame
    Unfinished,
    // no batch is current
    NoBatch,
    // a number that is not below its count
    OutOfRange,
    // a memory was changed, so that a rule no longer holds
    Changed,
}

impl Refusal {
    pub fn number(self) -> u8
        ensures { result ≡ number_of self }
    {
        self as u8 + 1
    }

    // The refusal of a call, which no frame brought about. A method, and not `From`: a refusal gives a fault in two ways.
    pub fn bare(self) -> Fault
        ensures { result ≡ bare self }
    {
        Fault {
            refusal: self,
            place: None,
            row: None,
            index: None,
        }
    }

    // The refusal of a frame.
    pub fn of_frame(self, place: Place) -> Fault
        ensures { result ≡ placed self place }
    {
        Fault {
            place: Some(place),
            ..self.bare()
        }
    }
}

// A frame by the number of frames before it and the position of its first byte, both modulo 2^64.
#[derive(Clone, Copy, Debug, Default, PartialEq, Eq, Hash)]
pub struct Place {
    pub message: u64,
    pub position: u64,
}

#[derive(Clone, Copy, Debug, PartialEq, Eq, Hash)]
pub struct Fault {
    pub refusal: Refusal,
    pub place: Option<Place>,
    // the row of a column that is refused
    pub row: Option<usize>,
    // the slot that breaks a rule, or the column's length where the whole column does
    pub index: Option<usize>,
}

impl fmt::Display for Fault {
    fn fmt<W: fmt::Write>(&self, f: &mut fmt::Formatter<W>) -> fmt::Result {
        write!(f, "refused {}", self.refusal.number())?;
        if let Some(place) = &self.place {
            write!(f, " message {} position {}", place.message, place.position)?;
        }
        if let Some(row) = &self.row {
            write!(f, " row {row}")?;
        }
        if let Some(index) = &self.index {
            write!(f, " index {index}")?;
        }
        Ok(())
    }
}

impl Error for Fault {}
