// What a message says of itself, without its lists.

ghost use Rattle.std.specs.Prelude.{◌≡◌};

/// The numbers of header types, as Message.fbs has them, for bytes that may have any other.
pub const NONE: u8 = 0;

pub const SCHEMA: u8 = 1;

pub const DICTIONARY_BATCH: u8 = 2;

pub const RECORD_BATCH: u8 = 3;

// How many of each list a batch has, beside its length and its marks.
#[derive(Clone, Copy, Debug, PartialEq, Eq, Hash)]
pub struct BatchFacts {
    pub length: i64,
    pub compressed: bool,
    // nodes, buffers or, of a dictionary, its data are not there at all
    pub missing: bool,
    pub nodes: usize,
    pub buffers: usize,
    pub counts: usize,
}

// What a message is about, by its header type.
#[derive(Clone, Copy, Debug, PartialEq, Eq, Hash)]
pub enum Header {
    Empty,
    Schema {
        rows: usize,
    },
    DictionaryBatch {
        id: i64,
        delta: bool,
        data: BatchFacts,
    },
    RecordBatch {
        data: BatchFacts,
    },
    Other {
        number: u8,
    },
}

impl Header {
    ghost use Rattle.message.specs.Messages.{type_of};

    /// The number of the header type.
    pub fn number(&self) -> u8
        ensures { result ≡ type_of self.now }
    {
        match self {
            Header::Empty => NONE,
            Header::Schema { .. } => SCHEMA,
            Header::DictionaryBatch { .. } => DICTIONARY_BATCH,
            Header::RecordBatch { .. } => RECORD_BATCH,
            Header::Other { number } => *number,
        }
    }
}

#[derive(Clone, Copy, Debug, PartialEq, Eq, Hash)]
pub struct Facts {
    pub version: i16,
    // the length of the body that follows the metadata
    pub body: i64,
    pub header: Header,
}
