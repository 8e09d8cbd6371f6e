// A field by its own table.
use types::{Shape, Typed};

/// A vector of fields: its place and how many there are.
#[derive(Clone, Copy, Debug, Default, PartialEq, Eq, Hash)]
pub struct Children {
    pub at: usize,
    pub count: u32,
}

/// The row of a dictionary field, and the dictionary's id.
#[derive(Clone, Copy, Debug, Default, PartialEq, Eq, Hash)]
pub struct Index {
    pub row: Typed,
    pub id: i64,
}

#[derive(Clone, Copy, Debug, PartialEq, Eq, Hash)]
pub struct Field {
    pub shape: Shape,
    pub index: Option<Index>,
    pub children: Children,
}

/// Fields that give no rows: one leaves the bytes, or is too deep, or there is no room for its row. The error of the walks
/// alone: `Refused` of `message` says that all metadata are refused.
#[derive(Clone, Copy, Debug, PartialEq, Eq, Hash)]
pub struct Refused;
