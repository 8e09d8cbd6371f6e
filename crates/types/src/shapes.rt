// What a type says of its row and of its children's.

/// Kind, flag and parameter of a row, as `Row` has them. The default is the row of a type that
/// has no row kind: a number of its own, so no `Option`.
#[derive(Clone, Copy, Debug, Default, PartialEq, Eq, Hash)]
pub struct Typed {
    pub kind: u8,
    pub flag: u8,
    pub parameter: u32,
}

/// The tags of a type's children: all 0; 0, 1, 2 and on; or those of the vector at a place.
#[derive(Clone, Copy, Debug, PartialEq, Eq, Hash)]
pub enum Tags {
    Zero,
    Counted,
    Listed { at: usize },
}

#[derive(Clone, Copy, Debug, PartialEq, Eq, Hash)]
pub struct Shape {
    pub row: Typed,
    pub tags: Tags,
}

/// Types whose row is read from a table of their own. An enum, and not a closure for each: the definitions name them too.
#[derive(Clone, Copy, Debug, PartialEq, Eq, Hash)]
pub enum TableType {
    Int,
    FloatingPoint,
    Decimal,
    Date,
    Time,
    Timestamp,
    Interval,
    FixedSizeBinary,
    FixedSizeList,
    Duration,
}
