// Entries of the column table.

/// A row that is decoded, by its number in the schema and the numbers of what belongs to it in the message.
#[derive(Clone, Copy, Debug, Default, PartialEq, Eq, Hash)]
pub struct Column {
    pub row: usize,
    pub node: usize,
    // the first of its buffers that is read
    pub buffer: usize,
    // the count of its data buffers, where it is a view
    pub count: usize,
}
