// The fields of a schema.
ghost use Rattle.std.specs.Prelude.{◌≡◌};
ghost use Rattle.std.proofs.Common.{rules};
ghost use Rattle.little.specs.Numbers.{inside, inside_whole, inside_cut};
ghost use Rattle.message.specs.Items.{row_at};

use crate::items::field;
use little::{Little, bytes_at};

/// One field of a schema, in preorder.
#[derive(Clone, Copy, Debug, Default, PartialEq, Eq, Hash)]
pub struct Row {
    // 1 to 15 for the Arrow types that are read, 0 for any other; a number, since a slip's rows may have any byte here, and
    // the listing prints it
    pub kind: u8,
    pub flag: u8,
    // the type id by which the union above selects this child
    pub tag: u8,
    pub parameter: u32,
    // of a dictionary field the id of its dictionary
    pub id: i64,
    // the number of the first row behind this one's children
    pub end: u32,
}

impl Row {
    // A row of 24 bytes, as the slip form has it.
    fn from_bytes(bytes: [u8; 24]) -> Row
        ensures { result ≡ row_at bytes 0 }
    {
        Row {
            kind: field(&bytes, 0),
            flag: field(&bytes, 1),
            tag: field(&bytes, 2),
            parameter: field(&bytes, 4),
            id: field(&bytes, 8),
            end: field(&bytes, 16),
        }
    }
}

impl Little for Row {
    const WIDTH: usize = 24;

    ghost WIDTH = { 24 };

    ghost number = { row_at };

    ghost number_at = { λ bs at. inside 24 bs at (row_at bs at) };

    ghost positive = { Prim.search rules };

    ghost whole = { λ bs at. inside_whole 24 bs at (row_at bs at) };

    ghost cut = { λ bs at. inside_cut 24 bs at (row_at bs at) };

    fn read_at(bytes: &[u8], at: usize) -> Option<Row> {
        bytes_at(bytes, at).map(Row::from_bytes)
    }
}
