// A table of rows, which is filled from its front.
ghost use Rattle.std.specs.Prelude.{◌≡◌, ◌<◌, ◌≤◌, min, [], ◌∷◌, ◌++◌, length, MatchResult, slice_get, slice_set};
ghost use Rattle.arrayvec.specs.ArrayVec.{array_vec_len};
ghost use Rattle.message.specs.Listed.{laid};

use crate::parts::Refused;
use arrayvec::ArrayVec;
use message::Row;

/// The rows of a schema, at most 256.
#[derive(Debug, PartialEq, Eq, Drop)]
pub struct Rows {
    pub(crate) items: ArrayVec<Row, 256>,
    ghost few: { array_vec_len items ≤ 256 },
}

impl Rows {
    ghost use Rattle.fields.specs.Walks.{held};

    pub fn new() -> Rows
        ensures { held result ≡ [] }
    {
        Rows {
            items: ArrayVec::new(),
        }
    }

    pub fn len(&self) -> usize
        ensures value { result ≡ length (held self.now) }
        ensures bound { result ≤ 256 }
    {
        self.items.len()
    }

    /// Row k, where there is one.
    pub fn get(&self, k: usize) -> Option<Row>
        ensures { result ≡ slice_get (held self.now) k }
    {
        self.items.get(k).copied()
    }

    /// Puts the rows at the front of a table, as many as it has room for, and answers how many.
    pub fn copy_to(&self, table: &mut [Row]) -> usize
        ensures count { result ≡ min (length (held self.now)) (length table.old) }
        ensures table { table.new ≡ laid result (held self.now) table.old }
    {
        let n = self.items.len().min(table.len());
        table[..n].copy_from_slice(&self.items[..n]);
        n
    }

    // One row more, where there is room for it.
    pub(crate) fn push(&mut self, row: Row) -> Result<(), Refused>
        ensures { MatchResult result (λ _. held self.new ≡ held self.old ++ (row ∷ [])) (λ _. 256 ≤ length (held self.old)) }
    {
        // no `try_push`, which hands the row back: the walks were slower with it
        if self.items.is_full() {
            return Err(Refused);
        }
        self.items.push(row);
        Ok(())
    }

    // Another row in the place of one that is there.
    pub(crate) fn put(&mut self, k: usize, row: Row)
        requires { k < length (held self.old) }
        ensures { held self.new ≡ slice_set (held self.old) k row }
    {
        self.items[k] = row;
    }
}
