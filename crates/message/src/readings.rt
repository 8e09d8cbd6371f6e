// How metadata is read: any form of it that has this meaning.
ghost use Rattle.std.specs.Prelude.{◌≡◌, ℕ, min, List, length};
ghost use Rattle.message.specs.Listed.{Lays, laid};
ghost use Rattle.message.specs.Messages.{Read, facts_of, rows_of, nodes_of, buffers_of, counts_of};
ghost use Rattle.std.specs.List.{slice_get};

use crate::headers::Facts;
use crate::items::{Buffer, Node};
use crate::lists::lay;
use crate::rows::Row;
use std::error::Error;
use std::fmt;

// The bytes are not metadata of this form.
#[derive(Clone, Copy, Debug, PartialEq, Eq, Hash)]
pub struct Refused;

impl fmt::Display for Refused {
    fn fmt<W: fmt::Write>(&self, f: &mut fmt::Formatter<W>) -> fmt::Result {
        f.write_str("these bytes are not metadata of this form")
    }
}

impl Error for Refused {}

// How many items of each list of a batch went into its table.
#[derive(Clone, Copy, Debug, Default, PartialEq, Eq, Hash)]
pub struct ListSizes {
    pub nodes: usize,
    pub buffers: usize,
    pub counts: usize,
}

/// A reading answers what its meaning gives for the bytes, and a question changes nothing.
pub trait Reading {
    ghost meaning: { Self → List ℕ → Read };

    fn facts(&self, bytes: &[u8]) -> Result<Facts, Refused>
        ensures { result ≡ facts_of (meaning self.now bytes.now) };

    fn row(&self, bytes: &[u8], k: usize) -> Option<Row>
        ensures { result ≡ slice_get (rows_of (meaning self.now bytes.now)) k };

    // Three questions, and not one over the item's type: a reading has each list in another place.
    fn node(&self, bytes: &[u8], k: usize) -> Option<Node>
        ensures { result ≡ slice_get (nodes_of (meaning self.now bytes.now)) k };

    fn buffer(&self, bytes: &[u8], k: usize) -> Option<Buffer>
        ensures { result ≡ slice_get (buffers_of (meaning self.now bytes.now)) k };

    fn count(&self, bytes: &[u8], k: usize) -> Option<i64>
        ensures { result ≡ slice_get (counts_of (meaning self.now bytes.now)) k };

    // Puts rows at the front of a table, as many as there are and it has room for, and answers how many.
    fn rows(&self, bytes: &[u8], table: &mut [Row]) -> usize
        ensures count { result ≡ min (length (rows_of (meaning self.now bytes.now))) (length table.old) }
        ensures table { table.new ≡ laid result (rows_of (meaning self.now bytes.now)) table.old }
    {
        lay(table, |k| self.row(bytes, k))
    }

    // The other lists: each puts its items at the front of a table, as many as there are and it has room for, and answers how
    // many.
    fn nodes(&self, bytes: &[u8], table: &mut [Node]) -> usize
        ensures { Lays (nodes_of (meaning self.now bytes.now)) table.old result table.new }
    {
        lay(table, |k| self.node(bytes, k))
    }

    fn buffers(&self, bytes: &[u8], table: &mut [Buffer]) -> usize
        ensures { Lays (buffers_of (meaning self.now bytes.now)) table.old result table.new }
    {
        lay(table, |k| self.buffer(bytes, k))
    }

    fn counts(&self, bytes: &[u8], table: &mut [i64]) -> usize
        ensures { Lays (counts_of (meaning self.now bytes.now)) table.old result table.new }
    {
        lay(table, |k| self.count(bytes, k))
    }

    // Nodes, buffers and counts together: as a reading has each.
    fn lists(
        &self,
        bytes: &[u8],
        nodes: &mut [Node],
        buffers: &mut [Buffer],
        counts: &mut [i64],
    ) -> ListSizes
        ensures nodes { Lays (nodes_of (meaning self.now bytes.now)) nodes.old result.nodes nodes.new }
        ensures buffers { Lays (buffers_of (meaning self.now bytes.now)) buffers.old result.buffers buffers.new }
        ensures counts { Lays (counts_of (meaning self.now bytes.now)) counts.old result.counts counts.new }
    {
        ListSizes {
            nodes: self.nodes(bytes, nodes),
            buffers: self.buffers(bytes, buffers),
            counts: self.counts(bytes, counts),
        }
    }
}
