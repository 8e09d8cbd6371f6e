// Metadata in the form of FlatBuffers.
#![tactic(auto)]

ghost use Rattle.flatbuf.specs.Flat.{flat_meaning};

mod answers;
mod batches;
pub mod heads;
mod schemas;

use crate::answers::{batch_of, facts_of, rows_of};
use message::{Buffer, Facts, ItemList, ListSizes, Node, Reading, Refused, Row};

/// The reading of FlatBuffers.
#[derive(Clone, Copy, Debug, Default, PartialEq, Eq, Hash)]
pub struct FlatBuffers;

impl Reading for FlatBuffers {
    ghost meaning = { λ s bytes. flat_meaning bytes };

    fn facts(&self, bytes: &[u8]) -> Result<Facts, Refused> {
        facts_of(bytes).ok_or(Refused)
    }

    fn row(&self, bytes: &[u8], k: usize) -> Option<Row> {
        rows_of(bytes)?.get(k)
    }

    fn rows(&self, bytes: &[u8], table: &mut [Row]) -> usize {
        // no `map_or`: tried, and the proof of what the table then holds did not close
        match rows_of(bytes) {
            Some(rows) => rows.copy_to(table),
            None => 0,
        }
    }

    fn node(&self, bytes: &[u8], k: usize) -> Option<Node> {
        batch_of(bytes).nodes.get(k)
    }

    fn buffer(&self, bytes: &[u8], k: usize) -> Option<Buffer> {
        batch_of(bytes).buffers.get(k)
    }

    fn count(&self, bytes: &[u8], k: usize) -> Option<i64> {
        batch_of(bytes).counts.get(k)
    }

    // The batch is looked for once, here and in the three that follow.
    fn nodes(&self, bytes: &[u8], table: &mut [Node]) -> usize {
        batch_of(bytes).nodes.copy_to(table)
    }

    fn buffers(&self, bytes: &[u8], table: &mut [Buffer]) -> usize {
        batch_of(bytes).buffers.copy_to(table)
    }

    fn counts(&self, bytes: &[u8], table: &mut [i64]) -> usize {
        batch_of(bytes).counts.copy_to(table)
    }

    fn lists(
        &self,
        bytes: &[u8],
        nodes: &mut [Node],
        buffers: &mut [Buffer],
        counts: &mut [i64],
    ) -> ListSizes {
        let batch = batch_of(bytes);
        ListSizes {
            nodes: batch.nodes.copy_to(nodes),
            buffers: batch.buffers.copy_to(buffers),
            counts: batch.counts.copy_to(counts),
        }
    }
}
