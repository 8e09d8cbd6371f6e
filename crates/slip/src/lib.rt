// The slip form of metadata: lists, and behind them a trailer of 64 bytes that says where they are.
#![tactic(auto)]

ghost use Rattle.slip.specs.Slips.{slip_meaning};

mod facts;
mod parts;
mod trailers;

use crate::parts::{Message, told_parts};
use message::{Buffer, Facts, ItemList, ListSizes, Node, Reading, Refused, Row};

/// The reading of slips.
#[derive(Clone, Copy, Debug, Default, PartialEq, Eq, Hash)]
pub struct Slip;

impl Reading for Slip {
    ghost meaning = { λ s bytes. slip_meaning bytes };

    fn facts(&self, bytes: &[u8]) -> Result<Facts, Refused> {
        Ok(Message::of(bytes).ok_or(Refused)?.facts())
    }

    fn row(&self, bytes: &[u8], k: usize) -> Option<Row> {
        told_parts(bytes).rows.get(k)
    }

    fn node(&self, bytes: &[u8], k: usize) -> Option<Node> {
        told_parts(bytes).nodes.get(k)
    }

    fn buffer(&self, bytes: &[u8], k: usize) -> Option<Buffer> {
        told_parts(bytes).buffers.get(k)
    }

    fn count(&self, bytes: &[u8], k: usize) -> Option<i64> {
        told_parts(bytes).counts.get(k)
    }

    fn rows(&self, bytes: &[u8], table: &mut [Row]) -> usize {
        told_parts(bytes).rows.copy_to(table)
    }

    // The parts are looked for once, here and in the three that follow.
    fn nodes(&self, bytes: &[u8], table: &mut [Node]) -> usize {
        told_parts(bytes).nodes.copy_to(table)
    }

    fn buffers(&self, bytes: &[u8], table: &mut [Buffer]) -> usize {
        told_parts(bytes).buffers.copy_to(table)
    }

    fn counts(&self, bytes: &[u8], table: &mut [i64]) -> usize {
        told_parts(bytes).counts.copy_to(table)
    }

    fn lists(
        &self,
        bytes: &[u8],
        nodes: &mut [Node],
        buffers: &mut [Buffer],
        counts: &mut [i64],
    ) -> ListSizes {
        let parts = told_parts(bytes);
        ListSizes {
            nodes: parts.nodes.copy_to(nodes),
            buffers: parts.buffers.copy_to(buffers),
            counts: parts.counts.copy_to(counts),
        }
    }
}
