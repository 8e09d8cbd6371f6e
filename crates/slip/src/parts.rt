// The four lists of a slip, as the parts of the bytes that they fill.
ghost use Rattle.std.specs.Prelude.{◌≡◌, ◌+◌, ◌≤◌, IfSome};
ghost use Rattle.std.specs.Option.{option_map};
ghost use Rattle.message.specs.Items.{rows_in, nodes_in, buffers_in, counts_in};
ghost use Rattle.message.specs.Messages.{rows_of, nodes_of, buffers_of, counts_of};
ghost use Rattle.slip.specs.Slips.{list_at, lists_of, slip_lists, slip_meaning};
ghost use Rattle.slip.specs.Chosen.{chosen_lists};
ghost use Rattle.slip.specs.Shown.{lists_in, shown_parts};

use crate::trailers::{BUFFERS, COUNTS, KIND, NODES, ROWS, TRAILER, Trailer};
use little::Little;
use message::{Buffer, Items, Node, Row, headers};

// A part for each list.
#[derive(Clone, Copy, Debug, Default, PartialEq, Eq)]
pub(crate) struct Parts<'a> {
    pub(crate) rows: Items<'a, Row>,
    pub(crate) nodes: Items<'a, Node>,
    pub(crate) buffers: Items<'a, Buffer>,
    pub(crate) counts: Items<'a, i64>,
}

impl<'a> Trailer<'a> {
    // The list of which the trailer tells at a place: a count of items, and how far before the trailer they begin.
    fn list<T: Little>(self, at: usize) -> Option<Items<'a, T>>
        requires place { at + 8 ≤ 64 }
        requires width { T.WIDTH ≤ 24 }
        ensures { option_map (λ i. i.bytes.now) result ≡ list_at T.WIDTH self.entry.bytes.now at }
    {
        let trailer = self.bytes.len() - TRAILER;
        let count = self.told::<u32>(at) as usize;
        let back = self.told::<u32>(at + 4) as usize;
        let size = count * T::WIDTH;
        if count == 0 {
            return Some(Items::new(&self.bytes[..0]));
        }
        let start = trailer.checked_sub(back)?;
        let part = self.bytes[start..trailer].get(..size)?;
        Some(Items::new(part))
    }

    // All four lists, whatever the header type.
    pub(crate) fn parts(self) -> Option<Parts<'a>>
        ensures { shown_parts result ≡ lists_of self.entry.bytes.now }
    {
        Some(Parts {
            rows: self.list(ROWS)?,
            nodes: self.list(NODES)?,
            buffers: self.list(BUFFERS)?,
            counts: self.list(COUNTS)?,
        })
    }
}

impl<'a> Parts<'a> {
    // Of the lists those that a message of a header type has.
    fn chosen(self, kind: u8) -> Parts<'a>
        ensures { lists_in result ≡ chosen_lists kind (lists_in self.entry) }
    {
        let none = Parts::default();
        match kind {
            headers::SCHEMA => Parts {
                rows: self.rows,
                ..none
            },
            headers::DICTIONARY_BATCH | headers::RECORD_BATCH => Parts {
                rows: none.rows,
                ..self
            },
            _ => none,
        }
    }
}

// A slip: its trailer, and its lists.
#[derive(Clone, Copy, Debug, PartialEq, Eq)]
pub(crate) struct Message<'a> {
    pub(crate) trailer: Trailer<'a>,
    pub(crate) parts: Parts<'a>,
}

impl<'a> Message<'a> {
    #[tactic(auto, unfolding(crate::specs::Slips::slip_lists))]
    pub(crate) fn of(bytes: &'a [u8]) -> Option<Message<'a>>
        ensures lists { option_map (λ m. lists_in m.parts) result ≡ slip_lists bytes.now }
        ensures bytes { IfSome result (λ m. m.trailer.bytes.now ≡ bytes.now) }
    {
        let trailer = Trailer::of(bytes)?;
        let parts = trailer.parts()?;
        Some(Message { trailer, parts })
    }
}

// The lists of the message, which are empty where it has none.
pub(crate) fn told_parts(bytes: &[u8]) -> Parts<'_>
    ensures rows { rows_in result.rows.bytes.now ≡ rows_of (slip_meaning bytes.now) }
    ensures nodes { nodes_in result.nodes.bytes.now ≡ nodes_of (slip_meaning bytes.now) }
    ensures buffers { buffers_in result.buffers.bytes.now ≡ buffers_of (slip_meaning bytes.now) }
    ensures counts { counts_in result.counts.bytes.now ≡ counts_of (slip_meaning bytes.now) }
{
    match Message::of(bytes) {
        Some(slip) => slip.parts.chosen(slip.trailer.told(KIND)),
        None => Parts::default(),
    }
}
