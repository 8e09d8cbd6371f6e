// The listing of a stream, frame by frame.
use crate::lines;
use crate::text::Text;
use framing::FrameHead;
use message::{BatchFacts, Buffer, Fault, Header, Node, Place, Reading, Row};
use std::io;
use std::io::Write;

// How many items of a list are asked for at once.
const ITEMS: usize = 64;

// How many rows of a schema are asked for at once.
const ROWS: usize = 256;

// The metadata of a message, and how they are read.
#[derive(Drop)]
pub(crate) struct Message<'a, F> {
    pub(crate) reading: &'a F,
    pub(crate) bytes: &'a [u8],
}

// Where the lines go, and tables for the items of a batch: arrays, since slices of them are lent to the reading.
#[derive(Drop)]
pub(crate) struct Listing<W: Write + Drop> {
    text: Text<W>,
    nodes: [Node; ITEMS],
    buffers: [Buffer; ITEMS],
    counts: [i64; ITEMS],
}

impl<W: Write + Drop> Listing<W> {
    pub(crate) fn new(out: W) -> Listing<W> {
        Listing {
            text: Text::new(out),
            nodes: [Node::default(); ITEMS],
            buffers: [Buffer::default(); ITEMS],
            counts: [0; ITEMS],
        }
    }

    pub(crate) fn flush(&mut self) -> io::Result<()> {
        self.text.flush()
    }

    pub(crate) fn end_mark(&mut self, place: &Place) -> io::Result<()> {
        lines::end_mark(&mut self.text, place)
    }

    pub(crate) fn frame<F: Reading>(
        &mut self,
        head: &FrameHead,
        message: &Message<'_, F>,
    ) -> io::Result<()> {
        lines::frame(&mut self.text, head)?;
        match &head.facts.header {
            Header::Schema { rows } => self.rows(message, *rows),
            Header::DictionaryBatch { id, delta, data } => {
                lines::dictionary(&mut self.text, *id, *delta, data)?;
                self.lists(message, data)
            }
            Header::RecordBatch { data } => {
                lines::batch(&mut self.text, data)?;
                self.lists(message, data)
            }
            Header::Empty | Header::Other { .. } => Ok(()),
        }
    }

    fn rows<F: Reading>(&mut self, message: &Message<'_, F>, count: usize) -> io::Result<()> {
        let mut table = [Row::default(); ROWS];
        let n = message.reading.rows(message.bytes, &mut table);
        items(
            &mut self.text,
            count,
            &table[..n],
            |k| message.reading.row(message.bytes, k),
            lines::row,
        )
    }

    fn lists<F: Reading>(
        &mut self,
        message: &Message<'_, F>,
        facts: &BatchFacts,
    ) -> io::Result<()> {
        let Message { reading, bytes } = message;
        let sizes = reading.lists(bytes, &mut self.nodes, &mut self.buffers, &mut self.counts);
        items(
            &mut self.text,
            facts.nodes,
            &self.nodes[..sizes.nodes],
            |k| reading.node(bytes, k),
            lines::node,
        )?;
        items(
            &mut self.text,
            facts.buffers,
            &self.buffers[..sizes.buffers],
            |k| reading.buffer(bytes, k),
            lines::buffer,
        )?;
        items(
            &mut self.text,
            facts.counts,
            &self.counts[..sizes.counts],
            |k| reading.count(bytes, k),
            lines::count,
        )
    }

    pub(crate) fn refused(&mut self, fault: &Fault) -> io::Result<()> {
        lines::refused(&mut self.text, fault)
    }

    pub(crate) fn finish(&mut self, end: &Result<(), Fault>) -> io::Result<()> {
        lines::finish(&mut self.text, end)
    }
}

// The lines of a list: those of its items that a table holds, and of any others that are asked for.
fn items<W, T: Copy, A: Fn(usize) -> Option<T>, L: Fn(&mut W, usize, &T) -> io::Result<()>>(
    text: &mut W,
    count: usize,
    table: &[T],
    ask: A,
    line: L,
) -> io::Result<()>
    requires asks { A.IsAlwaysCallable ask }
    requires writes { L.IsAlwaysCallable line }
{
    // by number, which is in the line, and by which any others are asked for
    for k in 0..count {
        if let Some(item) = table.get(k).copied().or_else(|| ask(k)) {
            line(text, k, &item)?;
        }
    }
    Ok(())
}
