// The lines of a listing, each of 256 bytes at most. By hand: text.rt says why. Room is made before a line's words; these
// have their own functions, whose clauses say that the text only grows, so that none is written in the middle of a line.
ghost use Rattle.std.specs.Prelude.{◌+◌, ◌≤◌, length, OnOk};
ghost use Rattle.fegzund.specs.declared.text.TheConstants.{LINE, ROOM};

use crate::text::Text;
use framing::FrameHead;
use message::{BatchFacts, Buffer, Fault, Node, Place, Row};
use std::io;
use std::io::Write;

// The number and the place of a frame.
fn placed<W: Write + Drop>(text: &mut Text<W>, word: &str, place: &Place)
    requires { text.old.len + length word.now + 50 ≤ ROOM }
    ensures least { text.old.len ≤ text.new.len }
    ensures most { text.new.len ≤ text.old.len + length word.now + 50 }
{
    text.number(word, place.message);
    text.number(" position ", place.position);
}

pub(crate) fn end_mark<W: Write + Drop>(text: &mut Text<W>, place: &Place) -> io::Result<()>
    ensures { OnOk result (text.new.len ≤ text.old.len + LINE) }
{
    text.make_room()?;
    end_mark_words(text, place);
    Ok(())
}

fn end_mark_words<W: Write + Drop>(text: &mut Text<W>, place: &Place)
    requires { text.old.len + LINE ≤ ROOM }
    ensures least { text.old.len ≤ text.new.len }
    ensures most { text.new.len ≤ text.old.len + LINE }
{
    placed(text, "end ", place);
    text.word("\n");
}

pub(crate) fn frame<W: Write + Drop>(text: &mut Text<W>, head: &FrameHead) -> io::Result<()>
    ensures { OnOk result (text.new.len ≤ text.old.len + LINE) }
{
    text.make_room()?;
    frame_words(text, head);
    Ok(())
}

fn frame_words<W: Write + Drop>(text: &mut Text<W>, head: &FrameHead)
    requires { text.old.len + LINE ≤ ROOM }
    ensures least { text.old.len ≤ text.new.len }
    ensures most { text.new.len ≤ text.old.len + LINE }
{
    placed(text, "frame ", &head.place);
    text.mark(" marker ", head.opening.marked);
    text.number(" size ", head.opening.size as u64);
    text.signed(" version ", i64::from(head.facts.version));
    text.number(" type ", u64::from(head.facts.header.number()));
    text.number(" body ", head.body as u64);
    text.word("\n");
}

pub(crate) fn row<W: Write + Drop>(text: &mut Text<W>, k: usize, row: &Row) -> io::Result<()>
    ensures { OnOk result (text.new.len ≤ text.old.len + LINE) }
{
    text.make_room()?;
    row_words(text, k, row);
    Ok(())
}

fn row_words<W: Write + Drop>(text: &mut Text<W>, k: usize, row: &Row)
    requires { text.old.len + LINE ≤ ROOM }
    ensures least { text.old.len ≤ text.new.len }
    ensures most { text.new.len ≤ text.old.len + LINE }
{
    text.number("row ", k as u64);
    text.number(" kind ", u64::from(row.kind));
    text.number(" flag ", u64::from(row.flag));
    text.number(" tag ", u64::from(row.tag));
    text.number(" parameter ", u64::from(row.parameter));
    text.signed(" id ", row.id);
    text.number(" end ", u64::from(row.end));
    text.word("\n");
}

// What a batch says of itself, up to the end of the line.
fn facts<W: Write + Drop>(text: &mut Text<W>, facts: &BatchFacts)
    requires { text.old.len + 141 ≤ ROOM }
    ensures least { text.old.len ≤ text.new.len }
    ensures most { text.new.len ≤ text.old.len + 141 }
{
    text.signed(" length ", facts.length);
    text.mark(" compressed ", facts.compressed);
    text.mark(" missing ", facts.missing);
    text.number(" nodes ", facts.nodes as u64);
    text.number(" buffers ", facts.buffers as u64);
    text.number(" counts ", facts.counts as u64);
    text.word("\n");
}

pub(crate) fn batch<W: Write + Drop>(text: &mut Text<W>, data: &BatchFacts) -> io::Result<()>
    ensures { OnOk result (text.new.len ≤ text.old.len + LINE) }
{
    text.make_room()?;
    batch_words(text, data);
    Ok(())
}

fn batch_words<W: Write + Drop>(text: &mut Text<W>, data: &BatchFacts)
    requires { text.old.len + LINE ≤ ROOM }
    ensures least { text.old.len ≤ text.new.len }
    ensures most { text.new.len ≤ text.old.len + LINE }
{
    text.word("batch");
    facts(text, data);
}

pub(crate) fn dictionary<W: Write + Drop>(
    text: &mut Text<W>,
    id: i64,
    delta: bool,
    data: &BatchFacts,
) -> io::Result<()>
    ensures { OnOk result (text.new.len ≤ text.old.len + LINE) }
{
    text.make_room()?;
    dictionary_words(text, id, delta, data);
    Ok(())
}

fn dictionary_words<W: Write + Drop>(text: &mut Text<W>, id: i64, delta: bool, data: &BatchFacts)
    requires { text.old.len + LINE ≤ ROOM }
    ensures least { text.old.len ≤ text.new.len }
    ensures most { text.new.len ≤ text.old.len + LINE }
{
    text.signed("dictionary id ", id);
    text.mark(" delta ", delta);
    facts(text, data);
}

pub(crate) fn node<W: Write + Drop>(text: &mut Text<W>, k: usize, node: &Node) -> io::Result<()>
    ensures { OnOk result (text.new.len ≤ text.old.len + LINE) }
{
    text.make_room()?;
    node_words(text, k, node);
    Ok(())
}

fn node_words<W: Write + Drop>(text: &mut Text<W>, k: usize, node: &Node)
    requires { text.old.len + LINE ≤ ROOM }
    ensures least { text.old.len ≤ text.new.len }
    ensures most { text.new.len ≤ text.old.len + LINE }
{
    text.number("node ", k as u64);
    text.signed(" length ", node.length);
    text.signed(" nulls ", node.nulls);
    text.word("\n");
}

pub(crate) fn buffer<W: Write + Drop>(
    text: &mut Text<W>,
    k: usize,
    buffer: &Buffer,
) -> io::Result<()>
    ensures { OnOk result (text.new.len ≤ text.old.len + LINE) }
{
    text.make_room()?;
    buffer_words(text, k, buffer);
    Ok(())
}

fn buffer_words<W: Write + Drop>(text: &mut Text<W>, k: usize, buffer: &Buffer)
    requires { text.old.len + LINE ≤ ROOM }
    ensures least { text.old.len ≤ text.new.len }
    ensures most { text.new.len ≤ text.old.len + LINE }
{
    text.number("buffer ", k as u64);
    text.signed(" offset ", buffer.offset);
    text.signed(" length ", buffer.length);
    text.word("\n");
}

pub(crate) fn count<W: Write + Drop>(text: &mut Text<W>, k: usize, value: &i64) -> io::Result<()>
    ensures { OnOk result (text.new.len ≤ text.old.len + LINE) }
{
    text.make_room()?;
    count_words(text, k, value);
    Ok(())
}

fn count_words<W: Write + Drop>(text: &mut Text<W>, k: usize, value: &i64)
    requires { text.old.len + LINE ≤ ROOM }
    ensures least { text.old.len ≤ text.new.len }
    ensures most { text.new.len ≤ text.old.len + LINE }
{
    text.number("count ", k as u64);
    text.signed(" value ", *value);
    text.word("\n");
}

pub(crate) fn refused<W: Write + Drop>(text: &mut Text<W>, fault: &Fault) -> io::Result<()>
    ensures { OnOk result (text.new.len ≤ text.old.len + LINE) }
{
    text.make_room()?;
    refused_words(text, fault);
    Ok(())
}

fn refused_words<W: Write + Drop>(text: &mut Text<W>, fault: &Fault)
    requires { text.old.len + LINE ≤ ROOM }
    ensures least { text.old.len ≤ text.new.len }
    ensures most { text.new.len ≤ text.old.len + LINE }
{
    text.number("refused ", u64::from(fault.refusal.number()));
    if let Some(place) = &fault.place {
        placed(text, " message ", place);
    }
    text.word("\n");
}

pub(crate) fn finish<W: Write + Drop>(text: &mut Text<W>, end: &Result<(), Fault>) -> io::Result<()>
    ensures { OnOk result (text.new.len ≤ text.old.len + LINE) }
{
    text.make_room()?;
    finish_words(text, end);
    Ok(())
}

fn finish_words<W: Write + Drop>(text: &mut Text<W>, end: &Result<(), Fault>)
    requires { text.old.len + LINE ≤ ROOM }
    ensures least { text.old.len ≤ text.new.len }
    ensures most { text.new.len ≤ text.old.len + LINE }
{
    match end {
        Ok(()) => text.word("finish ok\n"),
        Err(fault) => {
            text.number("finish refused ", u64::from(fault.refusal.number()));
            text.word("\n");
        }
    }
}
