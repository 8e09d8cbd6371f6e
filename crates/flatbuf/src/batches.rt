// Batches of columns.
ghost use Rattle.std.specs.Prelude.{◌≡◌, pos, false};
ghost use Rattle.std.specs.Option.{option_map};
ghost use Rattle.flatbuf.specs.Flat.{batch_at, data_at, dictionary_at, parts_of, vector_of};
ghost use Rattle.flatbuf.specs.Shown.{dictionary_in, parts_in};

use little::Little;
use message::{Buffer, Items, Node};
use tables::{TableIn, vector};

// A batch: its length, its marks, and the parts of the bytes that its lists fill.
#[derive(Clone, Copy, Debug, PartialEq, Eq)]
pub(crate) struct Batch<'a> {
    pub(crate) long: i64,
    pub(crate) compressed: bool,
    // a mark of the format, and no flag: the lists are empty where it is set
    pub(crate) missing: bool,
    pub(crate) nodes: Items<'a, Node>,
    pub(crate) buffers: Items<'a, Buffer>,
    pub(crate) counts: Items<'a, i64>,
}

#[derive(Clone, Copy, Debug, PartialEq, Eq)]
pub(crate) struct DictionaryBatch<'a> {
    pub(crate) id: i64,
    pub(crate) delta: bool,
    pub(crate) data: Batch<'a>,
}

// A batch whose lists are missing.
pub(crate) fn no_batch() -> Batch<'static>
    ensures { parts_in result ≡ parts_of (pos 0) None None false None }
{
    parts_of(0, None, None, false, None)
}

// The items of the vector in a slot, where the field is there.
#[tactic(auto, unfolding(crate::specs::Flat::vector_of))]
fn vector_of<'a, T: Little>(table: TableIn<'a>, slot: u8) -> Option<Option<Items<'a, T>>>
    ensures { option_map (option_map (λ i. i.bytes.now)) result ≡ vector_of T.WIDTH table.entry.bytes.now table.entry.table slot }
{
    match table.target(slot)? {
        None => Some(None),
        Some(at) => vector(table.bytes, at, T::WIDTH).map(|bytes| Some(Items::new(bytes))),
    }
}

fn parts_of<'a>(
    long: i64,
    nodes: Option<Items<'a, Node>>,
    buffers: Option<Items<'a, Buffer>>,
    compressed: bool,
    counts: Option<Items<'a, i64>>,
) -> Batch<'a>
    ensures { parts_in result ≡ parts_of long (option_map (λ i. i.bytes.now) nodes.entry) (option_map (λ i. i.bytes.now) buffers.entry) compressed (option_map (λ i. i.bytes.now) counts.entry) }
{
    Batch {
        long,
        compressed,
        missing: nodes.is_none() || buffers.is_none(),
        nodes: nodes.unwrap_or_default(),
        buffers: buffers.unwrap_or_default(),
        counts: counts.unwrap_or_default(),
    }
}

#[tactic(auto, unfolding(crate::specs::Flat::batch_at))]
pub(crate) fn batch_at(bytes: &[u8], at: usize) -> Option<Batch<'_>>
    ensures { option_map parts_in result ≡ batch_at bytes.now at }
{
    let table = TableIn::at(bytes, at)?;
    let long = table.scalar_or(0, 0i64)?;
    let nodes = vector_of(table, 1)?;
    let buffers = vector_of(table, 2)?;
    let compressed = table.has(3)?;
    let counts = vector_of(table, 4)?;
    Some(parts_of(long, nodes, buffers, compressed, counts))
}

// By the place, as the definition goes: the batch's table is read behind the test for none.
fn data_at(bytes: &[u8], list: Option<usize>) -> Option<Batch<'_>>
    ensures { option_map parts_in result ≡ data_at bytes.now list }
{
    match list {
        None => Some(no_batch()),
        Some(at) => batch_at(bytes, at),
    }
}

#[tactic(auto, unfolding(crate::specs::Flat::dictionary_at))]
pub(crate) fn dictionary_at(bytes: &[u8], at: usize) -> Option<DictionaryBatch<'_>>
    ensures { option_map dictionary_in result ≡ dictionary_at bytes.now at }
{
    let table = TableIn::at(bytes, at)?;
    let id = table.scalar_or(0, 0i64)?;
    let delta = table.bool_or(2, false)?;
    let data = data_at(bytes, table.target(1)?)?;
    Some(DictionaryBatch { id, delta, data })
}
