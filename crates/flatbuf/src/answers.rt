// What the metadata answer.
ghost use Rattle.std.specs.Prelude.{◌≡◌};
ghost use Rattle.std.specs.Option.{option_map};
ghost use Rattle.message.specs.Items.{buffers_in, counts_in, nodes_in};
ghost use Rattle.message.specs.Messages.{batch_facts, buffers_of, counts_of, header_of, nodes_of, rows_of};
ghost use Rattle.fields.specs.Walks.{held};
ghost use Rattle.flatbuf.specs.Asked.{or_none, told_by};
ghost use Rattle.flatbuf.specs.Flat.{columns_in, contents_at, flat_meaning};
ghost use Rattle.flatbuf.specs.Shown.{parts_in};

use crate::batches::{Batch, batch_at, dictionary_at, no_batch};
use crate::heads::{HeaderTable, head_at};
use crate::schemas::schema_at;
use fields::Rows;
use message::{BatchFacts, Facts, Header};

// No `From`: its clause would say the same under another name.
fn batch_facts(batch: Batch) -> BatchFacts
    ensures { result ≡ batch_facts (columns_in (parts_in batch.entry)) }
{
    BatchFacts {
        length: batch.long,
        compressed: batch.compressed,
        missing: batch.missing,
        nodes: batch.nodes.len(),
        buffers: batch.buffers.len(),
        counts: batch.counts.len(),
    }
}

#[tactic(auto, unfolding(crate::specs::Flat::contents_at))]
fn header_at(bytes: &[u8], table: HeaderTable) -> Option<Header>
    ensures { result ≡ option_map header_of (contents_at bytes.now table) }
{
    let header = match table {
        HeaderTable::Empty => Header::Empty,
        HeaderTable::Schema { at } => Header::Schema {
            rows: schema_at(bytes, at)?.len(),
        },
        HeaderTable::DictionaryBatch { at } => {
            let batch = dictionary_at(bytes, at)?;
            Header::DictionaryBatch {
                id: batch.id,
                delta: batch.delta,
                data: batch_facts(batch.data),
            }
        }
        HeaderTable::RecordBatch { at } => Header::RecordBatch {
            data: batch_facts(batch_at(bytes, at)?),
        },
        HeaderTable::Other { number } => Header::Other { number },
    };
    Some(header)
}

#[tactic(auto, unfolding(crate::specs::Flat::flat_meaning))]
pub(crate) fn facts_of(bytes: &[u8]) -> Option<Facts>
    ensures { result ≡ told_by (flat_meaning bytes.now) }
{
    let head = head_at(bytes)?;
    let header = header_at(bytes, head.header)?;
    Some(Facts {
        version: head.version,
        body: head.body,
        header,
    })
}

// The rows of a schema.
#[tactic(auto, unfolding(crate::specs::Flat::contents_at, crate::specs::Flat::flat_meaning))]
pub(crate) fn rows_of(bytes: &[u8]) -> Option<Rows>
    ensures { or_none (option_map held result) ≡ rows_of (flat_meaning bytes.now) }
{
    let head = head_at(bytes)?;
    match head.header {
        HeaderTable::Schema { at } => schema_at(bytes, at),
        _ => None,
    }
}

// The batch of a record batch or a dictionary, and of any other message one with no lists.
#[tactic(auto, unfolding(crate::specs::Flat::contents_at, crate::specs::Flat::flat_meaning, message::specs::Listed::listed))]
pub(crate) fn batch_of(bytes: &[u8]) -> Batch<'_>
    ensures nodes { nodes_in result.nodes.bytes.now ≡ nodes_of (flat_meaning bytes.now) }
    ensures buffers { buffers_in result.buffers.bytes.now ≡ buffers_of (flat_meaning bytes.now) }
    ensures counts { counts_in result.counts.bytes.now ≡ counts_of (flat_meaning bytes.now) }
{
    let Some(head) = head_at(bytes) else {
        return no_batch();
    };
    let batch = match head.header {
        HeaderTable::DictionaryBatch { at } => dictionary_at(bytes, at).map(|found| found.data),
        HeaderTable::RecordBatch { at } => batch_at(bytes, at),
        _ => None,
    };
    batch.unwrap_or(no_batch())
}
