// The root of the metadata.
ghost use Rattle.std.specs.Prelude.{◌≡◌};
ghost use Rattle.flatbuf.specs.Flat.{head_at, header_table};

use message::headers;
use tables::{TableIn, follow};

/// What a message is about, by its header type, with the place of the header's table where that is read: `Header` before it
/// is read.
#[derive(Clone, Copy, Debug, PartialEq, Eq, Hash)]
pub enum HeaderTable {
    Empty,
    Schema { at: usize },
    DictionaryBatch { at: usize },
    RecordBatch { at: usize },
    Other { number: u8 },
}

/// A Message by its own table.
#[derive(Clone, Copy, Debug, PartialEq, Eq, Hash)]
pub struct Head {
    pub version: i16,
    pub body: i64,
    pub header: HeaderTable,
}

#[tactic(auto, unfolding(crate::specs::Flat::header_table))]
fn header_table(message: &TableIn, number: u8) -> Option<HeaderTable>
    ensures { result ≡ header_table message.now.bytes.now message.now.table number }
{
    match number {
        headers::NONE => Some(HeaderTable::Empty),
        headers::SCHEMA => message.target(2)?.map(|at| HeaderTable::Schema { at }),
        headers::DICTIONARY_BATCH => message
            .target(2)?
            .map(|at| HeaderTable::DictionaryBatch { at }),
        headers::RECORD_BATCH => message.target(2)?.map(|at| HeaderTable::RecordBatch { at }),
        number => Some(HeaderTable::Other { number }),
    }
}

#[tactic(auto, unfolding(crate::specs::Flat::head_at))]
pub(crate) fn head_at(bytes: &[u8]) -> Option<Head>
    ensures { result ≡ head_at bytes.now }
{
    let message = TableIn::at(bytes, follow(bytes, 0)?)?;
    let version = message.scalar_or(0, 0i16)?;
    let number = message.scalar_or(1, 0u8)?;
    let body = message.scalar_or(3, 0i64)?;
    let header = header_table(&message, number)?;
    Some(Head {
        version,
        body,
        header,
    })
}
