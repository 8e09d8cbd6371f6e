// What a slip says of itself, without its lists.
ghost use Rattle.std.specs.Prelude.{◌≡◌, Some, Ok};
ghost use Rattle.message.specs.Messages.{batch_facts, header_of, facts_of};
ghost use Rattle.slip.specs.Slips.{columns_of, contents_of, message_of};
ghost use Rattle.slip.specs.Shown.{lists_in};

use crate::parts::Message;
use crate::trailers::{BODY, DELTA, ID, KIND, LONG, VERSION};
use message::{BatchFacts, Facts, Header, headers};

impl<'a> Message<'a> {
    // Of a batch or of a dictionary's data.
    fn batch_facts(&self) -> BatchFacts
        ensures { result ≡ batch_facts (columns_of self.now.trailer.bytes.now (lists_in self.now.parts)) }
    {
        BatchFacts {
            length: self.trailer.told(LONG),
            compressed: false,
            missing: false,
            nodes: self.parts.nodes.len(),
            buffers: self.parts.buffers.len(),
            counts: self.parts.counts.len(),
        }
    }

    // By the header type.
    fn header(&self) -> Header
        ensures { result ≡ header_of (contents_of self.now.trailer.bytes.now (lists_in self.now.parts)) }
    {
        match self.trailer.told(KIND) {
            headers::NONE => Header::Empty,
            headers::SCHEMA => Header::Schema {
                rows: self.parts.rows.len(),
            },
            headers::DICTIONARY_BATCH => Header::DictionaryBatch {
                id: self.trailer.told(ID),
                delta: self.trailer.told::<u8>(DELTA) == 1,
                data: self.batch_facts(),
            },
            headers::RECORD_BATCH => Header::RecordBatch {
                data: self.batch_facts(),
            },
            number => Header::Other { number },
        }
    }

    // The facts of the message.
    pub(crate) fn facts(&self) -> Facts
        ensures { Ok result ≡ facts_of (Some (message_of self.now.trailer.bytes.now (lists_in self.now.parts))) }
    {
        Facts {
            version: self.trailer.told(VERSION),
            body: self.trailer.told(BODY),
            header: self.header(),
        }
    }
}
