// Schemas.
ghost use Rattle.std.specs.Prelude.{◌≡◌};
ghost use Rattle.std.specs.Option.{option_map};
ghost use Rattle.fields.specs.Walks.{held};
ghost use Rattle.flatbuf.specs.Flat.{schema_at};

use fields::{Rows, children_of, read_fields};
use tables::TableIn;

// The number of the byte order that is not read.
const BIG: i16 = 1;

#[tactic(auto, unfolding(crate::specs::Flat::schema_at))]
pub(crate) fn schema_at(bytes: &[u8], at: usize) -> Option<Rows>
    ensures { option_map held result ≡ schema_at bytes.now at }
{
    let table = TableIn::at(bytes, at)?;
    if table.scalar_or(0, 0i16)? == BIG {
        return None;
    }
    read_fields(bytes, children_of(table, 1)?)
}
