// What a field says of itself.
ghost use Rattle.std.specs.Prelude.{◌≡◌};
ghost use Rattle.little.specs.Maybe.{and_then};
ghost use Rattle.tables.specs.Tables.{target_of};
ghost use Rattle.fields.specs.Fields.{children_at, children_of, field_at, index_at, index_of, index_row, index_type};

use crate::parts::{Children, Field, Index};
use little::Little;
use tables::{TableIn, vector};
use types::{Typed, int_row, kinds, shape};

fn children_at(bytes: &[u8], list: Option<usize>) -> Option<Children>
    ensures { result ≡ children_at bytes.now list }
{
    let Some(at) = list else {
        return Some(Children::default());
    };
    let _ = vector(bytes, at, 4)?;
    let count = u32::read_at(bytes, at)?;
    Some(Children { at, count })
}

/// The vector of fields in a slot.
#[tactic(auto, unfolding(crate::specs::Fields::children_of))]
pub fn children_of(table: TableIn, slot: u8) -> Option<Children>
    ensures { result ≡ children_of table.entry.bytes.now table.entry.table slot }
{
    children_at(table.bytes, table.target(slot)?)
}

fn index_row(int: Typed, id: i64) -> Index
    ensures { result ≡ index_row int id }
{
    if int.kind == kinds::OTHER {
        return Index::default();
    }
    let row = Typed {
        kind: kinds::DICTIONARY,
        ..int
    };
    Index { row, id }
}

// The type of a dictionary's indices, by the dictionary's table.
fn index_type(dictionary: TableIn) -> Option<Typed>
    ensures { result ≡ and_then (target_of dictionary.entry.bytes.now dictionary.entry.table 1) (index_type dictionary.entry.bytes.now) }
{
    match dictionary.child(1)? {
        Some(table) => int_row(table),
        None => Some(Typed {
            kind: kinds::FIXED,
            flag: 1,
            parameter: 4,
        }),
    }
}

#[tactic(auto, unfolding(crate::specs::Fields::index_at))]
fn index_at(bytes: &[u8], at: usize) -> Option<Index>
    ensures { result ≡ index_at bytes.now at }
{
    let dictionary = TableIn::at(bytes, at)?;
    let id = dictionary.scalar_or(0, 0i64)?;
    let int = index_type(dictionary)?;
    Some(index_row(int, id))
}

// By the place, as the definition goes: the dictionary's table is read behind the test for none.
fn index_of(bytes: &[u8], dictionary: Option<usize>) -> Option<Option<Index>>
    ensures { result ≡ index_of bytes.now dictionary }
{
    match dictionary {
        None => Some(None),
        Some(at) => index_at(bytes, at).map(Some),
    }
}

#[tactic(auto, unfolding(crate::specs::Fields::field_at))]
pub(crate) fn field_at(bytes: &[u8], at: usize) -> Option<Field>
    ensures { result ≡ field_at bytes.now at }
{
    let table = TableIn::at(bytes, at)?;
    let number = table.scalar_or(2, 0u8)?;
    let children = children_of(table, 5)?;
    let shape = shape(table, number, children.count)?;
    let index = index_of(bytes, table.target(4)?)?;
    Some(Field {
        shape,
        index,
        children,
    })
}
