// Nested fields as rows: a field is read within the one above it, and the depth that is left falls.
ghost use Rattle.std.specs.Prelude.{◌≡◌, ◌+◌, ◌^◌, ◌<◌, length};
ghost use Rattle.std.specs.Option.{option_map};
ghost use Rattle.fields.specs.Fields.{tag_of};
ghost use Rattle.fields.specs.Walks.{Reads, child_rows, held, index_rows, kids_of, plain_rows, row_of, rows_at, walk_at};

use crate::parts::{Children, Field, Index, Refused};
use crate::reads::field_at;
use crate::rows::Rows;
use little::Little;
use message::Row;
use tables::item;
use types::{Tags, Typed};

// How deep the rows of a schema go at most.
const DEPTH: u8 = 16;

// The tag of child k.
fn tag_of(bytes: &[u8], tags: Tags, k: u32) -> u8
    ensures { result ≡ tag_of bytes.now tags k }
{
    match tags {
        Tags::Zero => 0,
        Tags::Counted => (k % 256) as u8,
        Tags::Listed { at } => at
            .checked_add(4 + 4 * k as usize)
            .and_then(|p| u8::read_at(bytes, p))
            .unwrap_or(0),
    }
}

fn row_of(of: Typed, tag: u8, id: i64, end: usize) -> Row
    requires { «end» < 2 ^ 32 }
    ensures { result ≡ row_of «of» tag id «end» }
{
    Row {
        kind: of.kind,
        flag: of.flag,
        tag,
        parameter: of.parameter,
        id,
        end: end as u32,
    }
}

// Plain functions that call each other, and no struct for what they hand on: that is the form of nested fields here.

// Fields, one after the other: each whole before the next.
#[cycle(walk)]
fn read_children(
    bytes: &[u8],
    children: Children,
    tags: Tags,
    depth: u8,
    rows: &mut Rows,
) -> Result<(), Refused>
    ensures { Reads (child_rows (walk_at depth bytes.now) bytes.now tags children.at children.count 0 (length (held rows.old))) result (held rows.old) (held rows.new) }
{
    // by number, which a child's place and its tag are looked up by
    for k in 0..children.count {
        let at = item(bytes, children.at, k).ok_or(Refused)?;
        read_field(bytes, at, tag_of(bytes, tags, k), depth, rows)?;
    }
    Ok(())
}

// The field at a place, with what is below it.
#[cycle(walk)]
fn read_field(bytes: &[u8], at: usize, tag: u8, depth: u8, rows: &mut Rows) -> Result<(), Refused>
    ensures { Reads (walk_at depth bytes.now (length (held rows.old)) at tag) result (held rows.old) (held rows.new) }
{
    if depth == 0 {
        return Err(Refused);
    }
    let field = field_at(bytes, at).ok_or(Refused)?;
    match field.index {
        None => read_plain(bytes, field, tag, depth - 1, rows),
        Some(_) if depth == 1 => Err(Refused),
        Some(index) => read_indexed(bytes, field, index, tag, depth - 2, rows),
    }
}

// A field without a dictionary: its own row, and its children's.
#[cycle(walk)]
fn read_plain(
    bytes: &[u8],
    field: Field,
    tag: u8,
    depth: u8,
    rows: &mut Rows,
) -> Result<(), Refused>
    ensures { Reads (option_map (plain_rows (length (held rows.old)) tag field.shape.row) (kids_of (walk_at depth bytes.now) bytes.now field (length (held rows.old) + 1))) result (held rows.old) (held rows.new) }
{
    let own = rows.len();
    rows.push(Row::default())?;
    read_children(bytes, field.children, field.shape.tags, depth, rows)?;
    let end = rows.len();
    rows.put(own, row_of(field.shape.row, tag, 0, end));
    Ok(())
}

// A dictionary field: the row of its indices, the row of its values, and their children's.
#[cycle(walk)]
fn read_indexed(
    bytes: &[u8],
    field: Field,
    index: Index,
    tag: u8,
    depth: u8,
    rows: &mut Rows,
) -> Result<(), Refused>
    ensures { Reads (option_map (index_rows (length (held rows.old)) tag index field.shape.row) (kids_of (walk_at depth bytes.now) bytes.now field (length (held rows.old) + 2))) result (held rows.old) (held rows.new) }
{
    let own = rows.len();
    rows.push(Row::default())?;
    rows.push(Row::default())?;
    read_children(bytes, field.children, field.shape.tags, depth, rows)?;
    let end = rows.len();
    rows.put(own, row_of(index.row, tag, index.id, end));
    rows.put(own + 1, row_of(field.shape.row, 0, 0, end));
    Ok(())
}

/// The rows of a vector of fields.
pub fn read_fields(bytes: &[u8], fields: Children) -> Option<Rows>
    ensures { option_map held result ≡ rows_at bytes.now fields }
{
    let mut rows = Rows::new();
    read_children(bytes, fields, Tags::Zero, DEPTH, &mut rows).ok()?;
    Some(rows)
}
