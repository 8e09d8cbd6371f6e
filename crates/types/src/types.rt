// The type of a field.
ghost use Rattle.std.specs.Prelude.{◌≡◌, Option};
ghost use Rattle.types.specs.Choices.{beside};
ghost use Rattle.tables.specs.declared.Table.{Table};
ghost use Rattle.types.specs.Types.{Tells, by_table, map_shape, plain_rows, plainly, row_of, shape_of, table_shape, table_types, union_shape};

use crate::fixed::{binary_row, decimal_row, int_row, list_row, time_row, unit_row};
use crate::shapes::{Shape, TableType, Tags, Typed};
use crate::unions::union_shape;
use crate::{kinds, numbers};
use tables::TableIn;

impl Shape {
    // A type whose children have no tags of their own.
    pub(crate) fn plain(row: Typed) -> Shape
        ensures { result ≡ plainly row }
    {
        Shape {
            row,
            tags: Tags::Zero,
        }
    }
}

// A type whose row needs no table.
fn plain_row(number: u8) -> Option<Typed>
    ensures { result ≡ beside plain_rows number }
{
    let (kind, flag) = match number {
        numbers::NULL => (kinds::NULL, 0),
        numbers::BOOL => (kinds::BOOL, 0),
        numbers::BINARY => (kinds::BINARY, 0),
        numbers::UTF8 => (kinds::BINARY, 1),
        numbers::LARGE_BINARY => (kinds::LARGE_BINARY, 0),
        numbers::LARGE_UTF8 => (kinds::LARGE_BINARY, 1),
        numbers::BINARY_VIEW => (kinds::VIEW, 0),
        numbers::UTF8_VIEW => (kinds::VIEW, 1),
        numbers::LIST => (kinds::LIST, 0),
        numbers::LARGE_LIST => (kinds::LARGE_LIST, 0),
        numbers::LIST_VIEW => (kinds::LIST_VIEW, 0),
        numbers::LARGE_LIST_VIEW => (kinds::LARGE_LIST_VIEW, 0),
        numbers::STRUCT => (kinds::STRUCT, 0),
        _ => return None,
    };
    Some(Typed {
        kind,
        flag,
        parameter: 0,
    })
}

// Types whose row is read from their table, by their numbers.
fn table_type(number: u8) -> Option<TableType>
    ensures { result ≡ beside table_types number }
{
    match number {
        numbers::INT => Some(TableType::Int),
        numbers::FLOATING_POINT => Some(TableType::FloatingPoint),
        numbers::DECIMAL => Some(TableType::Decimal),
        numbers::DATE => Some(TableType::Date),
        numbers::TIME => Some(TableType::Time),
        numbers::TIMESTAMP => Some(TableType::Timestamp),
        numbers::INTERVAL => Some(TableType::Interval),
        numbers::FIXED_SIZE_BINARY => Some(TableType::FixedSizeBinary),
        numbers::FIXED_SIZE_LIST => Some(TableType::FixedSizeList),
        numbers::DURATION => Some(TableType::Duration),
        _ => None,
    }
}

fn table_row(table: TableIn, of: TableType) -> Option<Typed>
    ensures { result ≡ row_of «of» table.entry.bytes.now table.entry.table }
{
    match of {
        TableType::Int => int_row(table),
        TableType::FloatingPoint => unit_row(table, 0, &[2, 4, 8]),
        TableType::Decimal => decimal_row(table),
        TableType::Date => unit_row(table, 1, &[4, 8]),
        TableType::Time => time_row(table),
        TableType::Timestamp => unit_row(table, 0, &[8, 8, 8, 8]),
        TableType::Interval => unit_row(table, 0, &[4, 8, 16]),
        TableType::FixedSizeBinary => binary_row(table),
        TableType::FixedSizeList => list_row(table),
        TableType::Duration => unit_row(table, 1, &[8, 8, 8, 8]),
    }
}

// A type that is read from its own table; without one it is unknown.
#[inline]
fn by_table<F: FnOnce(TableIn) -> Option<Shape>>(field: TableIn, read: F) -> Option<Shape>
    requires { F.IsAlwaysCallable read }
    ensures { (shape : Table → Option Shape) → Tells (F.post read) field.entry.bytes.now shape → result ≡ by_table field.entry.bytes.now field.entry.table shape }
{
    match field.child(3)? {
        Some(table) => read(table),
        None => Some(Shape::plain(Typed::default())),
    }
}

#[tactic(auto, unfolding(crate::specs::Types::map_shape))]
fn map_shape(field: TableIn) -> Option<Shape>
    ensures { result ≡ map_shape field.entry.bytes.now field.entry.table }
{
    let there = field.has(3)?;
    let row = Typed {
        kind: if there { kinds::LIST } else { kinds::OTHER },
        ..Typed::default()
    };
    Some(Shape::plain(row))
}

// The row of a field's type and its children's tags, by the type's number and how many children there are.
pub fn shape(field: TableIn, number: u8, children: u32) -> Option<Shape>
    ensures { result ≡ shape_of field.entry.bytes.now field.entry.table number children }
{
    if let Some(row) = plain_row(number) {
        return Some(Shape::plain(row));
    }
    match number {
        numbers::UNION => by_table(field, |table| union_shape(table, children)),
        numbers::MAP => map_shape(field),
        _ => match table_type(number) {
            Some(of) => by_table(field, |table| table_row(table, of).map(Shape::plain)),
            None => Some(Shape::plain(Typed::default())),
        },
    }
}
