// Types whose rows follow from one table.
ghost use Rattle.std.specs.Prelude.{◌≡◌};
ghost use Rattle.types.specs.Choices.{beside_z, between};
ghost use Rattle.types.specs.Types.{binary_row, decimal_row, decimal_width, fixed, int_row, int_widths, list_row, time_row, time_width, unit_row, width_by};

use crate::kinds;
use crate::shapes::Typed;
use tables::TableIn;

fn fixed(flag: u8, width: Option<u32>) -> Typed
    ensures { result ≡ fixed flag width }
{
    width.map_or(
        Typed::default(),
        |parameter| Typed {
            kind: kinds::FIXED,
            flag,
            parameter,
        },
    )
}

// A number of the type i32 that lies between two bounds.
fn between(low: u32, high: u32, n: i32) -> Option<u32>
    ensures { result ≡ between low high n }
{
    let n = u32::try_from(n).ok()?;
    (low..=high).contains(&n).then_some(n)
}

fn int_width(bits: i32) -> Option<u32>
    ensures { result ≡ beside_z int_widths bits }
{
    match bits {
        8 => Some(1),
        16 => Some(2),
        32 => Some(4),
        64 => Some(8),
        _ => None,
    }
}

#[tactic(auto, unfolding(crate::specs::Types::int_row))]
#[inline]
pub fn int_row(table: TableIn) -> Option<Typed>
    ensures { result ≡ int_row table.entry.bytes.now table.entry.table }
{
    let bits = table.scalar_or(0, 0i32)?;
    let signed = table.bool_or(1, false)?;
    Some(fixed(u8::from(signed), int_width(bits)))
}

fn width_by(widths: &[u32], unit: i16) -> Option<u32>
    ensures { result ≡ width_by widths.now unit }
{
    widths.get(usize::try_from(unit).ok()?).copied()
}

// A type by its unit or its precision.
#[tactic(auto, unfolding(crate::specs::Types::unit_row))]
pub(crate) fn unit_row(table: TableIn, default: i16, widths: &[u32]) -> Option<Typed>
    ensures { result ≡ unit_row default widths.now table.entry.bytes.now table.entry.table }
{
    let unit = table.scalar_or(0, default)?;
    Some(fixed(0, width_by(widths, unit)))
}

fn time_width(unit: i16, bits: i32) -> Option<u32>
    ensures { result ≡ time_width unit bits }
{
    match (bits, unit) {
        (32, 0 | 1) => Some(4),
        (64, 2 | 3) => Some(8),
        _ => None,
    }
}

#[tactic(auto, unfolding(crate::specs::Types::time_row))]
pub(crate) fn time_row(table: TableIn) -> Option<Typed>
    ensures { result ≡ time_row table.entry.bytes.now table.entry.table }
{
    let unit = table.scalar_or(0, 1i16)?;
    let bits = table.scalar_or(1, 32i32)?;
    Some(fixed(0, time_width(unit, bits)))
}

fn decimal_width(precision: i32, scale: i32, bits: i32) -> Option<u32>
    ensures { result ≡ decimal_width precision scale bits }
{
    if !(0..=255).contains(&precision) || !(-128..=127).contains(&scale) {
        return None;
    }
    match bits {
        32 => Some(4),
        64 => Some(8),
        128 => Some(16),
        256 => Some(32),
        _ => None,
    }
}

#[tactic(auto, unfolding(crate::specs::Types::decimal_row))]
pub(crate) fn decimal_row(table: TableIn) -> Option<Typed>
    ensures { result ≡ decimal_row table.entry.bytes.now table.entry.table }
{
    let precision = table.scalar_or(0, 0i32)?;
    let scale = table.scalar_or(1, 0i32)?;
    let bits = table.scalar_or(2, 128i32)?;
    Some(fixed(0, decimal_width(precision, scale, bits)))
}

#[tactic(auto, unfolding(crate::specs::Types::binary_row))]
pub(crate) fn binary_row(table: TableIn) -> Option<Typed>
    ensures { result ≡ binary_row table.entry.bytes.now table.entry.table }
{
    let width = table.scalar_or(0, 0i32)?;
    Some(fixed(0, between(1, 1024, width)))
}

#[tactic(auto, unfolding(crate::specs::Types::list_row))]
pub(crate) fn list_row(table: TableIn) -> Option<Typed>
    ensures { result ≡ list_row table.entry.bytes.now table.entry.table }
{
    let size = table.scalar_or(0, 0i32)?;
    let row = u32::try_from(size).map_or(
        Typed::default(),
        |parameter| Typed {
            kind: kinds::FIXED_SIZE_LIST,
            flag: 0,
            parameter,
        },
    );
    Some(row)
}
