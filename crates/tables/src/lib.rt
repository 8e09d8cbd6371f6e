// FlatBuffers, as far as they are read: tables, vtables, fields and vectors within bytes.
// A place that no table stands at is a number beside the bytes: a struct of the two would be taken apart at each read.
// A read that leaves the bytes answers nothing, and a field that is absent is a `None` within. No error enum stands for the
// first: a read can fail in one way, and no caller asks for a reason.
#![tactic(auto)]

ghost use Rattle.std.specs.Prelude.{◌≡◌, ℕ, ◌+◌, ◌*◌, ◌<◌, IfSome};
ghost use Rattle.std.specs.Option.{option_map};
ghost use Rattle.tables.specs.Tables.{place_in, vtable_place, table_at, field_place, field_of, scalar_of, bool_of, present_of, leads, target_of, child_of, vector_at, item_of};

use little::Little;

// Reads of a table are inlined: with them and the like in `types`, the rows of a large schema were read 17 per cent quicker.

// The place `by` bytes behind `at`, where it lies within the bytes.
#[tactic(auto, unfolding(crate::specs::Tables::place_in))]
fn place(bytes: &[u8], at: usize, by: usize) -> Option<usize>
    ensures { result ≡ place_in bytes.now (at + by) }
{
    let to = at.checked_add(by)?;
    (to <= bytes.len()).then_some(to)
}

fn vtable_place(bytes: &[u8], at: usize, back: i32) -> Option<usize>
    ensures { result ≡ vtable_place bytes.now at back }
{
    let by = back.unsigned_abs() as usize;
    if back < 0 {
        place(bytes, at, by)
    } else {
        at.checked_sub(by)
    }
}

// The place of a field that stands `by` bytes behind its table; 0 says that there is none.
fn field_place(bytes: &[u8], at: usize, by: u16) -> Option<Option<usize>>
    ensures { result ≡ field_place bytes.now at by }
{
    match by {
        0 => Some(None),
        by => place(bytes, at, by as usize).map(Some),
    }
}

/// A table: its own place, and the place and the length of its vtable.
#[derive(Clone, Copy, Debug, PartialEq, Eq, Hash)]
pub struct Table {
    pub at: usize,
    pub vtable: usize,
    pub size: u16,
}

/// A table, with the bytes that it lies within.
#[derive(Clone, Copy, Debug, PartialEq, Eq)]
pub struct TableIn<'a> {
    pub bytes: &'a [u8],
    pub table: Table,
}

impl<'a> TableIn<'a> {
    /// The table at a place.
    #[tactic(auto, unfolding(crate::specs::Tables::table_at))]
    #[inline]
    pub fn at(bytes: &'a [u8], at: usize) -> Option<TableIn<'a>>
        ensures table { option_map (λ t. t.table) result ≡ table_at bytes.now at }
        ensures within { IfSome result (λ t. t.bytes.now ≡ bytes.now) }
    {
        let back = i32::read_at(bytes, at)?;
        let vtable = vtable_place(bytes, at, back)?;
        let size = u16::read_at(bytes, vtable)?;
        Some(TableIn {
            bytes,
            table: Table { at, vtable, size },
        })
    }

    // The place of the field in a slot.
    #[tactic(auto, unfolding(crate::specs::Tables::field_of))]
    #[inline]
    fn field(&self, slot: u8) -> Option<Option<usize>>
        ensures { result ≡ field_of self.now.bytes.now self.now.table slot }
    {
        let entry = 4 + 2 * slot as usize;
        if entry + 2 > self.table.size as usize {
            return Some(None);
        }
        let p = place(self.bytes, self.table.vtable, entry)?;
        let by = u16::read_at(self.bytes, p)?;
        field_place(self.bytes, self.table.at, by)
    }

    /// The number in a slot, or its default where the field is absent.
    #[inline]
    pub fn scalar_or<T: Little + Copy>(&self, slot: u8, default: T) -> Option<T>
        ensures { result ≡ scalar_of T.number_at default self.now.bytes.now self.now.table slot }
    {
        match self.field(slot)? {
            None => Some(default),
            Some(p) => T::read_at(self.bytes, p),
        }
    }

    /// A Bool is a byte, true where it is not 0.
    #[inline]
    pub fn bool_or(&self, slot: u8, default: bool) -> Option<bool>
        ensures { result ≡ bool_of default self.now.bytes.now self.now.table slot }
    {
        self.scalar_or(slot, u8::from(default)).map(|b| b != 0)
    }

    /// Whether a field that leads elsewhere is there.
    #[inline]
    pub fn has(&self, slot: u8) -> Option<bool>
        ensures { result ≡ present_of self.now.bytes.now self.now.table slot }
    {
        match self.field(slot)? {
            None => Some(false),
            Some(p) => u32::read_at(self.bytes, p).map(|_| true),
        }
    }

    /// The place of the table or vector that a field leads to.
    #[inline]
    pub fn target(&self, slot: u8) -> Option<Option<usize>>
        ensures { result ≡ target_of self.now.bytes.now self.now.table slot }
    {
        match self.field(slot)? {
            None => Some(None),
            Some(p) => follow(self.bytes, p).map(Some),
        }
    }

    /// The table that a field leads to.
    #[inline]
    pub fn child(&self, slot: u8) -> Option<Option<TableIn<'a>>>
        ensures table { option_map (option_map (λ t. t.table)) result ≡ child_of self.now.bytes.now self.now.table slot }
        ensures within { IfSome result (λ o. IfSome o (λ t. t.bytes.now ≡ self.now.bytes.now)) }
    {
        match self.target(slot)? {
            None => Some(None),
            Some(at) => TableIn::at(self.bytes, at).map(Some),
        }
    }
}

/// The place that the offset at `at` leads to.
#[tactic(auto, unfolding(crate::specs::Tables::leads))]
pub fn follow(bytes: &[u8], at: usize) -> Option<usize>
    ensures { result ≡ leads bytes.now at }
{
    let by = u32::read_at(bytes, at)?;
    place(bytes, at, by as usize)
}

/// The place that item k of a vector of offsets leads to.
#[tactic(auto, unfolding(crate::specs::Tables::item_of))]
pub fn item(bytes: &[u8], at: usize, k: u32) -> Option<usize>
    ensures { result ≡ item_of bytes.now at k }
{
    let p = place(bytes, at, 4 + 4 * k as usize)?;
    follow(bytes, p)
}

/// The items of a vector, `width` bytes each.
#[tactic(auto, unfolding(crate::specs::Tables::vector_at))]
pub fn vector(bytes: &[u8], at: usize, width: usize) -> Option<&[u8]>
    ensures { option_map (λ p. p.now) result ≡ vector_at width bytes.now at }
{
    let count = u32::read_at(bytes, at)?;
    let items = bytes.get(at..)?.get(4..)?;
    items.get(..(count as usize).checked_mul(width)?)
}
