// Unions: the kind by the mode, and the children's tags by the type ids.
ghost use Rattle.std.specs.Prelude.{◌≡◌, ℕ, ◌*◌, nat_lt, length};
ghost use Rattle.little.specs.Numbers.{le};
ghost use Rattle.types.specs.Choices.{beside_z};
ghost use Rattle.types.specs.Types.{ids_fit, tags_of, union_by, union_kinds, union_shape};

use crate::kinds;
use crate::shapes::{Shape, Tags, Typed};
use tables::{TableIn, vector};

// Whether a type id is 0 to 127.
#[tactic(auto, using(little::proofs::Spelled::from_le_4))]
fn fits(id: &[u8; 4]) -> bool
    ensures { result ≡ nat_lt (le id.now) 128 }
{
    u32::from_le_bytes(*id) < 128
}

// Whether the first `n` type ids are 0 to 127.
fn ids_fit(ids: &[u8], n: u32) -> bool
    requires { length ids.now ≡ 4 * n }
    ensures { result ≡ ids_fit ids.now n }
{
    let (ids, _) = ids.as_chunks::<4>();
    ids.iter().all(fits)
}

// The tags of `n` children, where the type ids at `ids` can be used; nothing at all where they leave the bytes.
fn tags(bytes: &[u8], n: u32, ids: Option<usize>) -> Option<Option<Tags>>
    ensures { result ≡ tags_of bytes.now n ids }
{
    let Some(at) = ids else {
        return Some((n <= 128).then_some(Tags::Counted));
    };
    let list = vector(bytes, at, 4)?;
    let fit = list.len() == 4 * n as usize && ids_fit(list, n);
    Some(fit.then_some(Tags::Listed { at }))
}

fn union_kind(mode: i16) -> Option<u8>
    ensures { result ≡ beside_z union_kinds mode }
{
    match mode {
        0 => Some(kinds::SPARSE_UNION),
        1 => Some(kinds::DENSE_UNION),
        _ => None,
    }
}

fn union_by(kind: Option<u8>, tags: Option<Tags>) -> Shape
    ensures { result ≡ union_by kind tags }
{
    let Some((kind, tags)) = kind.zip(tags) else {
        return Shape::plain(Typed::default());
    };
    let row = Typed {
        kind,
        ..Typed::default()
    };
    Shape { row, tags }
}

#[tactic(auto, unfolding(crate::specs::Types::union_shape))]
pub(crate) fn union_shape(table: TableIn, n: u32) -> Option<Shape>
    ensures { result ≡ union_shape n table.entry.bytes.now table.entry.table }
{
    let mode = table.scalar_or(0, 0i16)?;
    let ids = table.target(1)?;
    let tags = tags(table.bytes, n, ids)?;
    Some(union_by(union_kind(mode), tags))
}
