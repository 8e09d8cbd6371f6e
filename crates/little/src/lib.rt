// Little-endian numbers within bytes: each read answers the number, or nothing where the bytes do not have it whole.
#![tactic(auto)]

ghost use Rattle.std.specs.Prelude.{◌≡◌, ℕ, ◌+◌, ◌<◌, ◌≤◌, List, length, take, drop, Some, None, Option};
ghost use Rattle.std.proofs.Common.{rules, to_z, w16, w32, w64};
ghost use Rattle.little.specs.Numbers.{inside, number_in, number_inside, number_outside, signed_inside, signed_outside, u8_at, u16_at, u32_at, u64_at, i16_at, i32_at, i64_at};

/// What stands in bytes: a number, its lowest byte first, or a struct of such numbers.
pub trait Little: Sized {
    const WIDTH: usize;

    ghost WIDTH: { ℕ };

    // what so many bytes from a place on are read as
    ghost number: { List ℕ → ℕ → Self };

    // the same, where the bytes are there
    ghost number_at: { List ℕ → ℕ → Option Self };

    // What stands at a place, where the bytes have it whole.
    fn read_at(bytes: &[u8], at: usize) -> Option<Self>
        ensures { result ≡ number_at bytes.now at };

    ghost positive: { 0 < WIDTH };

    ghost whole: { (bs : List ℕ) (at : ℕ) → at + WIDTH ≤ length bs → number_at bs at ≡ Some (number bs at) };

    ghost cut: { (bs : List ℕ) (at : ℕ) → length bs < at + WIDTH → number_at bs at ≡ None };
}

/// So many bytes from a place on, where they are there.
pub fn bytes_at<const N: usize>(bytes: &[u8], at: usize) -> Option<[u8; N]>
    ensures { result ≡ inside N bytes.now at (take N (drop at bytes.now)) }
{
    bytes.get(at..)?.first_chunk().copied()
}

// Seven impls written out: none may be written by a macro of this repository.
impl Little for u8 {
    const WIDTH: usize = 1;

    ghost WIDTH = { 1 };

    ghost number = { number_in 1 };

    ghost number_at = { u8_at };

    ghost positive = { Prim.search rules };

    ghost whole = { number_inside 1 };

    ghost cut = { number_outside 1 };

    #[tactic(auto, using(crate::proofs::Spelled::byte_read))]
    fn read_at(bytes: &[u8], at: usize) -> Option<u8> {
        bytes.get(at).copied()
    }
}

impl Little for u16 {
    const WIDTH: usize = 2;

    ghost WIDTH = { 2 };

    ghost number = { number_in 2 };

    ghost number_at = { u16_at };

    ghost positive = { Prim.search rules };

    ghost whole = { number_inside 2 };

    ghost cut = { number_outside 2 };

    fn read_at(bytes: &[u8], at: usize) -> Option<u16> {
        bytes_at(bytes, at).map(u16::from_le_bytes)
    }
}

impl Little for u32 {
    const WIDTH: usize = 4;

    ghost WIDTH = { 4 };

    ghost number = { number_in 4 };

    ghost number_at = { u32_at };

    ghost positive = { Prim.search rules };

    ghost whole = { number_inside 4 };

    ghost cut = { number_outside 4 };

    fn read_at(bytes: &[u8], at: usize) -> Option<u32> {
        bytes_at(bytes, at).map(u32::from_le_bytes)
    }
}

impl Little for u64 {
    const WIDTH: usize = 8;

    ghost WIDTH = { 8 };

    ghost number = { number_in 8 };

    ghost number_at = { u64_at };

    ghost positive = { Prim.search rules };

    ghost whole = { number_inside 8 };

    ghost cut = { number_outside 8 };

    fn read_at(bytes: &[u8], at: usize) -> Option<u64> {
        bytes_at(bytes, at).map(u64::from_le_bytes)
    }
}

impl Little for i16 {
    const WIDTH: usize = 2;

    ghost WIDTH = { 2 };

    ghost number = { λ bs at. to_z w16 (number_in 2 bs at) };

    ghost number_at = { i16_at };

    ghost positive = { Prim.search rules };

    ghost whole = { signed_inside w16 2 };

    ghost cut = { signed_outside w16 2 };

    fn read_at(bytes: &[u8], at: usize) -> Option<i16> {
        bytes_at(bytes, at).map(i16::from_le_bytes)
    }
}

impl Little for i32 {
    const WIDTH: usize = 4;

    ghost WIDTH = { 4 };

    ghost number = { λ bs at. to_z w32 (number_in 4 bs at) };

    ghost number_at = { i32_at };

    ghost positive = { Prim.search rules };

    ghost whole = { signed_inside w32 4 };

    ghost cut = { signed_outside w32 4 };

    fn read_at(bytes: &[u8], at: usize) -> Option<i32> {
        bytes_at(bytes, at).map(i32::from_le_bytes)
    }
}

impl Little for i64 {
    const WIDTH: usize = 8;

    ghost WIDTH = { 8 };

    ghost number = { λ bs at. to_z w64 (number_in 8 bs at) };

    ghost number_at = { i64_at };

    ghost positive = { Prim.search rules };

    ghost whole = { signed_inside w64 8 };

    ghost cut = { signed_outside w64 8 };

    fn read_at(bytes: &[u8], at: usize) -> Option<i64> {
        bytes_at(bytes, at).map(i64::from_le_bytes)
    }
}
