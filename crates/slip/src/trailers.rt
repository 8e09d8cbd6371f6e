// The trailer of a slip.
ghost use Rattle.std.specs.Prelude.{◌≡◌, ◌+◌, ◌≤◌, true, false, length, MatchOption};
ghost use Rattle.slip.specs.Slips.{slip, trailer};

use little::Little;

// The bytes of a trailer.
pub(crate) const TRAILER: usize = 64;

// What the trailer says, by its place there. No struct of it all: most questions ask for a few of the numbers.
pub(crate) const VERSION: usize = 0;

pub(crate) const KIND: usize = 2;

pub(crate) const DELTA: usize = 3;

pub(crate) const BODY: usize = 4;

pub(crate) const LONG: usize = 12;

pub(crate) const ID: usize = 20;

pub(crate) const ROWS: usize = 28;

pub(crate) const NODES: usize = 36;

pub(crate) const BUFFERS: usize = 44;

pub(crate) const COUNTS: usize = 52;

const MARKER: usize = 60;

// The ASCII bytes SLP1, as a number.
const SLP1: u32 = 0x3150_4c53;

// Bytes that have a trailer: their last 64.
#[derive(Clone, Copy, Debug, PartialEq, Eq)]
pub(crate) struct Trailer<'a> {
    pub(crate) bytes: &'a [u8],
    ghost long: { 64 ≤ length bytes.now },
}

impl<'a> Trailer<'a> {
    // The trailer of bytes that are a slip.
    pub(crate) fn of(bytes: &'a [u8]) -> Option<Trailer<'a>>
        ensures { MatchOption result (slip bytes.now ≡ false) (λ t. (t.bytes.now ≡ bytes.now) × (slip bytes.now ≡ true)) }
    {
        if bytes.len() < TRAILER {
            return None;
        }
        let trailer = Trailer { bytes };
        let slip = trailer.told::<u32>(MARKER) == SLP1 && trailer.told::<u8>(DELTA) <= 1;
        slip.then_some(trailer)
    }

    // A number, by its place in the trailer.
    pub(crate) fn told<T: Little>(self, at: usize) -> T
        requires { at + T.WIDTH ≤ 64 }
        ensures { result ≡ T.number self.entry.bytes.now (trailer self.entry.bytes.now + at) }
    {
        T::read_at(self.bytes, self.bytes.len() - TRAILER + at).unwrap()
    }
}
