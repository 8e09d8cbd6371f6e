// How a frame opens: the continuation marker or none, and the size of its metadata.
ghost use Rattle.std.specs.Prelude.{◌≡◌, ◌<◌, take};
ghost use Rattle.framing.specs.Frames.{marks, opening};

use crate::decoder::{behind_marker, fill, opening_in};

// An opening that is whole.
#[derive(Clone, Copy, Debug, PartialEq, Eq, Hash)]
pub struct Opening {
    // whether it has the marker
    pub marked: bool,
    // how many bytes of metadata follow
    pub size: usize,
}

impl Opening {
    // How many bytes it has.
    pub(crate) fn len(&self) -> usize
        ensures { result ≡ opening self.now.marked }
    {
        opening_len(self.marked)
    }
}

pub(crate) fn opening_len(marked: bool) -> usize
    ensures { result ≡ opening marked }
{
    if marked { 8 } else { 4 }
}

// The first `got` bytes of an opening, which has more. They are no `ArrayVec`: a state is `Copy`, and that is not.
#[derive(Clone, Copy, Debug, PartialEq, Eq, Hash)]
pub struct OpeningBytes {
    pub(crate) bytes: [u8; 8],
    pub(crate) got: usize,
    ghost more: { got < opening (marks (take got bytes)) },
}

// By hand: no derive knows the bound above.
impl Default for OpeningBytes {
    ghost is_default = { λ s. s.got ≡ 0 };

    fn default() -> OpeningBytes {
        OpeningBytes {
            bytes: [0; 8],
            got: 0,
        }
    }
}

impl OpeningBytes {
    ghost use Rattle.std.specs.Prelude.{◌==◌, ◌-◌, min, [], ◌∷◌, ◌++◌, Some, length, MatchResult};
    ghost use Rattle.framing.specs.Turns.{opening_in};

    pub(crate) fn is_empty(self) -> bool
        ensures { result ≡ (length (take self.got self.bytes) == 0) }
    {
        self.got == 0
    }

    // Takes all but the last of the bytes that are known to belong to the opening; how many they are.
    pub(crate) fn fill(&mut self, rest: &[u8]) -> usize
        requires { 0 < length rest.now }
        ensures all { result ≡ min (opening (marks (take self.old.got self.old.bytes)) - 1 - self.old.got) (length rest.now - 1) }
        ensures count { result < length rest.now }
        ensures bytes { take self.new.got self.new.bytes ≡ take self.old.got self.old.bytes ++ take result rest.now }
    {
        let marked = behind_marker(&self.bytes[..self.got]).is_some();
        let last = opening_len(marked) - 1;
        let used = fill(&mut self.bytes, self.got, last, &rest[..rest.len() - 1]);
        self.got += used;
        used
    }

    // With one byte more: the opening where that makes it whole, or what there is of it.
    pub(crate) fn with(self, b: u8) -> Result<Opening, OpeningBytes>
        ensures { let got = take self.got self.bytes ++ b ∷ [] in MatchResult result (λ o. opening_in got ≡ Some o) (λ s. take s.got s.bytes ≡ got) }
    {
        let mut bytes = self.bytes;
        bytes[self.got] = b;
        let got = self.got + 1;
        // no `ok_or`: it would make what there is of an opening also where the opening is whole
        match opening_in(&bytes[..got]) {
            Some(opening) => Ok(opening),
            None => Err(OpeningBytes { bytes, got }),
        }
    }
}
