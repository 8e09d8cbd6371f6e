// Text that is put together before it is written. By hand, for speed: the listing of 100,000 short messages takes 77 ms so,
// 165 ms by `write_all` to a `BufWriter` with itoa's `Buffer`, and 230 ms by `write!`.
ghost use Rattle.std.specs.Prelude.{◌≡◌, ◌+◌, ◌≤◌, length, decimal, OnOk};
ghost use Rattle.fegzund.specs.declared.text.TheConstants.{ROOM};

use itoa::write_digits;
use std::io::{Result, Write};

// How many bytes there is room for.
pub(crate) const ROOM: usize = 65536;

// How many bytes a line has at most.
pub(crate) const LINE: usize = 256;

// How many digits a number has at most.
const DIGITS: usize = 20;

// The first `len` bytes are the text.
#[derive(Drop)]
pub(crate) struct Text<W: Write + Drop> {
    out: W,
    bytes: [u8; ROOM],
    len: usize,
    ghost within: { len ≤ ROOM },
}

// Inlined always, so that the length of each word is known: 77 ms in place of 130.
impl<W: Write + Drop> Text<W> {
    pub(crate) fn new(out: W) -> Text<W> {
        Text {
            out,
            bytes: [0; ROOM],
            len: 0,
        }
    }

    pub(crate) fn flush(&mut self) -> Result<()>
        ensures { OnOk result (self.new.len ≡ 0) }
    {
        self.out.write_all(&self.bytes[..self.len])?;
        self.len = 0;
        Ok(())
    }

    // Writes the text where there may be no room for another line.
    #[inline(always)]
    pub(crate) fn make_room(&mut self) -> Result<()>
        ensures room { OnOk result (self.new.len + LINE ≤ ROOM) }
        ensures less { OnOk result (self.new.len ≤ self.old.len) }
    {
        if self.len > ROOM - LINE {
            self.flush()?;
        }
        Ok(())
    }

    #[inline(always)]
    pub(crate) fn word(&mut self, word: &str)
        requires { self.old.len + length word.now ≤ ROOM }
        ensures { self.new.len ≡ self.old.len + length word.now }
    {
        let end = self.len + word.len();
        self.bytes[self.len..end].copy_from_slice(word.as_bytes());
        self.len = end;
    }

    #[inline(always)]
    fn digits(&mut self, n: u64)
        requires { self.old.len + DIGITS ≤ ROOM }
        ensures least { self.old.len ≤ self.new.len }
        ensures most { self.new.len ≤ self.old.len + DIGITS }
    {
        let end = self.len + digit_count(n);
        write_digits(n, &mut self.bytes, end);
        self.len = end;
    }

    // A word and a number.
    #[inline(always)]
    pub(crate) fn number(&mut self, word: &str, n: u64)
        requires { self.old.len + length word.now + DIGITS ≤ ROOM }
        ensures least { self.old.len ≤ self.new.len }
        ensures most { self.new.len ≤ self.old.len + length word.now + DIGITS }
    {
        self.word(word);
        self.digits(n);
    }

    #[inline(always)]
    pub(crate) fn signed(&mut self, word: &str, n: i64)
        requires { self.old.len + length word.now + 1 + DIGITS ≤ ROOM }
        ensures least { self.old.len ≤ self.new.len }
        ensures most { self.new.len ≤ self.old.len + length word.now + 1 + DIGITS }
    {
        self.word(word);
        if n < 0 {
            self.word("-");
        }
        self.digits(n.unsigned_abs());
    }

    // A word and a mark.
    #[inline(always)]
    pub(crate) fn mark(&mut self, word: &str, mark: bool)
        requires { self.old.len + length word.now + 3 ≤ ROOM }
        ensures least { self.old.len ≤ self.new.len }
        ensures most { self.new.len ≤ self.old.len + length word.now + 3 }
    {
        self.word(word);
        if mark {
            self.word("yes");
        } else {
            self.word("no");
        }
    }
}

// Most numbers have one digit, so that is asked first.
fn digit_count(n: u64) -> usize
    ensures enough { length (decimal n) ≤ result }
    ensures most { result ≤ DIGITS }
{
    if n < 10 { 1 } else { n.ilog10() as usize + 1 }
}
