//! The end of a line, put together from its last byte to its first.
ghost use Rattle.std.specs.Fmt.{decimal};
ghost use Rattle.std.specs.Prelude.{◌≡◌, ◌+◌, ◌≤◌, ◌∷◌, ◌++◌, [], length};

use itoa::write_digits;
use std::marker::Model;

/// No line of an instruction has as many bytes.
pub(crate) const ROOM: usize = 80;

/// The last bytes of a line. Contracts see them as a list.
#[derive(Drop)]
pub(crate) struct LineEnd {
    bytes: [u8; ROOM],
    /// Where they begin.
    start: usize,
}

impl Model for LineEnd {
    ghost use Rattle.std.specs.Prelude.{◌≤◌, List, drop, ℕ};

    ghost Value = { List ℕ };

    ghost view = { λ l. drop l.start l.bytes };

    ghost invariant = { λ l. l.start ≤ 80 };
}

impl LineEnd {
    /// A line feed.
    pub(crate) fn new() -> LineEnd
        ensures { result ≡ 10 ∷ [] }
    {
        LineEnd {
            bytes: [b'\n'; ROOM],
            start: ROOM - 1,
        }
    }

    pub(crate) fn as_bytes(&self) -> &[u8]
        ensures { result.now ≡ self.now }
    {
        &self.bytes[self.start..]
    }

    /// Puts the bytes before what is there.
    pub(crate) fn put(&mut self, bytes: &[u8])
        requires { length bytes.now + length self.old ≤ ROOM }
        ensures { self.new ≡ bytes.now ++ self.old }
    {
        let start = self.start - bytes.len();
        self.bytes[start..self.start].copy_from_slice(bytes);
        self.start = start;
    }

    /// Puts a space and the word before what is there.
    pub(crate) fn put_word(&mut self, word: &[u8])
        requires { length word.now + 1 + length self.old ≤ ROOM }
        ensures { self.new ≡ 32 ∷ word.now ++ self.old }
    {
        self.put(word);
        self.put(b" ");
    }

    /// Puts a space and the number before what is there.
    #[inline(always)]
    pub(crate) fn put_number(&mut self, n: u32)
        requires { 11 + length self.old ≤ ROOM }
        ensures text { self.new ≡ 32 ∷ decimal n ++ self.old }
        ensures short { length self.new ≤ 11 + length self.old }
    {
        self.start = write_digits(u64::from(n), &mut self.bytes, self.start);
        self.put(b" ");
    }
}
