//! Short texts, and how they are put behind what a block has.
ghost use Rattle.cmwq_lines.specs.Putting.{Puts};
ghost use Rattle.std.specs.Prelude.{◌≡◌, ◌+◌, ◌≤◌, ◌<◌, ◌∷◌, length};

use std::marker::Model;

/// How many bytes a copy of a short text has.
pub(crate) const COPIED: usize = 24;

/// A text of at most 24 bytes, which is copied whole, with what lies behind it, since a copy of a fixed length is the cheapest.
/// Contracts see its bytes.
#[derive(Drop)]
pub(crate) struct Short {
    bytes: [u8; COPIED],
    len: u8,
}

impl Model for Short {
    ghost use Rattle.std.specs.Prelude.{◌≤◌, List, take, ℕ};

    ghost Value = { List ℕ };

    ghost view = { λ short. take short.len short.bytes };

    ghost invariant = { λ short. short.len ≤ 24 };
}

impl Short {
    /// A blank and the name.
    pub(crate) fn blank_and(name: &[u8]) -> Short
        requires { length name.now < 24 }
        ensures { result ≡ 32 ∷ name.now }
    {
        let mut bytes = [b' '; COPIED];
        let end = name.len() + 1;
        bytes[1..end].copy_from_slice(name);
        Short {
            bytes,
            len: end as u8,
        }
    }

    /// Puts the text behind the first `at` bytes, and answers where it ends.
    #[inline(always)]
    pub(crate) fn put(&self, block: &mut [u8], at: usize) -> usize
        requires { at + 24 ≤ length block.old }
        ensures text { Puts block.old at block.new result self.now }
        ensures short { length self.now ≤ 24 }
    {
        // A copy of a copy: what is put lies nowhere in the block, which the compiler then needs not ask at run time.
        let bytes = self.bytes;
        block[at..at + COPIED].copy_from_slice(&bytes);
        at + self.len as usize
    }
}

/// Puts the text behind the first `at` bytes, and answers where it ends.
#[inline(always)]
pub(crate) fn put_text<const N: usize>(block: &mut [u8], at: usize, text: [u8; N]) -> usize
    requires { at + N ≤ length block.old }
    ensures { Puts block.old at block.new result text.entry }
{
    let end = at + N;
    block[at..end].copy_from_slice(&text);
    end
}
