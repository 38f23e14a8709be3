//! The name of a queue, a work or an actor.
ghost use Rattle.std.specs.List.{list_all};
ghost use Rattle.std.specs.Prelude.{◌≡◌, ◌↔◌, IfSome, IsSome, IsTrue, Some};
ghost use Rattle.cmwq_types.specs.Name.{is_name, is_name_byte};

use crate::limits::MAX_NAME;
use std::fmt;
use std::marker::Model;

/// A name: 1 to 15 bytes, the first of them `a` to `z`, the others `a` to `z`, `0` to `9` or `_`.
///
/// The rule is this project's own.
#[derive(Clone, Copy, PartialEq, Eq)]
pub struct Name {
    bytes: [u8; 15],
    len: u8,
}

impl Model for Name {
    ghost use Rattle.std.specs.Prelude.{List, ℕ, take};

    ghost Value = { List ℕ };

    ghost use Rattle.cmwq_types.specs.Name.{IsStored};
    ghost use Rattle.cmwq_types.specs.StoredName.{stored, stored_again};

    ghost view = { λ a. take a.len a.bytes };

    ghost invariant = { λ a. IsStored a.bytes a.len };

    ghost inverse = { stored };

    ghost inverse_ok = { stored_again };
}

impl Name {
    /// The name with exactly these bytes, or `None` where they are no name.
    pub fn read(bytes: &[u8]) -> Option<Name>
        ensures name { IfSome result (λ name. name ≡ bytes.now) }
        ensures exact { IsSome result ↔ IsTrue (is_name bytes.now) }
    {
        if !is_name_text(bytes) {
            return None;
        }
        let mut padded = [0u8; 15];
        padded[..bytes.len()].copy_from_slice(bytes);
        Some(Name {
            bytes: padded,
            len: bytes.len() as u8,
        })
    }

    /// The bytes of the name, 1 to 15.
    pub fn as_bytes(&self) -> &[u8]
        ensures bytes { result.now ≡ self.now }
        ensures name { IsTrue (is_name result.now) }
    {
        &self.bytes[..self.len as usize]
    }

    /// The name as a text.
    pub fn as_str(&self) -> &str
        ensures { result.now ≡ self.now }
    {
        str::from_utf8(self.as_bytes()).unwrap()
    }
}

impl fmt::Display for Name {
    ghost output = { λ name. Some name };

    fn fmt<W: fmt::Write>(&self, f: &mut fmt::Formatter<W>) -> fmt::Result {
        f.write_str(self.as_str())
    }
}

/// Whether the bytes are a name.
fn is_name_text(bytes: &[u8]) -> bool
    ensures { result ≡ is_name bytes.now }
{
    if bytes.is_empty() || bytes.len() > MAX_NAME {
        return false;
    }
    bytes[0].is_ascii_lowercase() && all_may_stand(bytes)
}

/// Whether each byte may stand in a name.
fn all_may_stand(bytes: &[u8]) -> bool
    ensures { result ≡ list_all is_name_byte bytes.now }
{
    bytes.iter().all(|byte| may_stand(*byte))
}

/// Whether the byte may stand in a name.
fn may_stand(byte: u8) -> bool
    ensures { result ≡ is_name_byte byte }
{
    matches!(byte, b'a'..=b'z' | b'0'..=b'9' | b'_')
}
