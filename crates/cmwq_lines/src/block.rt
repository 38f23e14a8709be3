//! A text that grows by short texts.
ghost use Rattle.cmwq_lines.specs.Putting.{repeated};
ghost use Rattle.std.specs.Fmt.{AppendsText};
ghost use Rattle.std.specs.Prelude.{◌≡◌, ◌+◌, ◌-◌, ◌*◌, ◌≤◌, ◌<◌, ◌++◌, [], OnOk, drop, length, take, ℕ};

use cmwq_types::NoMemory;
use std::alloc::Global;
use std::fmt;
use std::fmt::{Display, Write};
use std::marker::Model;

/// A text that grows at its end. Contracts see its bytes.
///
/// `write!` writes to it. It keeps room behind its end, so that a short text is put there by a copy of fixed length.
#[derive(Drop)]
pub struct Block {
    pub(crate) bytes: Vec<u8>,
    pub(crate) len: usize,
}

impl Model for Block {
    ghost use Rattle.std.specs.Prelude.{◌≤◌, List, length, take, ℕ};

    ghost Value = { List ℕ };

    ghost view = { λ block. take block.len block.bytes.items };

    ghost invariant = { λ block. block.len ≤ length block.bytes.items };
}

impl Block {
    /// No text, and no room yet.
    pub fn new(alloc: Global) -> Block
        ensures { result ≡ [] }
    {
        Block {
            bytes: Vec::new(alloc),
            len: 0,
        }
    }

    /// How many bytes the text has.
    pub fn len(&self) -> usize
        ensures { result ≡ length self.now }
    {
        self.len
    }

    /// The text's bytes.
    pub fn as_bytes(&self) -> &[u8]
        ensures { result.now ≡ self.now }
    {
        &self.bytes[..self.len]
    }

    /// Takes the text away, and keeps its room.
    pub fn clear(&mut self)
        ensures { self.new ≡ [] }
    {
        self.len = 0;
    }

    /// Makes room for so many bytes, so that no memory is taken as long as the text isn't longer by more.
    pub fn reserve(&mut self, more: usize) -> Result<(), NoMemory>
        ensures { self.new ≡ self.old }
    {
        let Block { bytes, len } = self;
        make_room(bytes, *len, more)
    }

    /// Writes what stands behind the first `start` bytes so many times more behind itself. It fails only for want of memory.
    pub fn repeat_end(&mut self, start: usize, more: u32) -> Result<(), NoMemory>
        requires { start ≤ length self.old }
        ensures { OnOk result (self.new ≡ self.old ++ repeated (drop start self.old) more) }
    {
        let Block { bytes, len } = self;
        let Some(added) = (*len - start).checked_mul(more as usize) else {
            return Err(NoMemory);
        };
        if added == 0 {
            return Ok(());
        }
        make_room(bytes, *len, added)?;
        let end = *len + added;
        copy_on(bytes.as_mut_slice(), start, *len, end);
        *len = end;
        Ok(())
    }

    /// Writes the text behind what is there. It fails also where the text's own `fmt` fails, as for a `String`; what is there then is lost.
    pub fn write_fmt<D: Display + Drop>(&mut self, text: D) -> Result<(), NoMemory>
        ensures { OnOk result (AppendsText self.old self.new (D.output text)) }
    {
        match self.write(text) {
            Ok(()) => Ok(()),
            Err(_) => Err(NoMemory),
        }
    }
}

impl Write for Block {
    ghost use Rattle.std.specs.Prelude.{◌≡◌, ◌++◌};

    ghost write_str_gives = { λ old bytes new. new ≡ old ++ bytes };

    fn write_str(&mut self, text: &str) -> fmt::Result {
        let Block { bytes, len } = self;
        if make_room(bytes, *len, text.len()).is_err() {
            return Err(fmt::Error);
        }
        let end = *len + text.len();
        bytes[*len..end].copy_from_slice(text.as_bytes());
        *len = end;
        Ok(())
    }
}

/// Makes room for so many bytes behind the first `len`.
#[inline(always)]
pub(crate) fn make_room(bytes: &mut Vec<u8>, len: usize, more: usize) -> Result<(), NoMemory>
    requires { len ≤ length bytes.old.items }
    ensures same { take len bytes.new.items ≡ take len bytes.old.items }
    ensures within { len ≤ length bytes.new.items }
    ensures room { OnOk result (len + more ≤ length bytes.new.items) }
{
    if bytes.len() - len >= more {
        return Ok(());
    }
    grow(bytes, more)
}

/// Adds so many bytes, of which none is of the text yet.
#[cold]
#[inline(never)]
fn grow(bytes: &mut Vec<u8>, more: usize) -> Result<(), NoMemory>
    ensures same { take (length bytes.old.items) bytes.new.items ≡ bytes.old.items }
    ensures room { OnOk result (length bytes.old.items + more ≤ length bytes.new.items) }
{
    let Some(len) = bytes.len().checked_add(more) else {
        return Err(NoMemory);
    };
    bytes.resize(len, 0)?;
    Ok(())
}

/// Copies what stands from `start` to `there` behind itself again and again up to `end`: each time all that stands there by then.
fn copy_on(bytes: &mut [u8], start: usize, there: usize, end: usize)
    requires some { start < there }
    requires within { (there ≤ end) × (end ≤ length bytes.old) }
    ensures long { length bytes.new ≡ length bytes.old }
    ensures text { (more : ℕ) → end ≡ there + more * (there - start) → take end bytes.new ≡ take there bytes.old ++ repeated (drop start (take there bytes.old)) more }
{
    let mut at = there;
    while at < end {
        let (done, free) = bytes.split_at_mut(at);
        let some = (at - start).min(end - at);
        free[..some].copy_from_slice(&done[start..start + some]);
        at += some;
    }
}
