//! Bytes that are written one behind another.
ghost use Rattle.cmwq_verdict.specs.Cures.{sentence};
ghost use Rattle.std.specs.Prelude.{◌≡◌, ◌++◌, IfOk, OnOk};

use cmwq_types::NoMemory;
use std::alloc::Global;

/// Writes the bytes.
pub(crate) fn push_bytes(told: &mut Vec<u8>, bytes: &[u8]) -> Result<(), NoMemory>
    ensures { OnOk result (told.new.items ≡ told.old.items ++ bytes.now) }
{
    told.extend_from_slice(bytes)?;
    Ok(())
}

/// Writes these bytes, and others before them and behind them.
pub(crate) fn push_between(
    told: &mut Vec<u8>,
    before: &[u8],
    bytes: &[u8],
    behind: &[u8],
) -> Result<(), NoMemory>
    ensures { OnOk result (told.new.items ≡ told.old.items ++ (before.now ++ (bytes.now ++ behind.now))) }
{
    told.extend_from_slice(before)?;
    told.extend_from_slice(bytes)?;
    told.extend_from_slice(behind)?;
    Ok(())
}

/// Returns these bytes with others after them.
pub(crate) fn joined(alloc: Global, front: &[u8], bytes: &[u8]) -> Result<Vec<u8>, NoMemory>
    ensures { IfOk result (λ all. all.items ≡ front.now ++ bytes.now) }
{
    let mut all = Vec::from_slice(alloc, front)?;
    all.extend_from_slice(bytes)?;
    Ok(all)
}

/// Writes the line of these words, behind two blanks.
pub(crate) fn push_sentence(told: &mut Vec<u8>, words: &[u8]) -> Result<(), NoMemory>
    ensures { OnOk result (told.new.items ≡ told.old.items ++ sentence words.now) }
{
    push_between(told, b"  ", words, b"\n")
}
