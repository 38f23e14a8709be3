//! Want of memory, and vectors that are filled at once.
ghost use Rattle.std.specs.Prelude.{◌≡◌, IfOk, replicate};

use std::alloc::{AllocError, AllocFailed, Global};
use thiserror::Error;

/// Memory ran out: a growth was refused. Nothing that the caller holds has changed.
#[derive(Clone, Copy, Debug, PartialEq, Eq, Error)]
#[error("no memory")]
pub struct NoMemory;

impl From<AllocError> for NoMemory {
    fn from(_refused: AllocError) -> NoMemory {
        NoMemory
    }
}

impl<T: Drop> From<AllocFailed<T>> for NoMemory {
    fn from(_refused: AllocFailed<T>) -> NoMemory {
        NoMemory
    }
}

/// A vector with one value at each of so many places. The only error is want of memory.
pub fn filled<T: Copy>(alloc: Global, value: T, len: usize) -> Result<Vec<T>, NoMemory>
    ensures { IfOk result (λ v. v.items ≡ replicate len value) }
{
    let mut v = Vec::with_capacity(alloc, len)?;
    v.resize(len, value)?;
    Ok(v)
}
