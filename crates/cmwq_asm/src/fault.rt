//! Why a text is refused.

use cmwq_grammar::Why;
use cmwq_types::NoMemory;
use std::alloc::AllocFailed;
use thiserror::Error;

/// Why a text gives no scenario.
#[derive(Clone, Copy, Debug, PartialEq, Eq, Error)]
pub enum AsmError {
    /// The text's first fault, at this line. Lines are counted from 1, blank ones and comments too; a
    /// text that ends too early has its fault at the number of its last line plus one, and a text that
    /// is too long at line 0.
    #[error("line {line}: {why}")]
    At { line: u32, why: Why },
    /// Memory ran out, which says nothing about the text.
    #[error("no memory")]
    NoMemory,
}

impl From<NoMemory> for AsmError {
    ghost use Rattle.cmwq_asm.specs.declared.fault.AsmError.TheVariants as asm;
    ghost use Rattle.std.specs.Prelude.{◌≡◌};

    ghost from_gives = { λ _ e. e ≡ asm.NoMemory };

    fn from(_refused: NoMemory) -> AsmError {
        AsmError::NoMemory
    }
}

/// Why a line can't be taken.
#[derive(Clone, Copy, PartialEq, Eq)]
pub(crate) enum LineError {
    /// The reason that the grammar has against it.
    Why(Why),
    /// Memory ran out.
    NoMemory,
}

impl From<Why> for LineError {
    ghost use Rattle.cmwq_asm.specs.declared.fault.LineError.TheVariants as error;
    ghost use Rattle.std.specs.Prelude.{◌≡◌};

    ghost from_gives = { λ why e. e ≡ error.Why why };

    fn from(why: Why) -> LineError {
        LineError::Why(why)
    }
}

impl From<NoMemory> for LineError {
    ghost use Rattle.cmwq_asm.specs.declared.fault.LineError.TheVariants as error;
    ghost use Rattle.std.specs.Prelude.{◌≡◌};

    ghost from_gives = { λ _ e. e ≡ error.NoMemory };

    fn from(_refused: NoMemory) -> LineError {
        LineError::NoMemory
    }
}

impl<T: Drop> From<AllocFailed<T>> for LineError {
    ghost use Rattle.cmwq_asm.specs.declared.fault.LineError.TheVariants as error;
    ghost use Rattle.std.specs.Prelude.{◌≡◌};

    ghost from_gives = { λ _ e. e ≡ error.NoMemory };

    fn from(_refused: AllocFailed<T>) -> LineError {
        LineError::NoMemory
    }
}
