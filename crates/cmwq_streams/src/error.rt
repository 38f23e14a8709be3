//! Why a command ended early.

use cmwq_asm::AsmError;
use cmwq_image::ImageError;
use cmwq_types::NoMemory;
use std::alloc::{AllocError, AllocFailed};
use thiserror::Error;

/// Why a command ended early.
#[derive(Clone, Copy, Debug, PartialEq, Eq, Error)]
pub enum PlayError {
    /// The reader failed.
    #[error("read")]
    Read,
    /// The writer failed, or took no bytes.
    #[error("write")]
    Write,
    /// The text isn't a scenario's.
    #[error("{0}")]
    Asm(AsmError),
    /// The bytes aren't a scenario's image.
    #[error("image: {0}")]
    Image(ImageError),
    /// The scenario hasn't as many actors as the command takes.
    #[error("actors")]
    Actors,
    /// More instructions would be issued than one run issues, or a history had no room for one more.
    #[error("full")]
    Full,
    /// A lock had no ticket left.
    #[error("tickets")]
    Tickets,
    /// The commands of a session are longer than a text may be.
    #[error("too long")]
    TooLong,
    /// The machine doesn't become quiet by `next` within the scenario's steps, nor within the instructions that one run issues.
    #[error("never quiet")]
    NeverQuiet,
    /// A picture of the whole span would have more columns than are drawn unasked.
    #[error("more than 500 columns: give --from and --to")]
    TooWide,
    /// No work of the scenario has the name that is asked for.
    #[error("no such work")]
    NoSuchWork,
    /// The flush that is asked for isn't given at the position that is asked for, or at none.
    #[error("no such flush")]
    NoSuchFlush,
    /// The run ends before the position that is asked for.
    #[error("past the end")]
    PastEnd,
    /// Memory ran out.
    #[error("no memory")]
    NoMemory,
}

impl From<AllocError> for PlayError {
    ghost use Rattle.std.specs.Prelude.{◌≡◌};
    ghost use Rattle.cmwq_streams.specs.declared.error.PlayError.TheVariants.{NoMemory as no_memory};

    ghost from_gives = { λ _ e. e ≡ no_memory };

    fn from(_refused: AllocError) -> PlayError {
        PlayError::NoMemory
    }
}

impl<T: Drop> From<AllocFailed<T>> for PlayError {
    ghost use Rattle.std.specs.Prelude.{◌≡◌};
    ghost use Rattle.cmwq_streams.specs.declared.error.PlayError.TheVariants.{NoMemory as no_memory};

    ghost from_gives = { λ _ e. e ≡ no_memory };

    fn from(_refused: AllocFailed<T>) -> PlayError {
        PlayError::NoMemory
    }
}

impl From<NoMemory> for PlayError {
    ghost use Rattle.std.specs.Prelude.{◌≡◌};
    ghost use Rattle.cmwq_streams.specs.declared.error.PlayError.TheVariants.{NoMemory as no_memory};

    ghost from_gives = { λ _ e. e ≡ no_memory };

    fn from(_refused: NoMemory) -> PlayError {
        PlayError::NoMemory
    }
}

/// A fault of the bytes is told as it is.
impl From<ImageError> for PlayError {
    ghost use Rattle.cmwq_streams.specs.Errors.{told_as};
    ghost use Rattle.std.specs.Prelude.{◌≡◌};

    ghost from_gives = { λ fault e. e ≡ told_as fault };

    fn from(fault: ImageError) -> PlayError {
        match fault {
            ImageError::NoMemory => PlayError::NoMemory,
            fault => PlayError::Image(fault),
        }
    }
}

impl From<AsmError> for PlayError {
    ghost use Rattle.cmwq_streams.specs.Errors.{text_told_as};
    ghost use Rattle.std.specs.Prelude.{◌≡◌};

    ghost from_gives = { λ fault e. e ≡ text_told_as fault };

    fn from(fault: AsmError) -> PlayError {
        match fault {
            AsmError::NoMemory => PlayError::NoMemory,
            fault => PlayError::Asm(fault),
        }
    }
}
