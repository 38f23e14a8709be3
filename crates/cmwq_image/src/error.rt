//! Why bytes aren't the image of a valid scenario.

use cmwq_types::{Fault, NoMemory};
use std::alloc::{AllocError, AllocFailed};
use thiserror::Error;

/// Why bytes aren't the image of a valid scenario.
#[derive(Clone, Copy, Debug, PartialEq, Eq, Error)]
pub enum ImageError {
    /// They don't begin with `CMWQ`.
    #[error("Magic")]
    Magic,
    /// The version is none of 1 to 4.
    #[error("Version")]
    Version,
    /// They end before a field does.
    #[error("Truncated")]
    Truncated,
    /// They go on after the last field.
    #[error("Extra")]
    Extra,
    /// The field that begins at this offset, in bytes from 0, can't have its value.
    #[error("BadField {0}")]
    BadField(u32),
    /// They are the image of a scenario that isn't valid.
    #[error("{0}")]
    Fault(Fault),
    /// Memory ran out.
    #[error("no memory")]
    NoMemory,
}

impl From<AllocError> for ImageError {
    ghost use Rattle.std.specs.Prelude.{◌≡◌};
    ghost use Rattle.cmwq_image.specs.declared.error.ImageError.TheVariants.{NoMemory as no_memory};

    ghost from_gives = { λ _ e. e ≡ no_memory };

    fn from(_refused: AllocError) -> ImageError {
        ImageError::NoMemory
    }
}

impl<T: Drop> From<AllocFailed<T>> for ImageError {
    ghost use Rattle.std.specs.Prelude.{◌≡◌};
    ghost use Rattle.cmwq_image.specs.declared.error.ImageError.TheVariants.{NoMemory as no_memory};

    ghost from_gives = { λ _ e. e ≡ no_memory };

    fn from(_refused: AllocFailed<T>) -> ImageError {
        ImageError::NoMemory
    }
}

impl From<NoMemory> for ImageError {
    ghost use Rattle.std.specs.Prelude.{◌≡◌};
    ghost use Rattle.cmwq_image.specs.declared.error.ImageError.TheVariants.{NoMemory as no_memory};

    ghost from_gives = { λ _ e. e ≡ no_memory };

    fn from(_refused: NoMemory) -> ImageError {
        ImageError::NoMemory
    }
}
