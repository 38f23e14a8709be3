//! Why a queue's `max_active` isn't varied.

use cmwq_streams::PlayError;
use cmwq_types::NoMemory;
use std::alloc::{AllocError, AllocFailed};
use thiserror::Error;

/// Why a queue's `max_active` isn't varied.
#[derive(Clone, Copy, Debug, PartialEq, Eq, Error)]
pub enum SweepError {
    /// As a run: the reader or the writer failed, the text has a fault, it hasn't one actor or that has too many instructions, or
    /// memory ran out.
    #[error("{0}")]
    Play(PlayError),
    /// No queue of the scenario has the name that is asked for.
    #[error("no such queue")]
    NoSuchQueue,
    /// The queue is ordered: its `max_active` is 1 for good.
    #[error("ordered")]
    Ordered,
}

impl From<PlayError> for SweepError {
    ghost use Rattle.cmwq_sweep.specs.declared.error.SweepError.TheVariants.{Play as play};
    ghost use Rattle.std.specs.Prelude.{◌≡◌};

    ghost from_gives = { λ why e. e ≡ play why };

    fn from(why: PlayError) -> SweepError {
        SweepError::Play(why)
    }
}

impl From<NoMemory> for SweepError {
    ghost use Rattle.cmwq_sweep.specs.Errors.{no_memory};
    ghost use Rattle.std.specs.Prelude.{◌≡◌};

    ghost from_gives = { λ _ e. e ≡ no_memory };

    fn from(_refused: NoMemory) -> SweepError {
        SweepError::Play(PlayError::NoMemory)
    }
}

impl From<AllocError> for SweepError {
    ghost use Rattle.cmwq_sweep.specs.Errors.{no_memory};
    ghost use Rattle.std.specs.Prelude.{◌≡◌};

    ghost from_gives = { λ _ e. e ≡ no_memory };

    fn from(_refused: AllocError) -> SweepError {
        SweepError::Play(PlayError::NoMemory)
    }
}

impl<T: Drop> From<AllocFailed<T>> for SweepError {
    ghost use Rattle.cmwq_sweep.specs.Errors.{no_memory};
    ghost use Rattle.std.specs.Prelude.{◌≡◌};

    ghost from_gives = { λ _ e. e ≡ no_memory };

    fn from(_refused: AllocFailed<T>) -> SweepError {
        SweepError::Play(PlayError::NoMemory)
    }
}
