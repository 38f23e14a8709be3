//! Why a scenario's orders aren't explored.

use cmwq_explore::PlanError;
use cmwq_streams::PlayError;
use cmwq_types::NoMemory;
use std::alloc::{AllocError, AllocFailed};
use thiserror::Error;

/// Why a scenario's orders aren't explored.
#[derive(Clone, Copy, Debug, PartialEq, Eq, Error)]
pub enum ExploreError {
    /// As any command: the reader or the writer failed, the text has a fault, it has no actor, they have too many lines, no work has a name
    /// that is asked for, or memory ran out.
    #[error("{0}")]
    Play(PlayError),
    /// No actor of the scenario has the name that is asked for.
    #[error("no such actor")]
    NoSuchActor,
    /// The actors give so many flushes, which is more than the scenario's `flushes`.
    #[error("flushes {0} needed")]
    Flushes(u16),
}

impl From<PlayError> for ExploreError {
    ghost use Rattle.cmwq_explored.specs.declared.error.ExploreError.TheVariants.{Play as play};
    ghost use Rattle.std.specs.Prelude.{◌≡◌};

    ghost from_gives = { λ why e. e ≡ play why };

    fn from(why: PlayError) -> ExploreError {
        ExploreError::Play(why)
    }
}

impl From<NoMemory> for ExploreError {
    ghost use Rattle.cmwq_explored.specs.Errors.{no_memory};
    ghost use Rattle.std.specs.Prelude.{◌≡◌};

    ghost from_gives = { λ _ e. e ≡ no_memory };

    fn from(_refused: NoMemory) -> ExploreError {
        ExploreError::Play(PlayError::NoMemory)
    }
}

impl From<AllocError> for ExploreError {
    ghost use Rattle.cmwq_explored.specs.Errors.{no_memory};
    ghost use Rattle.std.specs.Prelude.{◌≡◌};

    ghost from_gives = { λ _ e. e ≡ no_memory };

    fn from(_refused: AllocError) -> ExploreError {
        ExploreError::Play(PlayError::NoMemory)
    }
}

impl<T: Drop> From<AllocFailed<T>> for ExploreError {
    ghost use Rattle.cmwq_explored.specs.Errors.{no_memory};
    ghost use Rattle.std.specs.Prelude.{◌≡◌};

    ghost from_gives = { λ _ e. e ≡ no_memory };

    fn from(_refused: AllocFailed<T>) -> ExploreError {
        ExploreError::Play(PlayError::NoMemory)
    }
}

/// Too many lines are told as every command tells them.
impl From<PlanError> for ExploreError {
    ghost use Rattle.cmwq_explored.specs.Errors.{plan_told_as};
    ghost use Rattle.std.specs.Prelude.{◌≡◌};

    ghost from_gives = { λ why e. e ≡ plan_told_as why };

    fn from(why: PlanError) -> ExploreError {
        match why {
            PlanError::Full => ExploreError::Play(PlayError::Full),
            PlanError::NoMemory => ExploreError::Play(PlayError::NoMemory),
        }
    }
}
