//! What an instance of a work does in a tick.
ghost use Rattle.cmwq_slices.specs.Slices.{pending_doing};
ghost use Rattle.cmwq_picture.specs.Picture.{mode_sign, place_sign};
ghost use Rattle.std.specs.Prelude.{◌≡◌};

use cmwq_picture::Sign;
use cmwq_table::Pending;
use cmwq_types::{Mode, Place};

/// Which of the two instances of a work that can be there at once.
#[derive(Clone, Copy, PartialEq, Eq)]
pub enum Half {
    /// The one that runs.
    Running,
    /// The one that is pending.
    Pending,
}

/// What an instance does in a tick.
#[derive(Clone, Copy, PartialEq, Eq)]
pub struct Doing {
    /// The stamp of its queueing, which no other instance has.
    pub born: u64,
    /// What it does.
    pub sign: Sign,
}

/// What a pending instance does, if there is one.
pub(crate) fn pending_doing(pending: Option<Pending>) -> Option<Doing>
    ensures { result ≡ pending_doing pending }
{
    pending.map(|p| Doing {
        born: p.born,
        sign: place_sign(p.place),
    })
}

fn place_sign(place: Place) -> Sign
    ensures { result ≡ place_sign place }
{
    match place {
        Place::Timer { .. } => Sign::Timed,
        Place::Inactive(_) => Sign::Inactive,
        Place::Listed(_) => Sign::Listed,
        Place::Deferred(_) => Sign::Deferred,
    }
}

pub(crate) fn mode_sign(mode: Mode) -> Sign
    ensures { result ≡ mode_sign mode }
{
    match mode {
        Mode::Runnable => Sign::Waits,
        Mode::Asleep(_) => Sign::Sleeps,
    }
}
