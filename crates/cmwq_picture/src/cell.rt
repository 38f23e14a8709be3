//! What a row shows in one tick.
ghost use Rattle.cmwq_picture.specs.Picture.{is_waiting_sign};
ghost use Rattle.std.specs.Prelude.{◌≡◌};

use cmwq_types::WorkId;

/// What a work does in a tick.
#[derive(Clone, Copy, PartialEq, Eq)]
pub enum Sign {
    /// It runs, and burns CPU time.
    Burns,
    /// It runs and is runnable, without the CPU.
    Waits,
    /// It runs, and sleeps.
    Sleeps,
    /// It is pending, on a worklist.
    Listed,
    /// It is pending, and waits for its queue's `max_active`.
    Inactive,
    /// It is pending, with a timer.
    Timed,
    /// It is pending, and waits for its own run to end.
    Deferred,
}

/// What a row shows in one tick.
#[derive(Clone, Copy, PartialEq, Eq)]
pub enum Cell {
    /// Nothing.
    Empty,
    /// What the work of the row does.
    Does(Sign),
    /// The work that burns there.
    Burner(WorkId),
    /// The actor did something.
    Acts,
    /// What the row is named for is so.
    Lasts,
    /// The work of the row is on a timer, which the body of this one has set in this tick.
    Armed(WorkId),
}

impl Cell {
    ghost use Rattle.cmwq_picture.specs.Picture.{shows_waiting};

    /// Whether it shows a work that waits: one that is pending or runs, and doesn't burn.
    pub fn is_waiting(self) -> bool
        ensures { result ≡ shows_waiting self }
    {
        match self {
            Cell::Does(sign) => is_waiting_sign(sign),
            Cell::Armed(_) => true,
            _ => false,
        }
    }
}

fn is_waiting_sign(sign: Sign) -> bool
    ensures { result ≡ is_waiting_sign sign }
{
    !matches!(sign, Sign::Burns)
}
