//! The tokens of a lock. Each has a seat at the lock's table.
ghost use Rattle.std.specs.Prelude.{◌≡◌, ◌^◌, ◌<◌, ◌≤◌, true, length};
ghost use Rattle.cmwq_types.specs.declared.limits.TheConstants.{MAX_PASSES};
ghost use Rattle.cmwq_lock.specs.Views.{is_opener, is_out, is_waiting, caller_of, ticket_of, next_of, out_of};

use crate::kept::Kept;
use crate::steps::LockSeat;

/// It gives passes out, takes them back, and closes the lock at the end.
#[derive(Drop)]
pub struct Opener<T: Kept> {
    pub(crate) seat: LockSeat<T>,
    pub(crate) next: u64,
    pub(crate) out: u32,
    ghost opens: { is_opener seat.me.0 ≡ true },
    ghost numbered: { next_of seat.me.0 ≡ next },
    ghost counted: { out_of seat.me.0 ≡ out },
    ghost few: { out ≤ MAX_PASSES },
}

/// A caller's leave to draw tickets. A pass that is dropped stays out.
#[derive(Drop)]
pub struct Pass<T: Kept> {
    pub(crate) seat: LockSeat<T>,
    pub(crate) caller: u32,
    ghost bare: { length seat.me.1 ≡ 0 },
    ghost is_out: { is_out seat.me.0 ≡ true },
    ghost named: { caller_of seat.me.0 ≡ caller },
}

/// A ticket. It must be spent by `try_take` or `take`.
pub struct Drawn<T: Kept> {
    pub(crate) seat: LockSeat<T>,
    pub(crate) caller: u32,
    pub(crate) ticket: u64,
    ghost bare: { length seat.me.1 ≡ 0 },
    ghost waits: { is_waiting seat.me.0 ≡ true },
    ghost named: { caller_of seat.me.0 ≡ caller },
    ghost ticketed: { ticket_of seat.me.0 ≡ ticket },
    ghost small: { ticket < 2 ^ 62 },
}
