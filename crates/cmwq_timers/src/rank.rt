//! Which of two timers fires first.
ghost use Rattle.cmwq_timers.specs.Tree.{rank_of};
ghost use Rattle.std.specs.Prelude.{◌≡◌, ◌/◌, ◌%◌, ◌^◌};

use crate::timer::Timer;
use cmwq_types::WorkId;

/// From this stamp on all have one rank.
pub(crate) const LAST_STAMP: u64 = (1 << 48) - 1;

/// Where a work's timer stands among the others: the timer of least rank fires first. In a rank stand the tick at which the timer is due, in 64
/// bits, its stamp, in 48, and the work, in 16. A work without a timer has the rank of all ones, and no timer has that, since no work has the
/// number of all ones.
#[inline(always)]
pub(crate) fn rank_of(timer: Option<Timer>) -> u128
    ensures { result ≡ rank_of timer }
{
    match timer {
        None => u128::MAX,
        Some(timer) => {
            let low = timer.stamp.min(LAST_STAMP) * (1 << 16) + u64::from(timer.work.0);
            u128::from(timer.due) * (1 << 64) + u128::from(low)
        }
    }
}

/// When the timer of this rank is due.
#[inline(always)]
pub(crate) fn due_in(rank: u128) -> u64
    ensures { result ≡ rank / 2 ^ 64 }
{
    (rank / (1 << 64)) as u64
}

/// The work whose timer has this rank.
#[inline(always)]
pub(crate) fn work_in(rank: u128) -> WorkId
    ensures { result.0 ≡ rank % 2 ^ 16 }
{
    WorkId((rank % (1 << 16)) as u16)
}
