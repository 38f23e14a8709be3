//! Which of two alarms rings first.
ghost use Rattle.cmwq_timers.specs.AlarmRanks.{alarm_rank};
ghost use Rattle.std.specs.Prelude.{◌≡◌, ◌/◌, ◌%◌, ◌^◌};

use cmwq_types::WorkId;

/// Ticks from this one on are one tick in a rank.
const FIRST_LATE_TICK: u64 = (1 << 48) - 1;

/// The rank of a work without an alarm: all ones, and no alarm has that, since no work has the number of all ones.
pub(crate) const NO_ALARM: u64 = u64::MAX;

/// From this rank on ranks don't tell when an alarm rings.
pub(crate) const FIRST_LATE_RANK: u64 = FIRST_LATE_TICK * (1 << 16);

/// Where a work's alarm stands among the others: the alarm of least rank rings first. In a rank stand the tick, in 48 bits, and
/// the work, in 16.
#[inline(always)]
pub(crate) fn alarm_rank(work: WorkId, tick: u64) -> u64
    ensures { result ≡ alarm_rank work.0 tick }
{
    tick.min(FIRST_LATE_TICK) * (1 << 16) + u64::from(work.0)
}

/// When the alarm of this rank rings, or 2^48 - 1, if it rings at that tick or later.
#[inline(always)]
pub(crate) fn tick_in(rank: u64) -> u64
    ensures { result ≡ rank / 2 ^ 16 }
{
    rank / (1 << 16)
}

/// The work whose alarm has this rank.
#[inline(always)]
pub(crate) fn alarm_work(rank: u64) -> WorkId
    ensures { result.0 ≡ rank % 2 ^ 16 }
{
    WorkId((rank % (1 << 16)) as u16)
}
