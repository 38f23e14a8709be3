//! The first alarm, by a look at each. It is asked for only where none rings before tick 2^48 - 1, from which on ranks don't tell ticks apart.
ghost use Rattle.cmwq_timers.specs.Alarms.{alarm_at, first_to_ring, if_rings_by, ring_of, tick_or_0};
ghost use Rattle.cmwq_types.specs.First.{by_least, first_with};
ghost use Rattle.std.specs.Prelude.{◌≡◌, ◌<◌, ◌^◌, IfSome, length, option_map, true};

use crate::alarms::Alarms;
use cmwq_types::WorkId;

/// The work whose alarm rings first, if it rings by this tick.
#[cold]
#[inline(never)]
pub(crate) fn first_due_scanned(alarms: &Alarms, tick: u64) -> Option<WorkId>
    ensures first { option_map (λ work. work.0) result ≡ if_rings_by alarms.now tick (first_to_ring alarms.now) }
    ensures in_range { IfSome result (λ work. work.0 < length alarms.now) }
{
    let w = first_alarm(alarms)?;
    if tick_or_0(alarms, w) > tick {
        return None;
    }
    Some(WorkId(w as u16))
}

/// When the first alarm rings, if there is one.
#[cold]
#[inline(never)]
pub(crate) fn next_due_scanned(alarms: &Alarms) -> Option<u64>
    ensures { result ≡ ring_of alarms.now (first_to_ring alarms.now) }
{
    let first = first_alarm(alarms)?;
    alarms.get(first)
}

/// The work whose alarm rings first, if there is one.
fn first_alarm(alarms: &Alarms) -> Option<usize>
    ensures first { result ≡ first_to_ring alarms.now }
    ensures in_range { IfSome result (λ w. w < length alarms.now) }
    ensures few { IfSome result (λ w. w < 2 ^ 16) }
{
    let mut first = None;
    for w in 0..alarms.len() {
        if alarms.get(w).is_some() {
            first = sooner_alarm(alarms, first, w);
        }
    }
    first
}

/// The work, or the first so far where the work's alarm doesn't ring before that one's.
fn sooner_alarm(alarms: &Alarms, first: Option<usize>, w: usize) -> Option<usize>
    requires work { w < length alarms.now }
    requires first { IfSome first (λ v. v < length alarms.now) }
    ensures { result ≡ first_with (by_least (λ v. tick_or_0 (alarm_at alarms.now v))) w true first }
{
    match first {
        Some(v) if tick_or_0(alarms, w) >= tick_or_0(alarms, v) => Some(v),
        _ => Some(w),
    }
}

/// When the work's alarm rings, or 0 where it has none.
fn tick_or_0(alarms: &Alarms, w: usize) -> u64
    requires work { w < length alarms.now }
    ensures { result ≡ tick_or_0 (alarm_at alarms.now w) }
{
    alarms.get(w).unwrap_or(0)
}
