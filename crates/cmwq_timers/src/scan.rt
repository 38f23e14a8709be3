//! The first timer, by a look at each.
ghost use Rattle.cmwq_timers.specs.Timers.{fires_before, least_timer, timer_at, timer_due, timer_stamp};
ghost use Rattle.cmwq_types.specs.First.{first_with};
ghost use Rattle.std.specs.Prelude.{◌≡◌, ◌<◌, IfSome, length, true};

use crate::timer::Timer;

/// The work whose timer fires first, or the number behind the works, if none has a timer. It is asked for only where stamps come to 2^48 - 1, from
/// which on they have one rank.
#[cold]
#[inline(never)]
pub(crate) fn first_scanned(timers: &[Option<Timer>]) -> usize
    ensures { timer_at timers.now result ≡ least_timer timers.now }
{
    let mut first = None;
    for w in 0..timers.len() {
        if timers[w].is_some() {
            first = earlier(timers, first, w);
        }
    }
    match first {
        Some(w) => w,
        None => timers.len(),
    }
}

/// The work, or the first so far where the work's timer doesn't fire before that one's.
fn earlier(timers: &[Option<Timer>], first: Option<usize>, w: usize) -> Option<usize>
    requires work { w < length timers.now }
    requires first { IfSome first (λ v. v < length timers.now) }
    ensures { result ≡ first_with (fires_before timers.now) w true first }
{
    match first {
        Some(v) if !fires_before(timers, w, v) => Some(v),
        _ => Some(w),
    }
}

/// Whether the timer of the one work fires before that of the other.
fn fires_before(timers: &[Option<Timer>], v: usize, w: usize) -> bool
    requires one { v < length timers.now }
    requires other { w < length timers.now }
    ensures { result ≡ fires_before timers.now v w }
{
    let (one, other) = (due_and_stamp(timers[v]), due_and_stamp(timers[w]));
    one.0 < other.0 || (one.0 == other.0 && one.1 < other.1)
}

/// When a timer is due, and its stamp, or zeros of none.
fn due_and_stamp(timer: Option<Timer>) -> (u64, u64)
    ensures { result ≡ (timer_due timer, timer_stamp timer) }
{
    timer.map_or((0, 0), |it| (it.due, it.stamp))
}
