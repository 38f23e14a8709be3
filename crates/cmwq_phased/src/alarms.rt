//! The alarms of running works: of those whom time alone ends.
ghost use Rattle.cmwq_phased.specs.Indexes.{AreTimed};
ghost use Rattle.cmwq_phased.specs.Runs.{alarm_in, run_alarm, run_at};
ghost use Rattle.cmwq_timers.specs.Alarms.{alarm_at};
ghost use Rattle.cmwq_types.specs.declared.limits.TheConstants.{MAX_WORKS};
ghost use Rattle.std.specs.Prelude.{◌≡◌, ◌<◌, None, length, slice_set};

use crate::{Phase, Run};
use cmwq_timers::Alarms;
use cmwq_types::WorkId;

/// When the alarm of a work that runs so rings, if it has one.
#[inline(always)]
pub(crate) fn alarm_of(run: Option<Run>) -> Option<u64>
    ensures { result ≡ run_alarm run }
{
    let run = run?;
    alarm_in(run.phase)
}

/// When time alone ends the phase, if it does.
#[inline(always)]
fn alarm_in(phase: Phase) -> Option<u64>
    ensures { result ≡ alarm_in phase }
{
    match phase {
        Phase::Burning(end) => Some(end),
        Phase::Asleep(until) => Some(until),
        Phase::Ready | Phase::Held(_) | Phase::Slept(_) => None,
    }
}

/// Gives a work that ran so the alarm that it has when it runs otherwise, if any.
#[inline(always)]
pub(crate) fn set_alarm(
    alarms: &mut Alarms,
    runs: &[Option<Run>],
    w: usize,
    was: Option<Run>,
    run: Option<Run>,
)
    requires timed { AreTimed runs.now alarms.old }
    requires was { run_at runs.now w ≡ was }
    requires work { w < length runs.now }
    requires few { w < MAX_WORKS }
    ensures timed { AreTimed (slice_set runs.now w run) alarms.new }
{
    let _runs = runs;
    ring_at(alarms, WorkId(w as u16), alarm_of(was), alarm_of(run));
}

/// Takes a work's alarm away, if it has one, and gives it the new one, if there is one.
#[inline(always)]
fn ring_at(alarms: &mut Alarms, work: WorkId, was: Option<u64>, alarm: Option<u64>)
    requires work { work.0 < length alarms.old }
    requires was { alarm_at alarms.old work.0 ≡ was }
    ensures { alarms.new ≡ slice_set alarms.old work.0 alarm }
{
    silence(alarms, work, was);
    if let Some(tick) = alarm {
        alarms.set(work, tick);
    }
}

/// Takes a work's alarm away, if it has one. Where it has none nothing is touched.
#[inline(always)]
fn silence(alarms: &mut Alarms, work: WorkId, alarm: Option<u64>)
    requires work { work.0 < length alarms.old }
    requires alarm { alarm_at alarms.old work.0 ≡ alarm }
    ensures { alarms.new ≡ slice_set alarms.old work.0 None }
{
    if alarm.is_some() {
        alarms.stop(work);
    }
}
