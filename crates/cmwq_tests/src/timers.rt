//! Timers: the worked example.
ghost use Rattle.std.specs.Prelude.{◌≡◌};

use crate::checking::same;
use cmwq_timers::{Timer, Timers};
use cmwq_types::WorkId;
use std::process::Abort;
use std::test::Fail;

fn timer(due: u64, stamp: u64, work: u16) -> Timer
    ensures { result ≡ record { due = due; stamp = stamp; work = record { 0 = work }; cpu = 0 } }
{
    Timer {
        due,
        stamp,
        work: WorkId(work),
        cpu: 0,
    }
}

/// Of two timers of one tick the first one is due, in its turn, and then the other is the least.
fn check_taken(rt: &impl Abort, timers: &mut Timers) {
    same(rt, "too early", timers.take_due(3), None);
    same(rt, "due", timers.take_due(4), Some(timer(4, 0, 0)));
    same(rt, "the least", timers.least(), Some(timer(4, 1, 1)));
}

/// Both timers are there.
fn check_there(rt: &impl Abort, timers: &Timers) {
    same(rt, "the least", timers.least(), Some(timer(4, 0, 0)));
    same(rt, "the other", timers.get(WorkId(1)), Some(timer(4, 1, 1)));
}

#[test]
fn of_one_tick_the_first_queued_fires_first(rt: HostRuntime) -> Result<(), Fail> {
    let mut timers = Timers::new(rt.alloc(), 2)?;
    timers.put(timer(4, 0, 0));
    timers.put(timer(4, 1, 1));
    let copy = timers.copy()?;
    check_taken(&rt, &mut timers);
    check_there(&rt, &copy);
    Ok(())
}
