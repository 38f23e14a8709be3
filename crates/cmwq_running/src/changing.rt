//! A work begins, wakes, falls asleep or ends.
ghost use Rattle.cmwq_phased.specs.Phases.{IsTimely, shown, shown_all};
ghost use Rattle.cmwq_phased.specs.Runs.{HasOwnStamp, is_rested, run_at};
ghost use Rattle.cmwq_running.specs.Heads.{AreKept, ComesLast, IsStill, asleep_until};
ghost use Rattle.cmwq_running.specs.RunningContents.{first_run, onward_run, ready_as, roused, seen, state_of, woken_run};
ghost use Rattle.cmwq_table.specs.Counts.{first_slept, ready_head};
ghost use Rattle.cmwq_table.specs.Moves.{begun};
ghost use Rattle.cmwq_table.specs.State.{running_at};
ghost use Rattle.cmwq_types.specs.declared.limits.TheConstants.{MAX_OPS};
ghost use Rattle.cmwq_types.specs.declared.reply.Mode.TheVariants.{Asleep};
ghost use Rattle.std.specs.Prelude.{◌≡◌, ◌<◌, ◌+◌, ℕ, IfSome, None, Some, is_some, length, slice_set, true};

use crate::pacing::{balance, may_burn, paced, with_left};
use cmwq_phased::{Phase, PhasedWorks, Run};
use cmwq_table::Running;

/// Begins an instance of a work of which none runs, with no ticks left. If it is runnable, it stands behind all others of its pool.
#[inline(always)]
pub(crate) fn begin(works: &mut PhasedWorks, time: u64, w: usize, first: Run)
    requires work { w < length works.old.scenario.works }
    requires absent { run_at works.old.runs w ≡ None }
    requires kept { AreKept time works.old }
    requires still { IsStill first.phase }
    requires timely { IsTimely time first.phase }
    requires own_stamp { HasOwnStamp works.old.runs w (Some first) }
    requires last { ComesLast works.old.runs w (Some first) }
    ensures seen { seen time works.new ≡ record (seen time works.old) { running = slice_set (shown_all time works.old.runs) w (Some (shown time first)) } }
    ensures kept { AreKept time works.new }
{
    works.own_stamps();
    works.begin(w, first);
    balance(works, time, first.pool);
}

/// Ends the instance of a work that runs, the ready head of its pool.
#[inline(always)]
pub(crate) fn end(works: &mut PhasedWorks, time: u64, w: usize, r: Running)
    requires kept { AreKept time works.old }
    requires running { running_at (state_of (seen time works.old)) w ≡ Some r }
    requires head { ready_head works.old.scenario (state_of (seen time works.old)) r.pool ≡ Some w }
    ensures seen { seen time works.new ≡ record (seen time works.old) { running = slice_set (shown_all time works.old.runs) w None } }
    ensures kept { AreKept time works.new }
{
    works.own_stamps();
    works.end(w, ready_as(r));
    balance(works, time, r.pool);
}

/// Where an instance of the work runs so, the ready head of its pool, another one that was born then begins in its place, at the beginning of the
/// body, under a stamp above those of all running works.
#[inline(always)]
pub(crate) fn begin_again(
    works: &mut PhasedWorks,
    time: u64,
    w: usize,
    r: Running,
    born: u64,
    stamp: u64,
)
    requires kept { AreKept time works.old }
    requires running { running_at (state_of (seen time works.old)) w ≡ Some r }
    requires head { ready_head works.old.scenario (state_of (seen time works.old)) r.pool ≡ Some w }
    requires newest { (v : ℕ) → IfSome (running_at (state_of (seen time works.old)) v) (λ q. q.stamp < stamp) }
    ensures seen { seen time works.new ≡ record (seen time works.old) { running = slice_set (shown_all time works.old.runs) w (Some (begun born r.pool r.worker stamp)) } }
    ensures kept { AreKept time works.new }
{
    let run = first_run(born, r.pool, r.worker, stamp);
    carry_on(works, time, w, ready_as(r), run);
}

/// An instance at the beginning of its body, that was born then, in this pool and on this worker.
#[inline(always)]
pub(crate) fn first_run(born: u64, pool: u8, worker: u8, stamp: u64) -> Run
    ensures { result ≡ first_run born pool worker stamp }
{
    Run {
        born,
        stamp,
        phase: Phase::Ready,
        pool,
        worker,
        pc: 0,
    }
}

/// Lets a work that runs so run otherwise, with no ticks left, in its pool and on its worker. If it is runnable, it stands behind all others of
/// its pool.
#[inline(always)]
fn carry_on(works: &mut PhasedWorks, time: u64, w: usize, was: Run, run: Run)
    requires work { w < length works.old.scenario.works }
    requires was { run_at works.old.runs w ≡ Some was }
    requires pool { run.pool ≡ was.pool }
    requires worker { run.worker ≡ was.worker }
    requires kept { AreKept time works.old }
    requires still { IsStill run.phase }
    requires timely { IsTimely time run.phase }
    requires own_stamp { HasOwnStamp works.old.runs w (Some run) }
    requires last { ComesLast works.old.runs w (Some run) }
    ensures seen { seen time works.new ≡ record (seen time works.old) { running = slice_set (shown_all time works.old.runs) w (Some (shown time run)) } }
    ensures kept { AreKept time works.new }
{
    works.own_stamps();
    works.carry_on(w, was, run);
    balance(works, time, run.pool);
}

/// The running work, the ready head of its pool, goes on to the next operation, with so many ticks to burn first. It stays in its place.
#[inline(always)]
pub(crate) fn go_on(works: &mut PhasedWorks, time: u64, w: usize, r: Running, left: u32)
    requires kept { AreKept time works.old }
    requires running { running_at (state_of (seen time works.old)) w ≡ Some r }
    requires head { ready_head works.old.scenario (state_of (seen time works.old)) r.pool ≡ Some w }
    requires pc { r.pc < MAX_OPS }
    ensures seen { seen time works.new ≡ record (seen time works.old) { running = slice_set (shown_all time works.old.runs) w (Some (record r { pc = r.pc + 1; left = left })) } }
    ensures kept { AreKept time works.new }
{
    works.own_stamps();
    let may = may_burn(works, r.pool);
    let phase = paced(with_left(left), may, time);
    works.carry_on(w, ready_as(r), onward(r, phase));
}

/// The running work, the ready head of its pool, goes on to the next operation, and sleeps until this time first.
#[inline(always)]
pub(crate) fn fall_asleep(works: &mut PhasedWorks, time: u64, w: usize, r: Running, until: u64)
    requires kept { AreKept time works.old }
    requires running { running_at (state_of (seen time works.old)) w ≡ Some r }
    requires head { ready_head works.old.scenario (state_of (seen time works.old)) r.pool ≡ Some w }
    requires pc { r.pc < MAX_OPS }
    ensures seen { seen time works.new ≡ record (seen time works.old) { running = slice_set (shown_all time works.old.runs) w (Some (record r { pc = r.pc + 1; mode = Asleep until })) } }
    ensures kept { AreKept time works.new }
{
    works.own_stamps();
    let phase = asleep_until(until, time);
    carry_on(works, time, w, ready_as(r), onward(r, phase));
}

/// Asleep until this time, which may be over.
fn asleep_until(until: u64, time: u64) -> Phase
    ensures { result ≡ asleep_until time until }
{
    if until <= time {
        Phase::Slept(until)
    } else {
        Phase::Asleep(until)
    }
}

/// The running work, with nothing left to burn.
fn ready_as(r: Running) -> Run
    ensures { result ≡ ready_as r }
{
    Run {
        born: r.born,
        stamp: r.stamp,
        phase: Phase::Ready,
        pool: r.pool,
        worker: r.worker,
        pc: r.pc,
    }
}

/// The running work in this phase, at its next operation.
fn onward(r: Running, phase: Phase) -> Run
    requires pc { r.pc < MAX_OPS }
    ensures { result ≡ onward_run r phase }
{
    Run {
        born: r.born,
        stamp: r.stamp,
        phase,
        pool: r.pool,
        worker: r.worker,
        pc: r.pc + 1,
    }
}

/// Wakes the pool's first sleeper whose sleep is over, under a stamp above those of all running works.
#[inline(always)]
pub(crate) fn wake(works: &mut PhasedWorks, time: u64, pool: u8, w: usize, stamp: u64)
    requires kept { AreKept time works.old }
    requires first { first_slept works.old.scenario (state_of (seen time works.old)) pool ≡ Some w }
    requires newest { (v : ℕ) → IfSome (running_at (state_of (seen time works.old)) v) (λ q. q.stamp < stamp) }
    ensures runs { is_some (running_at (state_of (seen time works.old)) w) ≡ true }
    ensures seen { seen time works.new ≡ record (seen time works.old) { running = slice_set (shown_all time works.old.runs) w (woken_run stamp (running_at (state_of (seen time works.old)) w)) } }
    ensures kept { AreKept time works.new }
{
    match works.run(w) {
        None => {}
        Some(run) => rouse(works, time, w, run, stamp),
    }
}

/// Lets a sleeper whose sleep is over be runnable, under a stamp above those of all running works.
#[inline(always)]
fn rouse(works: &mut PhasedWorks, time: u64, w: usize, run: Run, stamp: u64)
    requires work { w < length works.old.scenario.works }
    requires was { run_at works.old.runs w ≡ Some run }
    requires rested { is_rested run.phase ≡ true }
    requires kept { AreKept time works.old }
    requires newest { (v : ℕ) → IfSome (running_at (state_of (seen time works.old)) v) (λ q. q.stamp < stamp) }
    ensures seen { seen time works.new ≡ record (seen time works.old) { running = slice_set (shown_all time works.old.runs) w (Some (shown time (roused run stamp))) } }
    ensures kept { AreKept time works.new }
{
    match run.phase {
        Phase::Slept(time_over) => {
            let phase = Phase::Slept(time_over);
            let was = Run { phase, ..run };
            let phase = Phase::Ready;
            let roused = Run {
                stamp,
                phase,
                ..run
            };
            carry_on(works, time, w, was, roused);
        }
        Phase::Ready | Phase::Held(_) | Phase::Burning(_) | Phase::Asleep(_) => {}
    }
}
