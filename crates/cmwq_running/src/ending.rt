//! Burns and sleeps end with time.
ghost use Rattle.cmwq_phased.specs.Phases.{shown_all};
ghost use Rattle.cmwq_phased.specs.PhasedContents.{HaveOwnStamps};
ghost use Rattle.cmwq_phased.specs.Runs.{first_to_end, run_at};
ghost use Rattle.cmwq_running.specs.Heads.{AreHeaded, AreOnTime, AreTimely, NoneEndsBefore, alarm_count, ended, in_phase};
ghost use Rattle.cmwq_running.specs.Pools.{AreAlikeIn, AreAlikeOutside};
ghost use Rattle.cmwq_running.specs.RunningContents.{seen};
ghost use Rattle.std.specs.Prelude.{◌≡◌, ◌≢◌, ◌<◌, ◌≤◌, ◌+◌, ℕ, IfSome, None, Some, length, slice_set};

use cmwq_parts::PoolSet;
use cmwq_phased::{Phase, PhasedWorks, Run};

/// Ends the burns and sleeps that end by this time, and answers in which pools some did. Nothing of it shows.
#[inline(always)]
pub(crate) fn end_by(works: &mut PhasedWorks, time: u64) -> PoolSet
    requires on_time { AreOnTime time works.old.runs }
    requires headed { AreHeaded works.old.scenario works.old.runs }
    ensures seen { seen time works.new ≡ seen time works.old }
    ensures timely { AreTimely time works.new.runs }
    ensures headed { AreHeaded works.new.scenario works.new.runs }
    ensures elsewhere { AreAlikeOutside result works.old.runs works.new.runs }
{
    let mut pools = PoolSet::none();
    while let Some(pool) = end_first(works, time) {
        pools = pools.with(pool);
    }
    pools
}

/// Ends the burn or sleep that ends first, if it ends by this time, and answers in which pool, if it does.
#[inline(always)]
fn end_first(works: &mut PhasedWorks, time: u64) -> Option<u8>
    requires on_time { AreOnTime time works.old.runs }
    requires headed { AreHeaded works.old.scenario works.old.runs }
    ensures seen { seen time works.new ≡ seen time works.old }
    ensures on_time { AreOnTime time works.new.runs }
    ensures headed { AreHeaded works.new.scenario works.new.runs }
    ensures fewer { IfSome result (λ _. alarm_count works.new < alarm_count works.old) }
    ensures elsewhere { IfSome result (λ pool. (other : ℕ) → other ≢ pool → AreAlikeIn other works.old.runs works.new.runs) }
    ensures timely { result ≡ None → AreTimely time works.new.runs }
    ensures same { result ≡ None → works.new ≡ works.old }
{
    match works.first_to_end_by(time) {
        None => None,
        Some(w) => end_at(works, time, w),
    }
}

/// Ends the burn or sleep of the work that is the first to end, if it ends by this time, and answers in which pool, if it does.
#[inline(always)]
fn end_at(works: &mut PhasedWorks, time: u64, w: usize) -> Option<u8>
    requires first { first_to_end works.old.scenario works.old.runs ≡ Some w }
    requires on_time { AreOnTime time works.old.runs }
    requires headed { AreHeaded works.old.scenario works.old.runs }
    ensures seen { seen time works.new ≡ seen time works.old }
    ensures on_time { AreOnTime time works.new.runs }
    ensures headed { AreHeaded works.new.scenario works.new.runs }
    ensures fewer { IfSome result (λ _. alarm_count works.new < alarm_count works.old) }
    ensures elsewhere { IfSome result (λ pool. (other : ℕ) → other ≢ pool → AreAlikeIn other works.old.runs works.new.runs) }
    ensures timely { result ≡ None → AreTimely time works.new.runs }
    ensures same { result ≡ None → works.new ≡ works.old }
{
    works.own_stamps();
    let Some(run) = works.run(w) else {
        return None;
    };
    match ended(run.phase, time) {
        None => None,
        Some(phase) => {
            enter(works, w, run, phase);
            Some(run.pool)
        }
    }
}

/// Lets a work that runs so be in this phase. The phase that follows a burn has a branch of its own, since where the compiler knows the phase
/// hardly anything is left to do.
#[inline(always)]
fn enter(works: &mut PhasedWorks, w: usize, run: Run, phase: Phase)
    requires work { w < length works.old.scenario.works }
    requires was { run_at works.old.runs w ≡ Some run }
    requires own_stamps { HaveOwnStamps works.old.runs }
    ensures { works.new ≡ record works.old { runs = slice_set works.old.runs w (Some (in_phase run phase)) } }
{
    match phase {
        Phase::Ready => {
            let phase = Phase::Ready;
            works.carry_on(w, run, Run { phase, ..run });
        }
        phase => works.carry_on(w, run, Run { phase, ..run }),
    }
}

/// The phase that follows at this time, if this one has ended.
#[inline(always)]
fn ended(phase: Phase, time: u64) -> Option<Phase>
    ensures { result ≡ ended time phase }
{
    match phase {
        Phase::Burning(end) if end <= time => Some(Phase::Ready),
        Phase::Asleep(until) if until <= time => Some(Phase::Slept(until)),
        Phase::Ready | Phase::Held(_) | Phase::Burning(_) | Phase::Asleep(_) | Phase::Slept(_) =>
            None,
    }
}

/// How many ticks can pass, at most so many, until a burn or a sleep ends: one at least, if any may.
#[inline(always)]
pub(crate) fn ticks_to_end(works: &PhasedWorks, time: u64, most: u32) -> u32
    requires long { length works.now.runs ≡ length works.now.scenario.works }
    requires timely { AreTimely time works.now.runs }
    ensures few { result ≤ most }
    ensures some { 0 < most → 0 < result }
    ensures none_ends { NoneEndsBefore (time + result) works.now.runs }
{
    match works.next_end() {
        None => most,
        Some(end) => end.saturating_sub(time).min(u64::from(most)) as u32,
    }
}
