//! Who has his CPU: the heads of a CPU's high pool, else those of its normal pool, and all runnable works of the unbound pools.
ghost use Rattle.cmwq_phased.specs.declared.pools.TheConstants.{MAX_POOLS};
ghost use Rattle.cmwq_phased.specs.Phases.{IsTimely, shown_all};
ghost use Rattle.cmwq_phased.specs.Runs.{is_ready, run_at, with_run};
ghost use Rattle.cmwq_running.specs.Heads.{AreTimely, GoIn, HaveHeads, IsBeside, IsEarly, is_out_of_pace, may_burn, paced, paced_run, ready_run, with_left};
ghost use Rattle.cmwq_types.specs.Scenario.{is_high, is_unbound};
ghost use Rattle.cmwq_types.specs.declared.limits.TheConstants.{MAX_WORKS};
ghost use Rattle.std.specs.Prelude.{◌≡◌, ◌<◌, ◌⊎◌, ℕ, IfSome, false, length, slice_set, true};

use cmwq_phased::{Phase, PhasedWorks, Run};

/// The phase with so many ticks left, before it is known whether the work may burn.
#[inline(always)]
pub(crate) fn with_left(left: u32) -> Phase
    ensures { result ≡ with_left left }
{
    if left == 0 {
        Phase::Ready
    } else {
        Phase::Held(left)
    }
}

/// The phase once the head of a pool may burn from this time on, or may not.
#[inline(always)]
pub(crate) fn paced(phase: Phase, may: bool, time: u64) -> Phase
    requires early { IsEarly time }
    requires timely { IsTimely time phase }
    ensures paced { result ≡ paced may time phase }
    ensures timely { IsTimely time result }
{
    match phase {
        Phase::Held(left) if may => Phase::Burning(time + u64::from(left)),
        Phase::Burning(end) if !may => Phase::Held(end.saturating_sub(time) as u32),
        Phase::Ready | Phase::Held(_) | Phase::Burning(_) | Phase::Asleep(_) | Phase::Slept(_) =>
            phase,
    }
}

/// Whether the heads of the pool have their CPU.
#[inline(always)]
pub(crate) fn may_burn(works: &PhasedWorks, pool: u8) -> bool
    ensures { result ≡ may_burn works.now.scenario works.now.runs pool }
{
    works.scenario().is_unbound(pool) || pool % 2 == 1 || works.first_in_line(pool + 1).is_none()
}

/// Of the heads of the pool the first that has nothing left to burn.
#[inline(always)]
pub(crate) fn ready_run(works: &PhasedWorks, pool: u8) -> Option<usize>
    requires pool { pool < MAX_POOLS }
    ensures first { result ≡ ready_run works.now.scenario works.now.runs pool }
    ensures in_range { IfSome result (λ w. w < length works.now.scenario.works) }
    ensures few { IfSome result (λ w. w < MAX_WORKS) }
{
    let w = works.first_in_line(pool)?;
    if is_ready(works.run(w)) {
        Some(w)
    } else {
        None
    }
}

/// Whether the work that runs so, if it runs, has nothing left to burn, and doesn't sleep.
fn is_ready(run: Option<Run>) -> bool
    ensures { result ≡ with_run (λ r. is_ready r.phase) run }
{
    match run {
        None => false,
        Some(run) => matches!(run.phase, Phase::Ready),
    }
}

/// Lets a work that has ticks left burn from now on, or hold. Where it does so already nothing is touched.
fn pace(works: &mut PhasedWorks, time: u64, w: usize, may: bool)
    requires work { w < length works.old.scenario.works }
    requires early { IsEarly time }
    requires timely { AreTimely time works.old.runs }
    ensures paced { works.new ≡ record works.old { runs = slice_set works.old.runs w (paced_run may time (run_at works.old.runs w)) } }
    ensures timely { AreTimely time works.new.runs }
{
    match works.run(w) {
        Some(run) if is_out_of_pace(run.phase, may) => repace(works, time, w, may),
        _ => {}
    }
}

/// Whether a work in this phase is held though it may burn, or burns though it may not.
fn is_out_of_pace(phase: Phase, may: bool) -> bool
    ensures { result ≡ is_out_of_pace may phase }
{
    match phase {
        Phase::Held(_) => may,
        Phase::Burning(_) => !may,
        Phase::Ready | Phase::Asleep(_) | Phase::Slept(_) => false,
    }
}

/// Lets the work carry on in the phase that it has once it may burn from now on, or may not. It is called, and not written out where a head is
/// paced: few heads are out of pace.
#[inline(never)]
fn repace(works: &mut PhasedWorks, time: u64, w: usize, may: bool)
    requires work { w < length works.old.scenario.works }
    requires early { IsEarly time }
    requires timely { AreTimely time works.old.runs }
    ensures paced { works.new ≡ record works.old { runs = slice_set works.old.runs w (paced_run may time (run_at works.old.runs w)) } }
    ensures timely { AreTimely time works.new.runs }
{
    works.own_stamps();
    match works.run(w) {
        None => {}
        Some(run) => {
            let phase = paced(run.phase, may, time);
            works.carry_on(w, run, Run { phase, ..run });
        }
    }
}

/// Lets the head of the normal pool beside this one, if this is a CPU's high pool, burn just where it may. Nothing of it shows.
#[inline(always)]
pub(crate) fn balance(works: &mut PhasedWorks, time: u64, high: u8)
    requires early { IsEarly time }
    requires timely { AreTimely time works.old.runs }
    requires heads { HaveHeads works.old.scenario works.old.runs }
    ensures scenario { works.new.scenario ≡ works.old.scenario }
    ensures shown { shown_all time works.new.runs ≡ shown_all time works.old.runs }
    ensures timely { AreTimely time works.new.runs }
    ensures heads { HaveHeads works.new.scenario works.new.runs }
    ensures going { (pool : ℕ) → GoIn works.old.scenario works.old.runs pool ⊎ IsBeside works.old.scenario high pool → GoIn works.new.scenario works.new.runs pool }
{
    if high % 2 == 0 || works.scenario().is_unbound(high) {
        return;
    }
    balance_normal(works, time, high);
}

/// Lets the head of the normal pool beside this high one burn just where it may.
fn balance_normal(works: &mut PhasedWorks, time: u64, high: u8)
    requires bound { is_unbound works.old.scenario high ≡ false }
    requires high { is_high high ≡ true }
    requires pool { high < MAX_POOLS }
    requires early { IsEarly time }
    requires timely { AreTimely time works.old.runs }
    requires heads { HaveHeads works.old.scenario works.old.runs }
    ensures scenario { works.new.scenario ≡ works.old.scenario }
    ensures shown { shown_all time works.new.runs ≡ shown_all time works.old.runs }
    ensures timely { AreTimely time works.new.runs }
    ensures heads { HaveHeads works.new.scenario works.new.runs }
    ensures going { (pool : ℕ) → GoIn works.old.scenario works.old.runs pool ⊎ IsBeside works.old.scenario high pool → GoIn works.new.scenario works.new.runs pool }
{
    let normal = high - 1;
    match works.first_in_line(normal) {
        None => {}
        Some(w) => pace(works, time, w, may_burn(works, normal)),
    }
}
