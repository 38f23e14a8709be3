//! The running works, with their indexes.
ghost use Rattle.cmwq_phased.specs.PhasedContents.{HaveOwnStamps, end_of, if_ends_by};
ghost use Rattle.cmwq_phased.specs.declared.pools.TheConstants.{MAX_POOLS};
ghost use Rattle.cmwq_phased.specs.Runs.{HasOwnStamp, awake_in, first_in_line, first_rested, first_to_end, freezable_running, rescued_of, run_at, running_in};
ghost use Rattle.cmwq_types.specs.Setting.{IsSetting};
ghost use Rattle.cmwq_types.specs.declared.limits.TheConstants.{MAX_WORKS};
ghost use Rattle.std.specs.Prelude.{◌≡◌, ◌<◌, ◌≤◌, IfOk, IfSome, None, Some, length, replicate, slice_set};

use crate::Run;
use crate::alarms::set_alarm;
use crate::classes::class_in;
use crate::counts::Counts;
use crate::lines::{line_up, line_up_in_pool, rested_list};
use crate::pools::MAX_POOLS;
use cmwq_lists::Lists;
use cmwq_timers::Alarms;
use cmwq_types::{NoMemory, Scenario, filled};
use std::alloc::Global;
use std::marker::Model;
use std::sync::Arc;

/// How each work of a scenario runs, if it runs, and who of them is the first, and how many there are.
///
/// Those in a pool's line stand in one list, those of it whose sleep is over in another, so who is first there is known at once; who has
/// an alarm stands in a tree of alarms, and of each class that is asked for a count is kept. A run changes by `begin`, `carry_on` and `end` alone. Of a
/// pool whose number is `MAX_POOLS` or more nothing is known but its works' runs. All room is taken by `new` and `copy`.
#[derive(Drop)]
pub struct PhasedWorks {
    scenario: Arc<Scenario>,
    runs: Vec<Option<Run>>,
    lines: Lists,
    alarms: Alarms,
    counts: Counts,
}

impl Model for PhasedWorks {
    ghost use Rattle.cmwq_phased.specs.PhasedContents.{PhasedContents};

    ghost Value = { PhasedContents };

    ghost use Rattle.cmwq_phased.specs.Indexed.{AreIndexed};

    ghost view = { λ p. record { scenario = p.scenario.value; runs = p.runs.items } };

    ghost invariant = { λ p. AreIndexed p.scenario.value p.runs.items p.lines p.alarms p.counts };
}

impl PhasedWorks {
    /// The works of a valid scenario, of which none runs. The only error is want of memory.
    pub fn new(alloc: Global, scenario: Arc<Scenario>) -> Result<PhasedWorks, NoMemory>
        requires setting { IsSetting scenario.value }
        ensures scenario { IfOk result (λ made. made.scenario ≡ scenario.value) }
        ensures idle { IfOk result (λ made. made.runs ≡ replicate (length scenario.value.works) None) }
    {
        let works = scenario.works.len();
        let queues = scenario.queues.len();
        Ok(PhasedWorks {
            runs: filled(alloc, None, works)?,
            lines: Lists::new(alloc, 2 * u16::from(MAX_POOLS), works as u16)?,
            alarms: Alarms::new(alloc, works as u16)?,
            counts: Counts::new(alloc, queues as u8)?,
            scenario,
        })
    }

    /// Works that run as these do, apart from them. The scenario is shared. The only error is want of memory.
    pub fn copy(&self) -> Result<PhasedWorks, NoMemory>
        ensures { IfOk result (λ copy. copy ≡ self.now) }
    {
        let alloc = *self.runs.allocator();
        Ok(PhasedWorks {
            scenario: Arc::clone(&self.scenario)?,
            runs: Vec::from_slice(alloc, &self.runs)?,
            lines: self.lines.copy()?,
            alarms: self.alarms.copy()?,
            counts: self.counts.copy()?,
        })
    }

    /// The scenario of the works.
    pub fn scenario(&self) -> &Scenario
        ensures scenario { result.now ≡ self.now.scenario }
        ensures setting { IsSetting self.now.scenario }
        ensures works { length self.now.runs ≡ length self.now.scenario.works }
    {
        &self.scenario
    }

    /// How the work runs, if it does. Where there is no such work, `None`.
    #[inline(always)]
    pub fn of(&self, w: usize) -> Option<Run>
        ensures { result ≡ run_at self.now.runs w }
    {
        self.runs.get(w).copied().unwrap_or(None)
    }

    /// The same of a work that there is.
    #[inline(always)]
    pub fn run(&self, w: usize) -> Option<Run>
        requires work { w < length self.now.scenario.works }
        ensures { result ≡ run_at self.now.runs w }
    {
        self.runs[w]
    }

    /// Begins an instance of a work of which none runs. No other work may run under its stamp.
    #[inline(always)]
    pub fn begin(&mut self, w: usize, run: Run)
        requires work { w < length self.old.scenario.works }
        requires still { run_at self.old.runs w ≡ None }
        requires own_stamp { HasOwnStamp self.old.runs w (Some run) }
        ensures { self.new ≡ record self.old { runs = slice_set self.old.runs w (Some run) } }
    {
        self.change(w, None, Some(run));
    }

    /// Ends the instance of a work that runs so.
    #[inline(always)]
    pub fn end(&mut self, w: usize, was: Run)
        requires work { w < length self.old.scenario.works }
        requires was { run_at self.old.runs w ≡ Some was }
        ensures { self.new ≡ record self.old { runs = slice_set self.old.runs w None } }
    {
        self.change(w, Some(was), None);
    }

    /// Lets a work that runs or doesn't run so run otherwise, or not at all.
    #[inline(always)]
    fn change(&mut self, w: usize, was: Option<Run>, run: Option<Run>)
        requires work { w < length self.old.scenario.works }
        requires was { run_at self.old.runs w ≡ was }
        requires own_stamp { HasOwnStamp self.old.runs w run }
        ensures { self.new ≡ record self.old { runs = slice_set self.old.runs w run } }
    {
        let PhasedWorks {
            scenario,
            runs,
            lines,
            alarms,
            counts,
        } = self;
        line_up(lines, scenario, runs, w, was, run);
        set_alarm(alarms, runs, w, was, run);
        counts.recount(scenario, runs, w, was, run);
        runs[w] = run;
    }

    /// Lets a work that runs so run otherwise, in the same pool and on the same worker. No other work may run under the stamp of the new run.
    ///
    /// A line is touched only where the work's place in one may change, an alarm where it had one or gets one, a count where it falls asleep or
    /// wakes.
    #[inline(always)]
    pub fn carry_on(&mut self, w: usize, was: Run, run: Run)
        requires work { w < length self.old.scenario.works }
        requires was { run_at self.old.runs w ≡ Some was }
        requires pool { run.pool ≡ was.pool }
        requires worker { run.worker ≡ was.worker }
        requires own_stamp { HasOwnStamp self.old.runs w (Some run) }
        ensures { self.new ≡ record self.old { runs = slice_set self.old.runs w (Some run) } }
    {
        let PhasedWorks {
            scenario,
            runs,
            lines,
            alarms,
            counts,
        } = self;
        line_up_in_pool(lines, scenario, runs, w, was, run);
        set_alarm(alarms, runs, w, Some(was), Some(run));
        counts.recount_in_place(scenario, runs, w, was, run);
        write_on(runs, w, was, run);
    }

    /// The first in the pool's line, by stamp: of those runnable in a bound pool, of those that have nothing left to burn in an unbound one.
    #[inline(always)]
    pub fn first_in_line(&self, pool: u8) -> Option<usize>
        requires pool { pool < MAX_POOLS }
        ensures first { result ≡ first_in_line self.now.scenario self.now.runs pool }
        ensures in_range { IfSome result (λ w. w < length self.now.scenario.works) }
        ensures few { IfSome result (λ w. w < MAX_WORKS) }
    {
        self.lines.front_key(usize::from(pool))
    }

    /// The first of those in the pool whose sleep is over, by the time at which it was over, and then by stamp.
    #[inline(always)]
    pub fn first_rested(&self, pool: u8) -> Option<usize>
        requires pool { pool < MAX_POOLS }
        ensures first { result ≡ first_rested self.now.scenario self.now.runs pool }
        ensures in_range { IfSome result (λ w. w < length self.now.scenario.works) }
        ensures few { IfSome result (λ w. w < MAX_WORKS) }
    {
        self.lines.front_key(rested_list(pool))
    }

    /// The first whose burn or sleep time ends, the one of least number where several end at once, if it ends by this time. It's quick where none
    /// does.
    #[inline(always)]
    pub fn first_to_end_by(&self, time: u64) -> Option<usize>
        ensures first { result ≡ if_ends_by self.now.runs time (first_to_end self.now.scenario self.now.runs) }
        ensures in_range { IfSome result (λ w. w < length self.now.scenario.works) }
        ensures few { IfSome result (λ w. w < MAX_WORKS) }
    {
        let work = self.alarms.first_due(time)?;
        Some(usize::from(work.0))
    }

    /// When a burn or a sleep ends next, if time alone ends one.
    #[inline(always)]
    pub fn next_end(&self) -> Option<u64>
        ensures { result ≡ end_of self.now.runs (first_to_end self.now.scenario self.now.runs) }
    {
        self.alarms.next_due()
    }

    /// How many works of the queue run in the pool.
    #[inline(always)]
    pub fn running_in(&self, queue: u8, pool: u8) -> usize
        requires pool { pool < MAX_POOLS }
        requires queue { queue < length self.now.scenario.queues }
        ensures running { result ≡ running_in self.now.scenario self.now.runs queue pool }
        ensures few { result ≤ length self.now.scenario.works }
    {
        usize::from(self.counts.running.at(class_in(queue, pool)))
    }

    /// How many works that run in the pool are runnable and count towards its concurrency level.
    #[inline(always)]
    pub fn awake_in(&self, pool: u8) -> usize
        requires pool { pool < MAX_POOLS }
        ensures awake { result ≡ awake_in self.now.scenario self.now.runs pool }
        ensures few { result ≤ length self.now.scenario.works }
    {
        usize::from(self.counts.awake.at(usize::from(pool)))
    }

    /// How many works of the queue run on its rescuer.
    pub fn rescued_of(&self, queue: u8) -> usize
        requires queue { queue < length self.now.scenario.queues }
        ensures rescued { result ≡ rescued_of self.now.scenario self.now.runs queue }
        ensures few { result ≤ length self.now.scenario.works }
    {
        usize::from(self.counts.rescued.at(usize::from(queue)))
    }

    /// How many works of freezable queues run.
    pub fn freezable_running(&self) -> usize
        ensures running { result ≡ freezable_running self.now.scenario self.now.runs }
        ensures few { result ≤ length self.now.scenario.works }
    {
        usize::from(self.counts.busy.of(0))
    }

    /// No two works run under one stamp.
    pub fn own_stamps(&self)
        ensures { HaveOwnStamps self.now.runs }
    {
        let _runs = &self.runs;
    }
}

/// Lets a work that runs so run otherwise, in its pool and on its worker. Only what can be otherwise is written.
#[inline(always)]
fn write_on(runs: &mut [Option<Run>], w: usize, was: Run, run: Run)
    requires work { w < length runs.old }
    requires was { run_at runs.old w ≡ Some was }
    requires pool { run.pool ≡ was.pool }
    requires worker { run.worker ≡ was.worker }
    ensures { runs.new ≡ slice_set runs.old w (Some run) }
{
    if let Some(kept) = &mut runs[w] {
        if run.born != was.born {
            kept.born = run.born;
        }
        if run.stamp != was.stamp {
            kept.stamp = run.stamp;
        }
        kept.phase = run.phase;
        kept.pc = run.pc;
    }
}
