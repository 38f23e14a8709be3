//! How many running works stand in each class.
ghost use Rattle.cmwq_phased.specs.Counted.{AreCounted, no_counts};
ghost use Rattle.cmwq_phased.specs.Indexes.{AreRuns};
ghost use Rattle.cmwq_phased.specs.Runs.{run_at};
ghost use Rattle.cmwq_types.specs.Scenario.{flags_at, queue_of};
ghost use Rattle.std.specs.Prelude.{◌≡◌, ◌<◌, IfOk, Some, length, slice_set};

use crate::Run;
use crate::classes::{awake_class, busy_class, is_awake, rescued_class, running_class};
use crate::pools::MAX_POOLS;
use cmwq_tally::Tally;
use cmwq_types::{Flags, NoMemory, Scenario};
use std::alloc::Global;

/// The tallies: of the works of a queue that run in a pool, of those of a pool that are awake, of those of a queue that run on its rescuer,
/// and of those of freezable queues.
#[derive(Drop)]
pub(crate) struct Counts {
    pub(crate) running: Tally,
    pub(crate) awake: Tally,
    pub(crate) rescued: Tally,
    pub(crate) busy: Tally,
}

impl Counts {
    /// The tallies for so many queues, of whose works none runs.
    pub(crate) fn new(alloc: Global, queues: u8) -> Result<Counts, NoMemory>
        ensures { IfOk result (λ made. made ≡ no_counts queues) }
    {
        let queues = usize::from(queues);
        let pools = usize::from(MAX_POOLS);
        Ok(Counts {
            running: Tally::new(alloc, pools * queues)?,
            awake: Tally::new(alloc, pools)?,
            rescued: Tally::new(alloc, queues)?,
            busy: Tally::new(alloc, 1)?,
        })
    }

    /// Tallies equal to these.
    pub(crate) fn copy(&self) -> Result<Counts, NoMemory>
        ensures { IfOk result (λ copy. copy ≡ self.now) }
    {
        Ok(Counts {
            running: self.running.copy()?,
            awake: self.awake.copy()?,
            rescued: self.rescued.copy()?,
            busy: self.busy.copy()?,
        })
    }

    /// Counts a work where it is counted when it runs so, and no longer where it is counted as it ran.
    #[inline(always)]
    pub(crate) fn recount(
        &mut self,
        scenario: &Scenario,
        runs: &[Option<Run>],
        w: usize,
        was: Option<Run>,
        run: Option<Run>,
    )
        requires was { run_at runs.now w ≡ was }
        requires runs { AreRuns scenario.now runs.now }
        requires counted { AreCounted scenario.now runs.now self.old }
        requires work { w < length scenario.now.works }
        ensures counted { AreCounted scenario.now (slice_set runs.now w run) self.new }
    {
        let _runs = runs;
        let queue = queue_in(scenario, w);
        let flags = flags_in(scenario, queue);
        let intensive = flags.cpu_intensive;
        let freezable = flags.freezable;
        let Counts {
            running,
            awake,
            rescued,
            busy,
        } = self;
        running.change(running_class(queue, was), running_class(queue, run));
        awake.change(awake_class(intensive, was), awake_class(intensive, run));
        rescued.change(rescued_class(queue, was), rescued_class(queue, run));
        busy.change(busy_class(freezable, was), busy_class(freezable, run));
    }

    /// The same where the work stays in its pool and on its worker. Where it neither falls asleep nor wakes nothing is touched.
    #[inline(always)]
    pub(crate) fn recount_in_place(
        &mut self,
        scenario: &Scenario,
        runs: &[Option<Run>],
        w: usize,
        was: Run,
        run: Run,
    )
        requires was { run_at runs.now w ≡ Some was }
        requires pool { run.pool ≡ was.pool }
        requires worker { run.worker ≡ was.worker }
        requires runs { AreRuns scenario.now runs.now }
        requires counted { AreCounted scenario.now runs.now self.old }
        requires work { w < length scenario.now.works }
        ensures counted { AreCounted scenario.now (slice_set runs.now w (Some run)) self.new }
    {
        let _runs = runs;
        if is_awake(was.phase) == is_awake(run.phase) {
            return;
        }
        let intensive = flags_in(scenario, queue_in(scenario, w)).cpu_intensive;
        let before = awake_class(intensive, Some(was));
        let after = awake_class(intensive, Some(run));
        self.awake.change(before, after);
    }
}

/// The number of the queue of a work that there is.
#[inline(always)]
fn queue_in(scenario: &Scenario, w: usize) -> u8
    requires work { w < length scenario.now.works }
    ensures { result ≡ queue_of scenario.now w }
{
    scenario.works[w].queue.0
}

/// The flags of a queue that there is.
#[inline(always)]
fn flags_in(scenario: &Scenario, queue: u8) -> Flags
    requires queue { queue < length scenario.now.queues }
    ensures { result ≡ flags_at scenario.now queue }
{
    scenario.queues[usize::from(queue)].flags
}
