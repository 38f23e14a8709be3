//! What of a machine's parts takes room, at the start of a scenario and in a copy. It is made in stages, so that each function has little to drop
//! where memory is wanting.
ghost use Rattle.cmwq_idle.specs.Idle.{no_workers};
ghost use Rattle.cmwq_queued.specs.QueuedContents.{QueuedContents};
ghost use Rattle.cmwq_running.specs.RunningContents.{RunningContents};
ghost use Rattle.cmwq_types.specs.Scenario.{pool_count};
ghost use Rattle.cmwq_types.specs.Setting.{IsSetting};
ghost use Rattle.std.specs.Prelude.{◌≡◌, ◌≤◌, IfOk, [], None, length, map, replicate, vec_capacity};

use cmwq_idle::IdleWorkers;
use cmwq_queued::QueuedWorks;
use cmwq_reads::{copied_flushes, declared_max};
use cmwq_running::RunningWorks;
use cmwq_table::FlushTarget;
use cmwq_types::{NoMemory, Scenario, filled};
use std::alloc::Global;
use std::sync::Arc;

/// All that takes room.
#[derive(Drop)]
pub(crate) struct Stores {
    pub(crate) works: Works,
    pub(crate) others: Others,
}

/// The pending and the running works.
#[derive(Drop)]
pub(crate) struct Works {
    pub(crate) queued: QueuedWorks,
    pub(crate) running: RunningWorks,
}

/// What takes room beside the works: the workers and the numbers.
#[derive(Drop)]
pub(crate) struct Others {
    pub(crate) workers: IdleWorkers,
    pub(crate) numbers: Numbers,
}

/// Of each queue its `max_active`, of each work how much more often it was disabled than enabled, and the flushes.
#[derive(Drop)]
pub(crate) struct Numbers {
    pub(crate) max: Vec<u16>,
    pub(crate) depth: Vec<u16>,
    pub(crate) flushes: Vec<FlushTarget>,
}

/// At the start of a valid scenario no work is pending, none runs, no pool has made a worker, and the numbers are the first ones.
pub(crate) fn first_stores(alloc: Global, scenario: &Arc<Scenario>) -> Result<Stores, NoMemory>
    requires { IsSetting scenario.now.value }
    ensures scenario { IfOk result (λ stores. stores.works.queued.scenario ≡ scenario.now.value) }
    ensures idle { IfOk result (λ stores. stores.works.queued.pending ≡ replicate (length scenario.now.value.works) None) }
    ensures running { IfOk result (λ stores. stores.works.running ≡ record { scenario = scenario.now.value; time = 0; running = replicate (length scenario.now.value.works) None }) }
    ensures workers { IfOk result (λ stores. stores.others.workers ≡ no_workers (pool_count scenario.now.value) scenario.now.value.workers) }
    ensures max { IfOk result (λ stores. stores.others.numbers.max.items ≡ map (λ queue. queue.max) scenario.now.value.queues) }
    ensures depth { IfOk result (λ stores. stores.others.numbers.depth.items ≡ replicate (length scenario.now.value.works) 0) }
    ensures flushes { IfOk result (λ stores. stores.others.numbers.flushes.items ≡ []) }
    ensures room { IfOk result (λ stores. scenario.now.value.flushes ≤ vec_capacity stores.others.numbers.flushes) }
{
    let others = first_others(alloc, scenario)?;
    let works = first_works(alloc, scenario)?;
    Ok(Stores { works, others })
}

/// Stores equal to these, with room for the flushes of the scenario.
pub(crate) fn copied_stores(
    queued: &QueuedWorks,
    running: &RunningWorks,
    workers: &IdleWorkers,
    max: &Vec<u16>,
    depth: &[u16],
    flushes: &[FlushTarget],
) -> Result<Stores, NoMemory>
    ensures queued { IfOk result (λ stores. stores.works.queued ≡ queued.now) }
    ensures running { IfOk result (λ stores. stores.works.running ≡ running.now) }
    ensures workers { IfOk result (λ stores. stores.others.workers ≡ workers.now) }
    ensures max { IfOk result (λ stores. stores.others.numbers.max.items ≡ max.now.items) }
    ensures depth { IfOk result (λ stores. stores.others.numbers.depth.items ≡ depth.now) }
    ensures flushes { IfOk result (λ stores. stores.others.numbers.flushes.items ≡ flushes.now) }
    ensures room { IfOk result (λ stores. queued.now.scenario.flushes ≤ vec_capacity stores.others.numbers.flushes) }
{
    let room = queued.scenario().flushes as usize;
    let others = copied_others(workers, max, depth, flushes, room)?;
    let works = copied_works(queued, running)?;
    Ok(Stores { works, others })
}

/// No work of a valid scenario is pending, and none runs.
fn first_works(alloc: Global, scenario: &Arc<Scenario>) -> Result<Works, NoMemory>
    requires { IsSetting scenario.now.value }
    ensures scenario { IfOk result (λ works. works.queued.scenario ≡ scenario.now.value) }
    ensures idle { IfOk result (λ works. works.queued.pending ≡ replicate (length scenario.now.value.works) None) }
    ensures running { IfOk result (λ works. works.running ≡ record { scenario = scenario.now.value; time = 0; running = replicate (length scenario.now.value.works) None }) }
{
    let queued = first_queued(alloc, scenario)?;
    let running = first_running(alloc, scenario)?;
    Ok(Works { queued, running })
}

fn first_queued(alloc: Global, scenario: &Arc<Scenario>) -> Result<QueuedWorks, NoMemory>
    requires { IsSetting scenario.now.value }
    ensures scenario { IfOk result (λ queued. queued.scenario ≡ scenario.now.value) }
    ensures idle { IfOk result (λ queued. queued.pending ≡ replicate (length scenario.now.value.works) None) }
{
    QueuedWorks::new(alloc, Arc::clone(scenario)?)
}

fn first_running(alloc: Global, scenario: &Arc<Scenario>) -> Result<RunningWorks, NoMemory>
    requires { IsSetting scenario.now.value }
    ensures { IfOk result (λ running. running ≡ record { scenario = scenario.now.value; time = 0; running = replicate (length scenario.now.value.works) None }) }
{
    RunningWorks::new(alloc, Arc::clone(scenario)?)
}

/// Works equal to these.
fn copied_works(queued: &QueuedWorks, running: &RunningWorks) -> Result<Works, NoMemory>
    ensures queued { IfOk result (λ works. works.queued ≡ queued.now) }
    ensures running { IfOk result (λ works. works.running ≡ running.now) }
{
    let queued = queued.copy()?;
    let running = running.copy()?;
    Ok(Works { queued, running })
}

/// No pool has made a worker, and the numbers are the first ones.
fn first_others(alloc: Global, scenario: &Scenario) -> Result<Others, NoMemory>
    requires { IsSetting scenario.now }
    ensures workers { IfOk result (λ others. others.workers ≡ no_workers (pool_count scenario.now) scenario.now.workers) }
    ensures max { IfOk result (λ others. others.numbers.max.items ≡ map (λ queue. queue.max) scenario.now.queues) }
    ensures depth { IfOk result (λ others. others.numbers.depth.items ≡ replicate (length scenario.now.works) 0) }
    ensures flushes { IfOk result (λ others. others.numbers.flushes.items ≡ []) }
    ensures room { IfOk result (λ others. scenario.now.flushes ≤ vec_capacity others.numbers.flushes) }
{
    let numbers = first_numbers(alloc, scenario)?;
    let workers = IdleWorkers::new(alloc, scenario.pool_count(), scenario.workers)?;
    Ok(Others { workers, numbers })
}

/// Workers and numbers equal to these, with room for so many flushes.
fn copied_others(
    workers: &IdleWorkers,
    max: &Vec<u16>,
    depth: &[u16],
    flushes: &[FlushTarget],
    room: usize,
) -> Result<Others, NoMemory>
    ensures workers { IfOk result (λ others. others.workers ≡ workers.now) }
    ensures max { IfOk result (λ others. others.numbers.max.items ≡ max.now.items) }
    ensures depth { IfOk result (λ others. others.numbers.depth.items ≡ depth.now) }
    ensures flushes { IfOk result (λ others. others.numbers.flushes.items ≡ flushes.now) }
    ensures room { IfOk result (λ others. room ≤ vec_capacity others.numbers.flushes) }
{
    let numbers = copied_numbers(*max.allocator(), max, depth, flushes, room)?;
    let workers = workers.copy()?;
    Ok(Others { workers, numbers })
}

/// Each queue has the `max_active` that it declares, no work is disabled, and no flush was given.
fn first_numbers(alloc: Global, scenario: &Scenario) -> Result<Numbers, NoMemory>
    ensures max { IfOk result (λ numbers. numbers.max.items ≡ map (λ queue. queue.max) scenario.now.queues) }
    ensures depth { IfOk result (λ numbers. numbers.depth.items ≡ replicate (length scenario.now.works) 0) }
    ensures flushes { IfOk result (λ numbers. numbers.flushes.items ≡ []) }
    ensures room { IfOk result (λ numbers. scenario.now.flushes ≤ vec_capacity numbers.flushes) }
{
    let max = declared_max(alloc, &scenario.queues)?;
    let depth = filled(alloc, 0, scenario.works.len())?;
    let flushes = Vec::with_capacity(alloc, scenario.flushes as usize)?;
    Ok(Numbers {
        max,
        depth,
        flushes,
    })
}

/// Numbers equal to these, with room for so many flushes.
fn copied_numbers(
    alloc: Global,
    max: &[u16],
    depth: &[u16],
    flushes: &[FlushTarget],
    room: usize,
) -> Result<Numbers, NoMemory>
    ensures max { IfOk result (λ numbers. numbers.max.items ≡ max.now) }
    ensures depth { IfOk result (λ numbers. numbers.depth.items ≡ depth.now) }
    ensures flushes { IfOk result (λ numbers. numbers.flushes.items ≡ flushes.now) }
    ensures room { IfOk result (λ numbers. room ≤ vec_capacity numbers.flushes) }
{
    let max = Vec::from_slice(alloc, max)?;
    let depth = Vec::from_slice(alloc, depth)?;
    let flushes = copied_flushes(alloc, flushes, room)?;
    Ok(Numbers {
        max,
        depth,
        flushes,
    })
}
