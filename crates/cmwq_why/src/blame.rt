//! Whom a reason names.
ghost use Rattle.cmwq_reasons.specs.Reasons.{causes, holders, pending_half, running_half, works_on_workers};
ghost use Rattle.cmwq_why.specs.Groups.{group_works};
ghost use Rattle.std.specs.Prelude.{◌≡◌, [], ◌∷◌, IfOk, map};

use crate::reason_group::{ReasonGroup, group_works};
use cmwq_reasons::{Instance, Reason};
use cmwq_table::Reads;
use cmwq_types::{NoMemory, WorkId};
use std::alloc::Global;

/// The instances that the reason blames, which is one of the work's, in the order in which it names them. The only error is
/// want of memory.
pub fn causes<R: Reads>(
    alloc: Global,
    machine: &R,
    work: WorkId,
    reason: Reason,
) -> Result<Vec<Instance>, NoMemory>
    ensures { IfOk result (λ instances. instances.items ≡ causes (R.loaded machine.now) (R.state machine.now) work.0 reason) }
{
    let queue = machine.scenario().queue_of(work.0 as usize);
    match reason {
        Reason::WakesAfter(first) | Reason::ReadyAfter(first) | Reason::After { pool: _, first } =>
            one(alloc, first),
        Reason::Behind(v) | Reason::HighHas(v) => one(alloc, Instance::Running(v)),
        Reason::Deferred(_) => one(alloc, Instance::Running(work)),
        Reason::Inactive(pool) => holders(alloc, machine, queue, pool),
        Reason::Held(pool) => running(alloc, machine, ReasonGroup::Counted(pool)),
        Reason::NoWorker(pool) => on_workers(alloc, machine, queue, pool),
        _ => Ok(Vec::new(alloc)),
    }
}

/// The active instances of the queue in the pool: those that run, are deferred, are listed.
pub fn holders<R: Reads>(
    alloc: Global,
    machine: &R,
    queue: u8,
    pool: u8,
) -> Result<Vec<Instance>, NoMemory>
    ensures { IfOk result (λ instances. instances.items ≡ holders (R.loaded machine.now) (R.state machine.now) queue pool) }
{
    let mut holders = running(alloc, machine, ReasonGroup::RunningOf { queue, pool })?;
    let deferred = pending(alloc, machine, ReasonGroup::DeferredOf { queue, pool })?;
    let listed = pending(alloc, machine, ReasonGroup::ListedOf { queue, pool })?;
    holders.extend_from_slice(&deferred)?;
    holders.extend_from_slice(&listed)?;
    Ok(holders)
}

/// What runs on the workers that a listed work of the queue could have in the pool: those of the pool, and the queue's
/// rescuer.
pub fn on_workers<R: Reads>(
    alloc: Global,
    machine: &R,
    queue: u8,
    pool: u8,
) -> Result<Vec<Instance>, NoMemory>
    ensures { IfOk result (λ running. running.items ≡ map running_half (works_on_workers (R.loaded machine.now) (R.state machine.now) queue pool)) }
{
    let mut instances = running(alloc, machine, ReasonGroup::OnWorkers(pool))?;
    let rescued = running(alloc, machine, ReasonGroup::OnRescuer(queue))?;
    instances.extend_from_slice(&rescued)?;
    Ok(instances)
}

/// This instance alone.
fn one(alloc: Global, instance: Instance) -> Result<Vec<Instance>, NoMemory>
    ensures { IfOk result (λ instances. instances.items ≡ instance ∷ []) }
{
    Ok(vec![in alloc; instance]?)
}

/// What runs of each of the group's works.
fn running<R: Reads>(
    alloc: Global,
    machine: &R,
    group: ReasonGroup,
) -> Result<Vec<Instance>, NoMemory>
    ensures { IfOk result (λ instances. instances.items ≡ map running_half (group_works (R.loaded machine.now) (R.state machine.now) group)) }
{
    let works = group_works(alloc, machine, group)?;
    Ok(
        works
            .iter()
            .map(|w| Instance::Running(WorkId(*w)))
            .collect(alloc)?,
    )
}

/// What pends of each of the group's works.
fn pending<R: Reads>(
    alloc: Global,
    machine: &R,
    group: ReasonGroup,
) -> Result<Vec<Instance>, NoMemory>
    ensures { IfOk result (λ instances. instances.items ≡ map pending_half (group_works (R.loaded machine.now) (R.state machine.now) group)) }
{
    let works = group_works(alloc, machine, group)?;
    Ok(
        works
            .iter()
            .map(|w| Instance::Pending(WorkId(*w)))
            .collect(alloc)?,
    )
}
