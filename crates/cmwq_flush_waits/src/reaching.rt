//! The instances that some wait for, and those that these wait for, down to the last.
ghost use Rattle.cmwq_reasons.specs.Reasons.{holders, is_same, work_of};
ghost use Rattle.cmwq_flush_waits.specs.Holders.{HasHolders};
ghost use Rattle.cmwq_flush_waits.specs.Waits.{blamed_for, reached, with_blamed, with_instance, with_instances};
ghost use Rattle.std.specs.List.{list_any};
ghost use Rattle.std.specs.Prelude.{◌≡◌, IfOk, IfSome, IsSome, IsTrue, OnOk};

use cmwq_reasons::{Instance, Reason};
use cmwq_table::Reads;
use cmwq_types::{NoMemory, WorkId};
use cmwq_why::{causes, is_same, reason_of};
use std::alloc::Global;

/// A queue whose limit is taken up in a pool.
#[derive(Clone, Copy)]
struct Full {
    queue: u8,
    pool: u8,
}

/// These instances, then those whom they blame, and so on, each once.
pub(crate) fn reached<R: Reads>(
    alloc: Global,
    machine: &R,
    instances: &[Instance],
) -> Result<Vec<Instance>, NoMemory>
    ensures { IfOk result (λ all. all.items ≡ reached (R.loaded machine.now) (R.state machine.now) instances.now) }
{
    let mut all = Vec::new(alloc);
    all.extend_from_slice(instances)?;
    let mut held = None;
    for place in 0..2 * machine.scenario().works.len() {
        held = add_blamed(alloc, machine, &mut all, place, held)?;
    }
    Ok(all)
}

/// Adds those whom the instance at the place blames, if there is one. It answers of which full queue the holders were added last: they
/// aren't found again for the next instance that waits for the same.
fn add_blamed<R: Reads>(
    alloc: Global,
    machine: &R,
    all: &mut Vec<Instance>,
    place: usize,
    held: Option<Full>,
) -> Result<Option<Full>, NoMemory>
    requires { HasHolders (R.loaded machine.now) (R.state machine.now) held all.old.items }
    ensures blamed { OnOk result (all.new.items ≡ with_blamed (R.loaded machine.now) (R.state machine.now) all.old.items place) }
    ensures held { IfOk result (λ held. HasHolders (R.loaded machine.now) (R.state machine.now) held all.new.items) }
{
    let Some(instance) = all.get(place).copied() else {
        return Ok(held);
    };
    let work = work_of(instance);
    let reason = reason_of(machine, instance);
    let full = full_queue(machine, work, reason);
    if is_held(full, held) {
        return Ok(held);
    }
    let blamed = blamed_for(alloc, machine, work, reason)?;
    add_all(all, &blamed)?;
    Ok(full.or(held))
}

/// The queue for which an instance of the work waits for this reason, if it is full.
fn full_queue<R: Reads>(machine: &R, work: WorkId, reason: Option<Reason>) -> Option<Full>
    ensures { IfSome result (λ full. blamed_for (R.loaded machine.now) (R.state machine.now) work.0 reason
        ≡ holders (R.loaded machine.now) (R.state machine.now) full.queue full.pool) }
{
    match reason {
        Some(Reason::Inactive(pool)) => Some(Full {
            queue: machine.scenario().queue_of(work.0 as usize),
            pool,
        }),
        _ => None,
    }
}

/// Whether there is such a queue, and it is the one whose holders were added.
fn is_held(full: Option<Full>, held: Option<Full>) -> bool
    ensures { IsTrue result → IsSome full × (full ≡ held) }
{
    match (full, held) {
        (Some(full), Some(held)) => full.queue == held.queue && full.pool == held.pool,
        _ => false,
    }
}

/// Those whom an instance of the work blames for this reason.
fn blamed_for<R: Reads>(
    alloc: Global,
    machine: &R,
    work: WorkId,
    reason: Option<Reason>,
) -> Result<Vec<Instance>, NoMemory>
    ensures { IfOk result (λ instances. instances.items ≡ blamed_for (R.loaded machine.now) (R.state machine.now) work.0 reason) }
{
    match reason {
        Some(reason) => causes(alloc, machine, work, reason),
        None => Ok(Vec::new(alloc)),
    }
}

/// Adds those that aren't there yet.
fn add_all(all: &mut Vec<Instance>, others: &[Instance]) -> Result<(), NoMemory>
    ensures { OnOk result (all.new.items ≡ with_instances all.old.items others.now) }
{
    for other in others {
        add(all, *other)?;
    }
    Ok(())
}

/// Adds the instance, unless it is there.
fn add(all: &mut Vec<Instance>, instance: Instance) -> Result<(), NoMemory>
    ensures { OnOk result (all.new.items ≡ with_instance all.old.items instance) }
{
    if !has(all, instance) {
        all.push(instance)?;
    }
    Ok(())
}

fn has(all: &[Instance], instance: Instance) -> bool
    ensures { result ≡ list_any (is_same instance) all.now }
{
    all.iter().any(|other| is_same(instance, *other))
}

/// The instance's work.
pub(crate) fn work_of(instance: Instance) -> WorkId
    ensures { result.0 ≡ work_of instance }
{
    match instance {
        Instance::Pending(w) | Instance::Running(w) => w,
    }
}
