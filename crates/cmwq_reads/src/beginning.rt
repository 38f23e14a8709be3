//! The vectors of a start state, and of a copy.
ghost use Rattle.std.specs.Prelude.{◌≡◌, ◌≤◌, IfOk, map, vec_capacity};

use cmwq_table::FlushTarget;
use cmwq_types::{NoMemory, QueueDecl};
use std::alloc::Global;

/// The `max_active` of each queue as it is declared.
pub fn declared_max(alloc: Global, queues: &[QueueDecl]) -> Result<Vec<u16>, NoMemory>
    ensures { IfOk result (λ max. max.items ≡ map (λ queue. queue.max) queues.now) }
{
    Ok(queues.iter().map(|queue| queue.max).collect(alloc)?)
}

/// These flushes, in a vector with room for so many.
pub fn copied_flushes(
    alloc: Global,
    flushes: &[FlushTarget],
    room: usize,
) -> Result<Vec<FlushTarget>, NoMemory>
    ensures items { IfOk result (λ v. v.items ≡ flushes.now) }
    ensures room { IfOk result (λ v. room ≤ vec_capacity v) }
{
    let mut copy = Vec::with_capacity(alloc, room)?;
    copy.extend_from_slice(flushes)?;
    Ok(copy)
}
