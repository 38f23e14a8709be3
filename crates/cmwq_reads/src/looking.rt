//! What a view shows of a machine's maps.
ghost use Rattle.cmwq_table.specs.View.{entries_from, idle_from};
ghost use Rattle.cmwq_types.specs.declared.limits.TheConstants.{MAX_CPUS, MAX_WORKERS, MAX_WORKS};
ghost use Rattle.std.specs.Prelude.{◌≡◌, ◌≤◌, ◌+◌, ◌*◌, IfOk, length};

use cmwq_table::IdleWorker;
use cmwq_types::{MAX_WORKERS, NoMemory, WorkId};
use std::alloc::Global;

/// The entries of a map from works, by rising number.
pub fn entries<T: Copy>(alloc: Global, map: &[Option<T>]) -> Result<Vec<(WorkId, T)>, NoMemory>
    requires { length map.now ≤ MAX_WORKS }
    ensures { IfOk result (λ entries. entries.items ≡ entries_from 0 map.now) }
{
    let mut entries = Vec::with_capacity(alloc, map.len())?;
    for (w, entry) in map.iter().enumerate() {
        if let Some(x) = entry {
            entries.push((WorkId(w as u16), *x))?;
        }
    }
    Ok(entries)
}

/// The idle workers, by pool and worker.
pub fn idle_workers(alloc: Global, idle: &[Option<u64>]) -> Result<Vec<IdleWorker>, NoMemory>
    requires { length idle.now ≤ MAX_WORKERS * (2 * MAX_CPUS + 2) }
    ensures { IfOk result (λ workers. workers.items ≡ idle_from 0 idle.now) }
{
    let mut workers = Vec::new(alloc);
    for (seat, entry) in idle.iter().enumerate() {
        if let Some(stamp) = entry {
            workers.push(IdleWorker {
                pool: (seat / MAX_WORKERS as usize) as u8,
                worker: (seat % MAX_WORKERS as usize) as u8,
                stamp: *stamp,
            })?;
        }
    }
    Ok(workers)
}
