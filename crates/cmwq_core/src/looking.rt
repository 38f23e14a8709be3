//! What a view shows of the running works.
ghost use Rattle.cmwq_table.specs.View.{entries_from};
ghost use Rattle.std.specs.Prelude.{◌≡◌, IfOk};

use cmwq_running::RunningWorks;
use cmwq_table::Running;
use cmwq_types::{NoMemory, WorkId};
use std::alloc::Global;

/// The running works, by rising number.
pub(crate) fn running_works(
    alloc: Global,
    running: &RunningWorks,
) -> Result<Vec<(WorkId, Running)>, NoMemory>
    ensures { IfOk result (λ entries. entries.items ≡ entries_from 0 running.now.running) }
{
    let works = running.scenario().works.len();
    let mut entries = Vec::with_capacity(alloc, works)?;
    for w in 0..works {
        if let Some(r) = running.of(w) {
            entries.push((WorkId(w as u16), r))?;
        }
    }
    Ok(entries)
}
