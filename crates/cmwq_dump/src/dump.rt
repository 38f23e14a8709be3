//! The dump of a machine, whole or of one pool.
ghost use Rattle.cmwq_dump.specs.Dump.{dump, pool_lines};
ghost use Rattle.std.specs.Prelude.{◌≡◌, IfOk};

use crate::dumping::Dumping;
use cmwq_table::Reads;
use cmwq_types::NoMemory;
use std::alloc::Global;

/// The dump text of the machine's state, as bytes: the clock, each queue with its `max_active`, each worker pool with its
/// workers and works, the timers, the disabled works, and each flush. The format is this project's own.
///
/// The only error is want of memory.
pub fn dump_text<R: Reads>(alloc: Global, machine: &R) -> Result<Vec<u8>, NoMemory>
    ensures text { IfOk result (λ text. text.items ≡ dump (R.loaded machine.now) (R.state machine.now)) }
{
    let mut text = String::new(alloc);
    Dumping { alloc, machine }.push_dump(&mut text)?;
    Ok(text.into_bytes())
}

/// The lines of one worker pool in that text, its own line and those of its works.
///
/// A machine has no workers and no works in a pool that its scenario doesn't have: then it is the line of a pool
/// that has made no worker.
pub fn pool_text<R: Reads>(alloc: Global, machine: &R, pool: u8) -> Result<Vec<u8>, NoMemory>
    ensures text { IfOk result (λ text. text.items ≡ pool_lines (R.loaded machine.now) (R.state machine.now) pool) }
{
    let mut text = String::new(alloc);
    Dumping { alloc, machine }.push_pool(&mut text, pool)?;
    Ok(text.into_bytes())
}
