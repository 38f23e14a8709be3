//! The first runnable work of each pool, found in one pass over the works.
ghost use Rattle.cmwq_ledger.specs.Heads.{HasHeads, HasHeadsBelow, is_runnable_in};
ghost use Rattle.cmwq_table.specs.Counts.{running_before};
ghost use Rattle.cmwq_types.specs.First.{first_with};
ghost use Rattle.cmwq_types.specs.Scenario.{pool_count};
ghost use Rattle.std.specs.Prelude.{◌≡◌, ◌+◌, ◌≤◌, None, length, slice_index_or, true, ℕ};

use cmwq_reads::running_before;
use cmwq_table::Reads;

/// Finds the first runnable work of each of the machine's pools.
pub(crate) fn find_heads<R: Reads>(machine: &R, heads: &mut [Option<usize>])
    requires { pool_count (R.loaded machine.now) ≤ length heads.old }
    ensures { HasHeads (R.loaded machine.now) (R.state machine.now) heads.new }
{
    clear(heads);
    for w in 0..machine.scenario().works.len() {
        note_work(machine, heads, w);
    }
}

fn clear(heads: &mut [Option<usize>])
    ensures { (pool : ℕ) → slice_index_or heads.new pool None ≡ None }
{
    for head in heads.iter_mut() {
        *head = None;
    }
}

/// The list has the heads among the works before this one, and takes this one too.
fn note_work<R: Reads>(machine: &R, heads: &mut [Option<usize>], w: usize)
    requires room { pool_count (R.loaded machine.now) ≤ length heads.old }
    requires below { HasHeadsBelow (R.loaded machine.now) (R.state machine.now) w heads.old }
    ensures { HasHeadsBelow (R.loaded machine.now) (R.state machine.now) (w + 1) heads.new }
{
    let Some(r) = machine.running_of(w) else {
        return;
    };
    if !r.mode.is_runnable() {
        return;
    }
    let pool = r.pool as usize;
    if pool < heads.len() {
        heads[pool] = sooner_runnable(machine, heads[pool], w);
    }
}

/// The work, or the first one so far where the work didn't start or wake before that.
fn sooner_runnable<R: Reads>(machine: &R, first: Option<usize>, w: usize) -> Option<usize>
    ensures { result ≡ first_with (running_before (R.state machine.now)) w true first }
{
    match first {
        Some(v) if !running_before(machine, w, v) => Some(v),
        _ => Some(w),
    }
}
