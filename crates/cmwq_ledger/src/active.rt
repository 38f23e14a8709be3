//! How many works of each queue are active in each pool, found in one pass over the works.
ghost use Rattle.cmwq_ledger.specs.Active.{HasActive, HasActiveUpTo, active_in, one_if};
ghost use Rattle.cmwq_ledger.specs.Bounds.{AreCountsWithin};
ghost use Rattle.cmwq_ledger.specs.Totals.{active_everywhere, most_active};
ghost use Rattle.cmwq_table.specs.Counts.{is_active, pends, runs};
ghost use Rattle.cmwq_table.specs.State.{pending_at, running_at};
ghost use Rattle.cmwq_types.specs.Scenario.{pool_count, queue_of};
ghost use Rattle.cmwq_types.specs.Setting.{IsSetting};
ghost use Rattle.std.specs.Prelude.{◌≡◌, ◌+◌, ◌-◌, ◌*◌, ◌<◌, ◌^◌, ◌&&◌, ◌==◌, length, slice_index_or, ℕ};

use cmwq_reads::active;
use cmwq_table::Reads;
use cmwq_types::{Place, Scenario};

/// Counts the active works of each queue in each pool. The counts of a queue stand one after another, by the numbers of pools.
pub(crate) fn count_active<R: Reads>(machine: &R, counts: &mut [u32])
    requires { length counts.old ≡ length (R.loaded machine.now).queues * pool_count (R.loaded machine.now) }
    ensures { HasActive (R.loaded machine.now) (R.state machine.now) counts.new }
{
    clear_counts(counts);
    for w in 0..machine.scenario().works.len() {
        count_pending(machine, counts, w);
        count_running(machine, counts, w);
    }
}

fn clear_counts(counts: &mut [u32])
    ensures { (k : ℕ) → slice_index_or counts.new k 0 ≡ 0 }
{
    for count in counts.iter_mut() {
        *count = 0;
    }
}

/// Counts the work, if it is pending and active.
fn count_pending<R: Reads>(machine: &R, counts: &mut [u32], w: usize)
    requires room { length counts.old ≡ length (R.loaded machine.now).queues * pool_count (R.loaded machine.now) }
    requires there { w < length (R.loaded machine.now).works }
    requires within { AreCountsWithin (2 ^ 32 - 2) counts.old }
    ensures counted { (queue pool : ℕ) → queue < length (R.loaded machine.now).queues → pool < pool_count (R.loaded machine.now)
        → slice_index_or counts.new (queue * pool_count (R.loaded machine.now) + pool) 0 ≡ slice_index_or counts.old (queue * pool_count (R.loaded machine.now) + pool) 0
        + one_if ((queue_of (R.loaded machine.now) w == queue) && pends (λ place. is_active place pool) (pending_at (R.state machine.now) w)) }
    ensures within { (n : ℕ) → AreCountsWithin n counts.old → AreCountsWithin (n + 1) counts.new }
{
    let scenario = machine.scenario();
    if let Some(p) = machine.pending_of(w) {
        if let Some(pool) = active_in(p.place) {
            count_at(counts, scenario, w, pool);
        }
    }
}

/// Counts the work, if it runs.
fn count_running<R: Reads>(machine: &R, counts: &mut [u32], w: usize)
    requires room { length counts.old ≡ length (R.loaded machine.now).queues * pool_count (R.loaded machine.now) }
    requires there { w < length (R.loaded machine.now).works }
    requires within { AreCountsWithin (2 ^ 32 - 2) counts.old }
    ensures counted { (queue pool : ℕ) → queue < length (R.loaded machine.now).queues → pool < pool_count (R.loaded machine.now)
        → slice_index_or counts.new (queue * pool_count (R.loaded machine.now) + pool) 0 ≡ slice_index_or counts.old (queue * pool_count (R.loaded machine.now) + pool) 0
        + one_if ((queue_of (R.loaded machine.now) w == queue) && runs (λ r. r.pool == pool) (running_at (R.state machine.now) w)) }
    ensures within { (n : ℕ) → AreCountsWithin n counts.old → AreCountsWithin (n + 1) counts.new }
{
    let scenario = machine.scenario();
    if let Some(r) = machine.running_of(w) {
        count_at(counts, scenario, w, r.pool);
    }
}

/// Counts the work of its queue in the pool, if that is one of the machine's.
fn count_at(counts: &mut [u32], scenario: &Scenario, w: usize, pool: u8)
    requires setting { IsSetting scenario.now }
    requires room { length counts.old ≡ length scenario.now.queues * pool_count scenario.now }
    requires there { w < length scenario.now.works }
    requires within { AreCountsWithin (2 ^ 32 - 2) counts.old }
    ensures counted { (queue at : ℕ) → queue < length scenario.now.queues → at < pool_count scenario.now
        → slice_index_or counts.new (queue * pool_count scenario.now + at) 0 ≡ slice_index_or counts.old (queue * pool_count scenario.now + at) 0
        + one_if ((queue_of scenario.now w == queue) && (pool == at)) }
    ensures within { (n : ℕ) → AreCountsWithin n counts.old → AreCountsWithin (n + 1) counts.new }
{
    let pools = scenario.pool_count();
    if pool >= pools {
        return;
    }
    let k = place_of_count(scenario.queue_of(w), pools, pool);
    if k < counts.len() {
        counts[k] += 1;
    }
}

/// Where the count of the queue in the pool stands.
fn place_of_count(queue: u8, pools: u8, pool: u8) -> usize
    ensures { result ≡ queue * pools + pool }
{
    queue as usize * pools as usize + pool as usize
}

/// The pool in which a pending work is active, if it is.
fn active_in(place: Place) -> Option<u8>
    ensures { result ≡ active_in place }
{
    match place {
        Place::Listed(pool) | Place::Deferred(pool) => Some(pool),
        _ => None,
    }
}

/// How many works of the queue are active in the pool that has most of them.
pub(crate) fn most_active<R: Reads>(machine: &R, counts: &[u32], queue: usize) -> u32
    requires there { queue < length (R.loaded machine.now).queues }
    requires counted { HasActive (R.loaded machine.now) (R.state machine.now) counts.now }
    ensures { result ≡ most_active (R.loaded machine.now) (R.state machine.now) queue }
{
    let pools = machine.scenario().pool_count();
    let mut most = 0;
    for pool in 0..pools {
        let k = place_of_count(queue as u8, pools, pool);
        let count = counts.get(k).copied().unwrap_or(0);
        most = most.max(count);
    }
    most
}

/// How many works of the queue are active in all pools.
pub fn active_everywhere<R: Reads>(machine: &R, queue: u8) -> u64
    ensures { result ≡ active_everywhere (R.loaded machine.now) (R.state machine.now) queue }
{
    let mut count = 0;
    for pool in 0..machine.scenario().pool_count() {
        count += active(machine, queue, pool) as u64;
    }
    count
}
