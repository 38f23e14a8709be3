//! Counts in a table: of each work a row, with the count for nobody, and behind it those for the works by number.
ghost use Rattle.cmwq_blame.specs.Blame.{are_below, column, counts_for, pending_counts, place_of, running_counts, work_counts};
ghost use Rattle.cmwq_blame.specs.Table.{HasCounted, blamed_below, count_at, in_row, one_at, rows_below};
ghost use Rattle.cmwq_table.specs.State.{pending_at, running_at};
ghost use Rattle.cmwq_types.specs.declared.limits.TheConstants.{MAX_WORKS};
ghost use Rattle.std.specs.Prelude.{◌≡◌, ◌+◌, ◌*◌, ◌^◌, ◌<◌, ◌≤◌, length, true, ℕ, Option};

use crate::blamed::{blames, blames_nobody};
use crate::waiting::{is_ready, is_wait_in};
use cmwq_reasons::Reason;
use cmwq_table::Reads;
use cmwq_types::WorkId;
use cmwq_why::{pending_reason, running_reason};

/// Whether they are works of so many, or the one is and the other is nobody.
pub(crate) fn are_below(works: usize, w: usize, other: Option<usize>) -> bool
    ensures { result ≡ are_below works w other }
{
    match other {
        Some(v) => w < works && v < works,
        None => w < works,
    }
}

/// Where the count of the work for the other one stands, or for nobody.
pub(crate) fn place_of(works: usize, w: usize, other: Option<usize>) -> usize
    requires few { works ≤ MAX_WORKS }
    requires below { are_below works w other ≡ true }
    ensures place { result ≡ place_of works w other }
    ensures within { result < works * (works + 1) }
{
    w * (works + 1) + column(works, w, other)
}

/// Where a row has the count for the other work, or for nobody.
fn column(works: usize, w: usize, other: Option<usize>) -> usize
    requires few { works ≤ MAX_WORKS }
    requires below { are_below works w other ≡ true }
    ensures { result ≡ column other }
{
    match other {
        Some(v) => v + 1,
        None => 0,
    }
}

/// Counts a tick in the state for all works.
pub(crate) fn count_tick<R: Reads>(counts: &mut [u64], works: usize, machine: &R)
    requires few { works ≤ MAX_WORKS }
    requires room { length counts.old ≡ works * (works + 1) }
    requires within { (x : ℕ) (other : Option ℕ) → are_below works x other ≡ true → count_at works counts.old x other ≤ 2 ^ 62 }
    ensures same { length counts.new ≡ length counts.old }
    ensures counted { HasCounted works counts.old counts.new (work_counts (R.loaded machine.now) (R.state machine.now)) }
{
    for w in 0..works {
        count_pending(counts, works, machine, w);
        count_running(counts, works, machine, w);
    }
}

/// Counts for whom what pends of the work waits, if that waits for others.
fn count_pending<R: Reads>(counts: &mut [u64], works: usize, machine: &R, w: usize)
    requires few { works ≤ MAX_WORKS }
    requires there { w < works }
    requires room { length counts.old ≡ works * (works + 1) }
    requires within { (other : Option ℕ) → are_below works w other ≡ true → count_at works counts.old w other ≤ 2 ^ 63 }
    ensures { HasCounted works counts.old counts.new (in_row w (pending_counts (R.loaded machine.now) (R.state machine.now) w (pending_at (R.state machine.now) w))) }
{
    let Some(p) = machine.pending_of(w) else {
        return;
    };
    if is_wait_in(p.place) {
        let work = WorkId(w as u16);
        count_reason(counts, works, machine, work, pending_reason(machine, work));
    }
}

/// Counts for whom what runs of the work waits, if that waits for the CPU.
fn count_running<R: Reads>(counts: &mut [u64], works: usize, machine: &R, w: usize)
    requires few { works ≤ MAX_WORKS }
    requires there { w < works }
    requires room { length counts.old ≡ works * (works + 1) }
    requires within { (other : Option ℕ) → are_below works w other ≡ true → count_at works counts.old w other ≤ 2 ^ 63 }
    ensures { HasCounted works counts.old counts.new (in_row w (running_counts (R.loaded machine.now) (R.state machine.now) w (running_at (R.state machine.now) w))) }
{
    let Some(r) = machine.running_of(w) else {
        return;
    };
    if is_ready(machine, w, r) {
        let work = WorkId(w as u16);
        if let Some(reason) = running_reason(machine, work) {
            count_reason(counts, works, machine, work, reason);
        }
    }
}

/// Counts a tick for whom the reason blames, which is one of the work.
fn count_reason<R: Reads>(
    counts: &mut [u64],
    works: usize,
    machine: &R,
    work: WorkId,
    reason: Reason,
)
    requires few { works ≤ MAX_WORKS }
    requires there { work.0 < works }
    requires room { length counts.old ≡ works * (works + 1) }
    requires within { (other : Option ℕ) → are_below works work.0 other ≡ true → count_at works counts.old work.0 other ≤ 2 ^ 63 }
    ensures { HasCounted works counts.old counts.new (in_row work.0 (counts_for (R.loaded machine.now) (R.state machine.now) work.0 reason)) }
{
    count_blamed(counts, works, machine, work, reason);
    if blames_nobody(machine, work, reason) {
        count_one(counts, works, work.0 as usize, None);
    }
}

/// Counts a tick for each work that the reason blames, which is one of the work.
fn count_blamed<R: Reads>(
    counts: &mut [u64],
    works: usize,
    machine: &R,
    work: WorkId,
    reason: Reason,
)
    requires few { works ≤ MAX_WORKS }
    requires there { work.0 < works }
    requires room { length counts.old ≡ works * (works + 1) }
    requires within { (other : Option ℕ) → are_below works work.0 other ≡ true → count_at works counts.old work.0 other ≤ 2 ^ 63 }
    ensures { HasCounted works counts.old counts.new (in_row work.0 (blamed_below (R.loaded machine.now) (R.state machine.now) work.0 reason works)) }
{
    for v in 0..works {
        if blames(machine, work, reason, v) {
            count_one(counts, works, work.0 as usize, Some(v));
        }
    }
}

/// One more of the work for the other one, or for nobody.
fn count_one(counts: &mut [u64], works: usize, w: usize, other: Option<usize>)
    requires few { works ≤ MAX_WORKS }
    requires below { are_below works w other ≡ true }
    requires room { length counts.old ≡ works * (works + 1) }
    requires within { count_at works counts.old w other ≤ 2 ^ 63 }
    ensures { HasCounted works counts.old counts.new (one_at w other) }
{
    let place = place_of(works, w, other);
    counts[place] += 1;
}
