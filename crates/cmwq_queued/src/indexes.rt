//! Changes of an index where one work comes to be pending, or ceases to be.
ghost use Rattle.cmwq_lists.specs.ListContents.{IsAbove, rank_at, with_rank};
ghost use Rattle.cmwq_queued.specs.Indexes.{active_at, busy_at, list_at, rank_of, ranked, timer_of};
ghost use Rattle.cmwq_queued.specs.QueuedContents.{is_timer};
ghost use Rattle.cmwq_tally.specs.TallyContents.{count_of, with_one_fewer, with_one_more};
ghost use Rattle.cmwq_timers.specs.Timers.{timer_at};
ghost use Rattle.cmwq_types.specs.Scenario.{flags_at, queue_of};
ghost use Rattle.cmwq_types.specs.Setting.{IsSetting};
ghost use Rattle.cmwq_types.specs.declared.limits.TheConstants.{MAX_WORKS};
ghost use Rattle.std.specs.Prelude.{◌≡◌, ◌<◌, IfSome, None, Some, false, length, slice_set, true};

use crate::places::{busy_if, class_in, in_pool, inactive_list, is_freezable, queue_of, timer_of};
use cmwq_lists::{Lists, Node};
use cmwq_table::Pending;
use cmwq_tally::Tally;
use cmwq_timers::Timers;
use cmwq_types::{Place, Scenario, WorkId};

/// Starts the timer of a work that has none, if its place is a timer.
#[inline(always)]
pub(crate) fn start_timer(timers: &mut Timers, w: usize, p: Pending)
    requires few { w < MAX_WORKS }
    requires room { w < length timers.old }
    requires absent { timer_at timers.old w ≡ None }
    ensures { timers.new ≡ slice_set timers.old w (timer_of w (Some p)) }
{
    match timer_of(w, p) {
        Some(timer) => timers.put(timer),
        None => {}
    }
}

/// Gives a work another timer, where its place is a timer as before.
#[inline(always)]
pub(crate) fn replace_timer(timers: &mut Timers, w: usize, p: Pending)
    requires few { w < MAX_WORKS }
    requires room { w < length timers.old }
    requires timer { is_timer p.place ≡ true }
    ensures { timers.new ≡ slice_set timers.old w (timer_of w (Some p)) }
{
    match timer_of(w, p) {
        Some(timer) => timers.replace(timer),
        None => {}
    }
}

/// Takes a work's timer away, if its place was a timer. Else nothing is touched.
#[inline(always)]
pub(crate) fn stop_timer(timers: &mut Timers, w: usize, place: Place)
    requires few { w < MAX_WORKS }
    requires room { w < length timers.old }
    requires absent { is_timer place ≡ false → timer_at timers.old w ≡ None }
    ensures { timers.new ≡ slice_set timers.old w None }
{
    match place {
        Place::Timer { .. } => timers.stop(WorkId(w as u16)),
        _ => {}
    }
}

/// Puts a work that stands in no list at the back of the one that its place means, if it means one.
#[inline(always)]
pub(crate) fn enlist(scenario: &Scenario, lists: &mut Lists, w: usize, p: Pending)
    requires work { w < length scenario.now.works }
    requires few { w < MAX_WORKS }
    requires room { w < length lists.old.ranks }
    requires free { rank_at lists.old w ≡ None }
    requires list { IfSome (list_at (queue_of scenario.now w) p.place) (λ list. list < lists.old.lists) }
    requires above { IfSome (list_at (queue_of scenario.now w) p.place) (λ list. IsAbove lists.old list p.stamp) }
    ensures { lists.new ≡ with_rank lists.old w (rank_of (queue_of scenario.now w) (Some p)) }
{
    match p.place {
        Place::Listed(pool) => push(lists, w, in_pool(pool, usize::from(pool)), p.stamp),
        Place::Inactive(pool) => {
            let list = inactive_list(queue_of(scenario, w), pool);
            push(lists, w, in_pool(pool, list), p.stamp);
        }
        _ => {}
    }
}

/// Puts a work that stands in no list at the back of one, if one is given.
#[inline(always)]
fn push(lists: &mut Lists, w: usize, list: Option<usize>, stamp: u64)
    requires few { w < MAX_WORKS }
    requires room { w < length lists.old.ranks }
    requires free { rank_at lists.old w ≡ None }
    requires list { IfSome list (λ list. list < lists.old.lists) }
    requires above { IfSome list (λ list. IsAbove lists.old list stamp) }
    ensures { lists.new ≡ with_rank lists.old w (ranked list stamp) }
{
    match list {
        None => {}
        Some(list) => {
            let node = Node {
                order: u128::from(stamp),
                work: WorkId(w as u16),
            };
            lists.push_back(list, node);
        }
    }
}

/// Takes a work out of its list, if it stands in one. Where its place was a timer, nothing is touched.
#[inline(always)]
pub(crate) fn unlist(lists: &mut Lists, w: usize, place: Place)
    requires room { w < length lists.old.ranks }
    requires free { is_timer place ≡ true → rank_at lists.old w ≡ None }
    ensures { lists.new ≡ with_rank lists.old w None }
{
    match place {
        Place::Timer { .. } => {}
        _ => lists.take(w),
    }
}

/// Counts one work more in the classes that its place means.
#[inline(always)]
pub(crate) fn count(
    scenario: &Scenario,
    active: &mut Tally,
    busy: &mut Tally,
    w: usize,
    place: Place,
)
    requires setting { IsSetting scenario.now }
    requires work { w < length scenario.now.works }
    requires active { IfSome (active_at (queue_of scenario.now w) place) (λ i. count_of active.old i < 65535) }
    requires busy { IfSome (busy_at (flags_at scenario.now (queue_of scenario.now w)).freezable place) (λ i. count_of busy.old i < 65535) }
    ensures active { active.new ≡ with_one_more active.old (active_at (queue_of scenario.now w) place) }
    ensures busy { busy.new ≡ with_one_more busy.old (busy_at (flags_at scenario.now (queue_of scenario.now w)).freezable place) }
{
    match place {
        Place::Listed(pool) | Place::Deferred(pool) => {
            let queue = queue_of(scenario, w);
            active.change(None, in_pool(pool, class_in(queue, pool)));
            busy.change(None, busy_if(is_freezable(scenario, queue)));
        }
        _ => {}
    }
}

/// Counts one work fewer in the classes that its place means.
#[inline(always)]
pub(crate) fn uncount(
    scenario: &Scenario,
    active: &mut Tally,
    busy: &mut Tally,
    w: usize,
    place: Place,
)
    requires setting { IsSetting scenario.now }
    requires work { w < length scenario.now.works }
    requires active { IfSome (active_at (queue_of scenario.now w) place) (λ i. i < length active.old → 0 < count_of active.old i) }
    requires busy { IfSome (busy_at (flags_at scenario.now (queue_of scenario.now w)).freezable place) (λ i. i < length busy.old → 0 < count_of busy.old i) }
    ensures active { active.new ≡ with_one_fewer active.old (active_at (queue_of scenario.now w) place) }
    ensures busy { busy.new ≡ with_one_fewer busy.old (busy_at (flags_at scenario.now (queue_of scenario.now w)).freezable place) }
{
    match place {
        Place::Deferred(pool) | Place::Listed(pool) => {
            let queue = queue_of(scenario, w);
            active.change(in_pool(pool, class_in(queue, pool)), None);
            busy.change(busy_if(is_freezable(scenario, queue)), None);
        }
        _ => {}
    }
}
