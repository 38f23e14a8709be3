//! What one may believe of reasons without reading their definition.
//!
//! Each function's contract is a law, over each state of each scenario, or over those that runs come to where it says
//! so. The functions do nothing: they carry the laws.
ghost use Rattle.cmwq_reasons.specs.Laws.{BlamesAtMostFive, BlamesWhoIsThere, BurnsInTick, EndsBlame, FrozenByFreeze, HeldNamesCounted, InAnyState, InactiveNamesActive, IsFiredNext, IsMovedNext, IsNextToMove, MomentsPassFirst, NoWorkerIsFree, NoWorkerNamesAll, RanksCausesBelow, TellsAfter, TellsAsleep, TellsBehind, TellsBurns, TellsDeferred, TellsDisabled, TellsFiresAfter, TellsFiresNext, TellsFree, TellsFrozen, TellsHeld, TellsHighHas, TellsInactive, TellsNoWorker, TellsNotPending, TellsReadyAfter, TellsReadyNext, TellsTimer, TellsWakesAfter, TellsWakesNext, WaitsForRelief, WaitsForThaw, WaitsUntilDone};
ghost use Rattle.cmwq_table.specs.Laws.{InEveryState};

use cmwq_table::laws::{
    inactive_works_leave_no_room, queues_have_at_most_one_rescuer, works_are_not_reentrant,
};

/// Each work that runs has one reason why it isn't further, and each reason is given exactly where its condition holds.
/// The reasons are this project's own.
#[tactic(auto, using(crate::proofs::RunningRows::running_rows))]
pub fn running_works_have_one_reason()
    ensures asleep { InAnyState TellsAsleep }
    ensures wakes_next { InAnyState TellsWakesNext }
    ensures wakes_after { InAnyState TellsWakesAfter }
    ensures behind { InAnyState TellsBehind }
    ensures ready_next { InAnyState TellsReadyNext }
    ensures ready_after { InAnyState TellsReadyAfter }
    ensures high_has { InAnyState TellsHighHas }
    ensures burns { InAnyState TellsBurns }
{}

/// Each work has one reason why what pends of it isn't further, or why nothing pends of it, and each reason is given
/// exactly where its condition holds. The reasons are this project's own.
#[tactic(auto, using(crate::proofs::PendingRows::pending_rows))]
pub fn pending_works_have_one_reason()
    ensures timer { InAnyState TellsTimer }
    ensures fires_next { InAnyState TellsFiresNext }
    ensures fires_after { InAnyState TellsFiresAfter }
    ensures deferred { InAnyState TellsDeferred }
    ensures frozen { InAnyState TellsFrozen }
    ensures inactive { InAnyState TellsInactive }
    ensures held { InAnyState TellsHeld }
    ensures free { InAnyState TellsFree }
    ensures after { InAnyState TellsAfter }
    ensures no_worker { InAnyState TellsNoWorker }
    ensures disabled { InAnyState TellsDisabled }
    ensures not_pending { InAnyState TellsNotPending }
{}

/// A reason that says *next* means it: in each pool the instance that the next move moves has such a reason, and no other
/// instance of the pool has. So a pool without a move has none.
#[tactic(auto, using(crate::proofs::NextLemmas::is_next_to_move))]
pub fn instance_to_move_is_next()
    ensures { InAnyState IsNextToMove }
{}

/// Unless the scenario's steps are spent, the step of a pool moves the instance that is next, and firing fires the timer
/// that fires next.
#[tactic(auto, using(crate::proofs::NextLemmas::is_moved_next, crate::proofs::NextLemmas::is_fired_next))]
pub fn next_instance_is_moved()
    ensures moved { InAnyState IsMovedNext }
    ensures fired { InAnyState IsFiredNext }
{}

/// Unless the scenario's steps are spent, a tick is refused exactly while some instance could get on without time. So where
/// time passes, no work waits that could move.
#[tactic(auto, using(crate::proofs::TickLemmas::moments_pass_first))]
pub fn moments_pass_before_time()
    ensures { InAnyState MomentsPassFirst }
{}

/// In a tick a work that burns has one tick less left, and a work that has any other reason stays as it is.
#[tactic(auto, using(crate::proofs::TickLemmas::burns_in_tick))]
pub fn burning_works_burn()
    ensures { InAnyState BurnsInTick }
{}

/// No wait goes round: an instance that a reason blames has a reason of lower rank.
#[tactic(auto, using(crate::proofs::RankLemmas::ranks_causes_below))]
pub fn no_wait_goes_round()
    ensures { InAnyState RanksCausesBelow }
{}

/// A chain of blame, of instances of which each has a reason that blames the next one, has at most five: so none goes round.
#[tactic(auto, using(crate::proofs::RankLemmas::blames_at_most_five))]
pub fn chains_of_blame_have_at_most_five_instances()
    ensures { InAnyState BlamesAtMostFive }
{}

/// In every state of a run blame goes on to its end: whom a reason blames, is there and has a reason; and an instance that blames
/// nobody burns, sleeps or is next, or waits for its timer or for a thaw, or lacks memory.
#[tactic(auto, using(crate::proofs::BlameLemmas::blames_who_is_there, crate::proofs::BlameLemmas::ends_blame))]
pub fn blame_goes_on_to_its_end()
    ensures there { InEveryState BlamesWhoIsThere }
    ensures ends { InEveryState EndsBlame }
{
    inactive_works_leave_no_room();
    queues_have_at_most_one_rescuer();
    works_are_not_reentrant();
}

/// A flush waits for no instance exactly where it is done.
#[tactic(auto, using(crate::proofs::FlushLemmas::waits_until_done))]
pub fn flushes_wait_until_they_are_done()
    ensures { InAnyState WaitsUntilDone }
{}

/// In every state of a run a work is told as frozen exactly where it is inactive, the machine is frozen, and its queue is freezable.
#[tactic(auto, using(crate::proofs::MaxLemmas::frozen_by_freeze))]
pub fn only_a_freeze_leaves_no_room_for_any_work()
    ensures { InEveryState FrozenByFreeze }
{}

/// Where a work waits for its queue's `max_active`, the reason blames all instances that take it up in the pool: as many as
/// are active, which are no fewer than the queue's limit.
#[tactic(auto, using(crate::proofs::CountLemmas::inactive_names_active))]
pub fn inactive_works_name_the_active_ones()
    ensures { InEveryState InactiveNamesActive }
{
    inactive_works_leave_no_room();
}

/// Where a work is held by its pool's concurrency level, the reason blames all works that the level counts, at least one.
#[tactic(auto, using(crate::proofs::CountLemmas::held_names_counted))]
pub fn held_works_name_the_counted_ones()
    ensures { InAnyState HeldNamesCounted }
{}

/// Where a work has no worker, none of the pool's is idle, and none can be made.
#[tactic(auto, using(crate::proofs::CountLemmas::no_worker_is_free))]
pub fn works_without_a_worker_find_none_idle()
    ensures { InAnyState NoWorkerIsFree }
{}

/// In every state of a run, where a work has no worker, the reason blames as many works on workers of the pool as the pool has
/// made, and beside them who of its queue is on the rescuer. The pool has made all its workers, or memory is short; and
/// nobody at all is blamed exactly where the work lacks memory.
#[tactic(auto, using(crate::proofs::NoWorkerLemmas::no_worker_names_all))]
pub fn works_without_a_worker_name_who_has_them()
    ensures { InEveryState NoWorkerNamesAll }
{
    works_are_not_reentrant();
    queues_have_at_most_one_rescuer();
}

/// A flush that waits for an instance that lacks a thaw, and that no body takes off, isn't done by itself: whatever steps, timers
/// and ticks come, it waits for it.
#[tactic(auto, using(crate::proofs::ThawLemmas::waits_for_thaw))]
pub fn no_flush_is_done_before_the_thaw()
    ensures { InAnyState WaitsForThaw }
{}

/// In every state of a run a flush that waits for an instance that lacks memory, and that no body takes off, isn't done by itself: memory
/// is short, the pool has no worker and the queue no rescuer, and whatever steps, timers and ticks come, none is made and the flush waits.
#[tactic(auto, using(crate::proofs::MemoryLemmas::waits_for_relief))]
pub fn no_flush_is_done_before_the_relief()
    ensures { InEveryState WaitsForRelief }
{
    works_are_not_reentrant();
    queues_have_at_most_one_rescuer();
}
