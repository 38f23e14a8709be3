//! What a reader believes about workqueues without reading the table.
//!
//! Each function's contract is a law, over every valid scenario and every list of instructions. The functions
//! do nothing: they carry the laws.
ghost use Rattle.cmwq_types.specs.Contents.{ScenarioContents};
ghost use Rattle.cmwq_types.specs.declared.instr.Instr.{Instr};
ghost use Rattle.cmwq_table.specs.Changes.{ChangesWhatItSays};
ghost use Rattle.cmwq_table.specs.State.{State};
ghost use Rattle.cmwq_table.specs.Laws.{ActivatesInOrder, AtEveryInstruction, ChangesNothingAsked, ChangesNothingMet, ChangesNothingRefused, GoesInOrder, GoesOnAsNext, HasOneRescuer, InEveryState, IsDoneMet, IsNotPendingDisabled, LeavesNoRoom, ListsInOrder, RescuersWork, StartsAtLevelZero, TimeWaitsForStarts, RisesByWakes, RisesWithinLimit, IsNotReentrant, StayDone, TellsActive, WaitForInstances};
ghost use Rattle.cmwq_table.specs.Ready.{HasCounters};

/// An instruction that is refused changes nothing: neither a work, a worker or a flush, nor the time, the stamps
/// or what was spent. That is this project's own rule.
#[tactic(auto, using(crate::proofs::LawLemmas::Refusals::changes_nothing_refused))]
pub fn refused_instructions_change_nothing()
    ensures { AtEveryInstruction ChangesNothingRefused }
{}

/// A question changes nothing, whatever it is answered. That is this project's own rule.
#[tactic(auto, using(crate::proofs::LawLemmas::Refusals::changes_nothing_asked))]
pub fn questions_change_nothing()
    ensures { AtEveryInstruction ChangesNothingAsked }
{}

/// `Until`, `Wait` and `Quiet` change nothing where what they go on for has come, and are `Done`; until then they do and answer
/// what `Next` would. That is this project's own rule.
#[tactic(auto, using(crate::proofs::GoingLemmas::changes_nothing_met, crate::proofs::GoingLemmas::is_done_met, crate::proofs::GoingLemmas::goes_on_as_next))]
pub fn conditions_end_what_goes_on()
    ensures met { AtEveryInstruction ChangesNothingMet }
    ensures done { AtEveryInstruction IsDoneMet }
    ensures unmet { AtEveryInstruction GoesOnAsNext }
{}

/// Each instruction changes what its reply says, and nothing else, by one of a few kinds of change (`Changes`): inactive work items
/// are listed, one work item is taken off or placed, one instance moves, a tick passes, or a caller sets a limit, a depth or a mode.
#[tactic(auto, using(crate::proofs::Doings::changes_what_it_says))]
pub fn instructions_change_what_replies_say()
    ensures { (S : ScenarioContents) (s : State) (i : Instr) → ChangesWhatItSays S s i }
{}

/// A run comes to its end: no more instructions are accepted and spent than the scenario's `steps`, and at most
/// one tick passes for each of them. Nor does it run out of stamps: each takes at most 278,528. And no work is disabled
/// more than 65,535 times more often than enabled. That is this project's own rule.
#[tactic(auto, using(crate::proofs::CounterLemmas::has_counters))]
pub fn counters_keep_within_the_steps()
    ensures { InEveryState HasCounters }
{}

/// A bound worker pool takes no counted work off its worklist beside a counted runnable worker: where its
/// concurrency level rises and is then above one, a sleeping worker has woken. (A deferred work that starts takes
/// the place of the one that finished, so the level doesn't rise by it.)
#[tactic(auto, using(crate::proofs::LawLemmas::Conclusions::rises_by_wakes))]
pub fn concurrency_level_rises_by_wakes()
    ensures { AtEveryInstruction RisesByWakes }
{}

/// A pool starts the next work as soon as the last runnable one sleeps or ends: where time passes, each pool
/// with a listed work has a counted runnable worker, or has no idle worker and, unless memory is short, has made all its
/// workers.
#[tactic(auto, using(crate::proofs::LawLemmas::Conclusions::time_waits_for_starts))]
pub fn no_time_passes_while_a_work_can_start()
    ensures { AtEveryInstruction TimeWaitsForStarts }
{}

/// A worker takes a work off its pool's worklist only where the concurrency level is 0, be the work CPU-intensive or
/// not: where a work begins to run that didn't, it was listed in that pool, and the level was 0. (A work that is queued
/// while it runs begins again in place of the one that finished; an unbound pool's level is always 0.)
#[tactic(auto, using(crate::proofs::LawLemmas::Starts::starts_at_level_zero))]
pub fn works_start_at_level_zero()
    ensures { AtEveryInstruction StartsAtLevelZero }
{}

/// `max_active` bounds how many works of a queue are active in a pool: where that count rises, it is then at
/// most the queue's limit.
#[tactic(auto, using(crate::proofs::LawLemmas::Conclusions::rises_within_limit))]
pub fn active_works_rise_within_the_limit()
    ensures { AtEveryInstruction RisesWithinLimit }
{}

/// The works of a queue are activated in a pool in the order in which they were queued: an instance that is active there
/// was queued before each one of the queue that waits there then, or after any further instructions.
#[tactic(auto, using(crate::proofs::LawLemmas::Conclusions::activates_in_order))]
pub fn queues_activate_in_order()
    ensures { InEveryState ActivatesInOrder }
{}

/// They stand on the pool's worklist in the same order, so a pool takes them off it as they were queued.
#[tactic(auto, using(crate::proofs::LawLemmas::Conclusions::lists_in_order))]
pub fn worklists_keep_the_order_of_queueing()
    ensures { InEveryState ListsInOrder }
{}

/// An ordered queue executes at most one work at any time, in the order of queueing: it has at most one active
/// instance over all pools, and that one was queued before every inactive instance.
#[tactic(auto, using(crate::proofs::LawLemmas::Conclusions::goes_in_order))]
pub fn ordered_queues_go_one_by_one_in_order()
    ensures { InEveryState GoesInOrder }
{}

/// Nothing but the limit of its queue keeps a work inactive: where a queue has an inactive instance in a pool,
/// its active count there is at least its limit.
#[tactic(auto, using(crate::proofs::LawLemmas::Conclusions::leaves_no_room))]
pub fn inactive_works_leave_no_room()
    ensures { InEveryState LeavesNoRoom }
{}

/// `Busy` is answered yes exactly where some freezable queue has an active work in some pool, as the kernel's
/// `freeze_workqueues_busy` counts them.
#[tactic(auto, using(crate::proofs::LawLemmas::Busy::tells_active))]
pub fn busy_tells_of_active_works()
    ensures { InEveryState TellsActive }
{}

/// A work is executed by at most one worker at any time: where it is placed while it runs, it is placed in the
/// pool in which it runs, and a deferred work runs.
#[tactic(auto, using(crate::proofs::LawLemmas::Conclusions::is_not_reentrant))]
pub fn works_are_not_reentrant()
    ensures { InEveryState IsNotReentrant }
{}

/// A disabled work is kept off: while a work was disabled more often than enabled, it isn't pending. No instruction, timer
/// or body queues it, as nothing queues a work that the kernel's `disable_work` disabled.
#[tactic(auto, using(crate::proofs::LawLemmas::Conclusions::is_not_pending_disabled))]
pub fn disabled_works_are_not_pending()
    ensures { InEveryState IsNotPendingDisabled }
{}

/// A queue with `mem_reclaim` has one rescuer: at most one of its works runs on a rescuer, in whatever pool, and no work of
/// a queue without the flag does.
#[tactic(auto, using(crate::proofs::LawLemmas::Conclusions::has_one_rescuer))]
pub fn queues_have_at_most_one_rescuer()
    ensures { InEveryState HasOneRescuer }
{}

/// A queue with `mem_reclaim` has an execution context regardless of memory pressure: where a pool may start a work, and one
/// of the queue is listed there that doesn't run, while the queue's rescuer is free, the pool has a move. So no time passes
/// until a worker or the rescuer has taken it.
#[tactic(auto, using(crate::proofs::LawLemmas::Conclusions::rescuers_work))]
pub fn rescuers_work_regardless_of_memory()
    ensures { InEveryState RescuersWork }
{}

/// A flush that is done stays done, whatever is queued after it.
#[tactic(auto, using(crate::proofs::LawLemmas::Conclusions::stay_done))]
pub fn done_flushes_stay_done()
    ensures { InEveryState StayDone }
{}

/// A flush waits for what it is on: it isn't done while such an instance is inactive, listed or deferred, or
/// runs.
#[tactic(auto, using(crate::proofs::LawLemmas::Conclusions::wait_for_instances))]
pub fn flushes_wait_for_their_instances()
    ensures { InEveryState WaitForInstances }
{}
