//! Runs in which the premises of the laws hold, as theorems over the definitions: no law is met for want of a
//! case.
#![tactic(auto, unfolding(cmwq_table::specs::Table::table))]

ghost use Rattle.cmwq_examples.specs.Premises.{after_lines, before_start, before_tick, before_wake, both_queued, flushes_given, itself_deferred, itself_queued, max_raised, one_flushed, one_freezable, one_worker, queued_on_both, queued_once, rescuer_freed, rescuer_taken, rescuer_wanted, sleeper, two_ordered, work_disabled, work_finished, work_queued_again, worker_taken, worker_wanted};
ghost use Rattle.cmwq_examples.specs.FinerRules.{fills};
ghost use Rattle.cmwq_examples.specs.Rows.{activated_in_order, cpu_intensive_beside_normal, pressed, queues_itself};
ghost use Rattle.cmwq_table.specs.Counts.{active, counted, first_listed, free_worker, has_free_rescuer, is_busy, is_done, limit, may_start, runs_on_rescuer};
ghost use Rattle.cmwq_table.specs.Laws.{active_anywhere, goes_on, reply_to, state_after, tells_wake};
ghost use Rattle.cmwq_table.specs.Moves.{next_move};
ghost use Rattle.cmwq_table.specs.State.{depth_at, idle_at, made_at, pending_at, running_at};
ghost use Rattle.cmwq_table.specs.Table.{is_met, is_question, place_of, target_at};
ghost use Rattle.cmwq_types.specs.Faults.{IsValid};
ghost use Rattle.cmwq_types.specs.Scenario.{flags_at};
ghost use Rattle.std.specs.Prelude.{◌≡◌, [], None, Some, false, is_some, length, true};

use cmwq_table::FlushTarget;
use cmwq_types::{Instr, Move, Place, Refusal, Reply};

/// An instruction is refused: a timer is to fire where none is due.
pub fn instruction_is_refused()
    ensures { reply_to one_flushed (after_lines one_flushed []) Instr.Fire ≡ Reply.Refused Refusal.NothingToDo }
{}

/// A question is answered.
pub fn question_is_answered()
    ensures question { is_question Instr.Busy ≡ true }
    ensures answer { reply_to one_flushed (after_lines one_flushed []) Instr.Busy ≡ Reply.No }
{}

/// One until is met at the start; another one isn't, and goes on.
pub fn conditions_are_met_and_not()
    ensures met { is_met one_flushed (after_lines one_flushed []) (Instr.Until 0) ≡ true }
    ensures goes_on { goes_on (Instr.Until 1) ≡ true }
    ensures unmet { is_met one_flushed (after_lines one_flushed []) (Instr.Until 1) ≡ false }
    ensures later { (state_after one_flushed (after_lines one_flushed []) (Instr.Until 1)).time ≡ 1 }
{}

/// The concurrency level of a pool rises from one to two, as a sleeping work wakes beside a burning one.
pub fn level_rises_above_one()
    ensures before { counted sleeper (after_lines sleeper before_wake) 0 ≡ 1 }
    ensures after { counted sleeper (state_after sleeper (after_lines sleeper before_wake) Instr.Next) 0 ≡ 2 }
    ensures wake { tells_wake (reply_to sleeper (after_lines sleeper before_wake) Instr.Next) ≡ true }
{}

/// A CPU-intensive work starts beside another one that is runnable, since the concurrency level is 0.
pub fn work_starts_at_level_zero()
    ensures idle { running_at (after_lines cpu_intensive_beside_normal before_start) 2 ≡ None }
    ensures listed { place_of (pending_at (after_lines cpu_intensive_beside_normal before_start) 2) ≡ Some (Place.Listed 0) }
    ensures beside { place_of (pending_at (after_lines cpu_intensive_beside_normal before_start) 1) ≡ None }
    ensures runs { is_some (running_at (after_lines cpu_intensive_beside_normal before_start) 1) ≡ true }
    ensures level { counted cpu_intensive_beside_normal (after_lines cpu_intensive_beside_normal before_start) 0 ≡ 0 }
    ensures starts { is_some (running_at (state_after cpu_intensive_beside_normal (after_lines cpu_intensive_beside_normal before_start) Instr.Next) 2) ≡ true }
{}

/// Time passes while a work is listed behind a burning one.
pub fn time_passes_beside_a_burning_work()
    ensures listed { place_of (pending_at (after_lines sleeper before_tick) 2) ≡ Some (Place.Listed 0) }
    ensures level { counted sleeper (after_lines sleeper before_tick) 0 ≡ 1 }
    ensures before { (after_lines sleeper before_tick).time ≡ 0 }
    ensures after { (state_after sleeper (after_lines sleeper before_tick) Instr.Tick).time ≡ 1 }
{}

/// Time passes while a work is listed in an unbound pool, all of whose workers run.
pub fn time_passes_while_all_workers_run()
    ensures listed { place_of (pending_at (after_lines one_worker worker_taken) 1) ≡ Some (Place.Listed 2) }
    ensures level { counted one_worker (after_lines one_worker worker_taken) 2 ≡ 0 }
    ensures none_idle { idle_at (after_lines one_worker worker_taken) 2 0 ≡ None }
    ensures all_made { made_at (after_lines one_worker worker_taken) 2 ≡ 1 }
    ensures before { (after_lines one_worker worker_taken).time ≡ 0 }
    ensures after { (state_after one_worker (after_lines one_worker worker_taken) Instr.Tick).time ≡ 1 }
{}

/// Time passes while a work is listed in a pool that could make a worker for it, but for the shortage of memory.
pub fn time_passes_while_memory_is_short()
    ensures listed { place_of (pending_at (after_lines pressed worker_wanted) 2) ≡ Some (Place.Listed 0) }
    ensures level { counted pressed (after_lines pressed worker_wanted) 0 ≡ 0 }
    ensures none_idle { idle_at (after_lines pressed worker_wanted) 0 0 ≡ None }
    ensures made { made_at (after_lines pressed worker_wanted) 0 ≡ 1 }
    ensures short { (after_lines pressed worker_wanted).pressed ≡ true }
    ensures before { (after_lines pressed worker_wanted).time ≡ 0 }
    ensures after { (state_after pressed (after_lines pressed worker_wanted) Instr.Tick).time ≡ 1 }
{}

/// Behind a work that no worker is free for another one is listed, whose queue has a free rescuer.
pub fn listed_work_can_be_rescued()
    ensures level { may_start pressed (after_lines pressed rescuer_wanted) 0 ≡ true }
    ensures first { first_listed pressed (after_lines pressed rescuer_wanted) 0 ≡ Some 2 }
    ensures no_worker { free_worker pressed (after_lines pressed rescuer_wanted) 0 ≡ None }
    ensures listed { place_of (pending_at (after_lines pressed rescuer_wanted) 1) ≡ Some (Place.Listed 0) }
    ensures still { running_at (after_lines pressed rescuer_wanted) 1 ≡ None }
    ensures free { has_free_rescuer pressed (after_lines pressed rescuer_wanted) 1 ≡ true }
    ensures rescued { next_move pressed (after_lines pressed rescuer_wanted) 0 ≡ Some (Move.Rescue (record { 0 = 1 })) }
{}

/// A work runs on the rescuer of its queue, which isn't free then.
pub fn work_runs_on_the_rescuer()
    ensures reclaims { (flags_at pressed 1).mem_reclaim ≡ true }
    ensures runs { runs_on_rescuer (after_lines pressed rescuer_taken) 1 ≡ true }
    ensures taken { has_free_rescuer pressed (after_lines pressed rescuer_taken) 1 ≡ false }
{}

/// Its end takes no stamp, makes no worker idle, and leaves the rescuer free. Another queue has none.
pub fn rescuer_is_free_again()
    ensures stamps_before { (after_lines pressed rescuer_taken).next ≡ 5 }
    ensures stamps { (after_lines pressed rescuer_freed).next ≡ 5 }
    ensures idle { (after_lines pressed rescuer_freed).idle ≡ (after_lines pressed []).idle }
    ensures made { (after_lines pressed rescuer_freed).made ≡ (after_lines pressed rescuer_taken).made }
    ensures free { has_free_rescuer pressed (after_lines pressed rescuer_freed) 1 ≡ true }
    ensures no_other { has_free_rescuer pressed (after_lines pressed rescuer_freed) 0 ≡ false }
{}

/// The active count of a queue rises to its limit.
pub fn active_count_rises_to_the_limit()
    ensures before { active one_flushed (after_lines one_flushed []) 0 0 ≡ 0 }
    ensures after { active one_flushed (state_after one_flushed (after_lines one_flushed []) queued_once) 0 0 ≡ 1 }
    ensures limit { limit one_flushed (state_after one_flushed (after_lines one_flushed []) queued_once) 0 ≡ 1 }
{}

/// An ordered queue has an active instance and an inactive one, and its limit is reached.
pub fn ordered_work_waits()
    ensures active { place_of (pending_at (after_lines two_ordered both_queued) 0) ≡ Some (Place.Listed 2) }
    ensures inactive { place_of (pending_at (after_lines two_ordered both_queued) 1) ≡ Some (Place.Inactive 2) }
    ensures anywhere { active_anywhere two_ordered (after_lines two_ordered both_queued) 0 ≡ 1 }
    ensures level { active two_ordered (after_lines two_ordered both_queued) 0 2 ≡ 1 }
    ensures limit { limit two_ordered (after_lines two_ordered both_queued) 0 ≡ 1 }
{}

/// Of three works of one queue, queued as c, b and a, two are listed, b with a later stamp than its birth, and the third
/// waits.
pub fn works_wait_in_order()
    ensures first { pending_at (after_lines activated_in_order max_raised) 2 ≡ Some (record { born = 0; stamp = 0; place = Place.Listed 0 }) }
    ensures second { pending_at (after_lines activated_in_order max_raised) 1 ≡ Some (record { born = 1; stamp = 3; place = Place.Listed 0 }) }
    ensures waits { pending_at (after_lines activated_in_order max_raised) 0 ≡ Some (record { born = 2; stamp = 2; place = Place.Inactive 0 }) }
{}

/// The order is that of one pool: on another CPU a work is listed that was queued after one that waits.
pub fn pools_activate_apart()
    ensures waits { pending_at (after_lines fills queued_on_both) 6 ≡ Some (record { born = 3; stamp = 3; place = Place.Inactive 2 }) }
    ensures listed { pending_at (after_lines fills queued_on_both) 2 ≡ Some (record { born = 4; stamp = 4; place = Place.Listed 0 }) }
{}

/// A freezable queue has an active work, and is busy; before, it is neither.
pub fn freezable_queue_is_busy()
    ensures idle { active one_freezable (after_lines one_freezable []) 0 0 ≡ 0 }
    ensures not_busy { is_busy one_freezable (after_lines one_freezable []) ≡ false }
    ensures active { active one_freezable (state_after one_freezable (after_lines one_freezable []) queued_once) 0 0 ≡ 1 }
    ensures busy { is_busy one_freezable (state_after one_freezable (after_lines one_freezable []) queued_once) ≡ true }
{}

/// A work is listed while it runs, and deferred while it sleeps.
pub fn running_work_is_placed()
    ensures listed { place_of (pending_at (after_lines queues_itself itself_queued) 0) ≡ Some (Place.Listed 0) }
    ensures runs { is_some (running_at (after_lines queues_itself itself_queued) 0) ≡ true }
    ensures deferred { place_of (pending_at (after_lines queues_itself itself_deferred) 0) ≡ Some (Place.Deferred 0) }
    ensures sleeps { is_some (running_at (after_lines queues_itself itself_deferred) 0) ≡ true }
{}

/// A work that was queued was disabled twice, and isn't pending any more.
pub fn work_is_disabled()
    ensures queued { is_some (pending_at (state_after one_flushed (after_lines one_flushed []) queued_once) 0) ≡ true }
    ensures depth { depth_at (after_lines one_flushed work_disabled) 0 ≡ 2 }
    ensures not_pending { pending_at (after_lines one_flushed work_disabled) 0 ≡ None }
{}

/// A flush on a work and one on its queue aren't done while the work is listed.
pub fn flushes_are_given()
    ensures two { length (after_lines one_flushed flushes_given).flushes ≡ 2 }
    ensures on_work { target_at (after_lines one_flushed flushes_given) 0 ≡ FlushTarget.Instance (record { 0 = 0 }) 0 }
    ensures on_queue { target_at (after_lines one_flushed flushes_given) 1 ≡ FlushTarget.Queue (record { 0 = 0 }) 1 }
    ensures of_work { is_done one_flushed (after_lines one_flushed flushes_given) (target_at (after_lines one_flushed flushes_given) 0) ≡ false }
    ensures of_queue { is_done one_flushed (after_lines one_flushed flushes_given) (target_at (after_lines one_flushed flushes_given) 1) ≡ false }
{}

/// They are done once the work has finished.
pub fn flushes_are_done()
    ensures of_work { is_done one_flushed (after_lines one_flushed work_finished) (target_at (after_lines one_flushed work_finished) 0) ≡ true }
    ensures of_queue { is_done one_flushed (after_lines one_flushed work_finished) (target_at (after_lines one_flushed work_finished) 1) ≡ true }
{}

/// They stay done though the work is queued again.
pub fn flushes_stay_done()
    ensures pending { place_of (pending_at (after_lines one_flushed work_queued_again) 0) ≡ Some (Place.Listed 0) }
    ensures of_work { is_done one_flushed (after_lines one_flushed work_queued_again) (target_at (after_lines one_flushed work_queued_again) 0) ≡ true }
    ensures of_queue { is_done one_flushed (after_lines one_flushed work_queued_again) (target_at (after_lines one_flushed work_queued_again) 1) ≡ true }
{}

/// Each of these scenarios is valid.
pub fn premises_are_of_valid_scenarios()
    ensures sleeper { IsValid sleeper }
    ensures one_worker { IsValid one_worker }
    ensures two_ordered { IsValid two_ordered }
    ensures one_flushed { IsValid one_flushed }
    ensures one_freezable { IsValid one_freezable }
{}
