//! Worked examples of the finer rules, as theorems over the definitions: who comes first, where a work goes, what
//! counts, and which refusal is told.
#![tactic(auto, unfolding(cmwq_table::specs::Events::reply_line, cmwq_table::specs::Table::table))]

ghost use Rattle.cmwq_examples.specs.FinerRules.{busy, busy_lines, cancel_lets_in, cancel_lets_in_lines, deferring, deferring_lines, disabled_again, disabled_anywhere, disabled_anywhere_lines, disabled_so_often, enabled_again, equal_times, equal_times_lines, fills, fills_lines, flush_beside_timer, flush_beside_timer_lines, flush_targets, flush_targets_lines, high_and_unbound, high_and_unbound_lines, two_idle_workers, two_idle_workers_lines, later_times, later_times_lines, mod_and_delay, mod_and_delay_lines, mod_goes_behind, mod_goes_behind_lines, no_flushes, no_flushes_lines, one_worker, one_worker_lines, operand_limits, operand_limits_lines, pools_apart, pools_apart_lines, queues_others, queues_others_lines, rescuers, rescuers_lines, same_worker, same_worker_lines, starts_again_behind, starts_again_behind_lines, starts_behind, starts_behind_lines, thaw_fills, thaw_fills_lines, delay_on_cpu, delay_on_cpu_lines, two_cpus, two_cpus_lines, unbound_workers, unbound_workers_lines, undeclared_instrs, timers_before_moves, unsettled_instrs, wakes_behind, wakes_behind_lines, what_is_spent, what_is_spent_lines};
ghost use Rattle.cmwq_examples.specs.Rows.{printed};
ghost use Rattle.cmwq_table.specs.Laws.{reply_to};
ghost use Rattle.cmwq_table.specs.Table.{replies};
ghost use Rattle.cmwq_types.specs.Faults.{IsValid};
ghost use Rattle.std.specs.Prelude.{◌≡◌, ◌∷◌, []};

use cmwq_types::{Cause, Event, Refusal, Reply};

/// Of the idle workers the one that became idle last takes the next work.
pub fn idle_worker_of_last_is_taken_first()
    ensures { printed two_idle_workers ≡ two_idle_workers_lines }
{}

/// What a cancel lets in goes to the end of the worklist.
pub fn cancel_lets_in_at_the_end()
    ensures { printed cancel_lets_in ≡ cancel_lets_in_lines }
{}

/// A work that wakes stands behind those that are runnable.
pub fn waking_work_goes_behind_runnable_ones()
    ensures { printed wakes_behind ≡ wakes_behind_lines }
{}

/// A timer fires on the CPU for which it was set.
pub fn timer_fires_on_its_cpu()
    ensures { printed delay_on_cpu ≡ delay_on_cpu_lines }
{}

/// A queue of high priority that is unbound sends its works to the high unbound pool.
pub fn high_unbound_work_goes_to_the_high_unbound_pool()
    ensures { printed high_and_unbound ≡ high_and_unbound_lines }
{}

/// A `mod` takes a pending work off, which lets in what waits, and sets a timer anew; a `delay` leaves a pending
/// work as it is.
pub fn mod_replaces_and_delay_does_not()
    ensures { printed mod_and_delay ≡ mod_and_delay_lines }
{}

/// A work that starts again on its worker stands behind those that are runnable.
pub fn work_that_starts_again_goes_behind_runnable_ones()
    ensures { printed starts_again_behind ≡ starts_again_behind_lines }
{}

/// Only works of freezable queues are busy, whether they wait on the worklist or run, and only they wait for the
/// thaw.
pub fn freeze_spares_other_queues()
    ensures { printed busy ≡ busy_lines }
{}

/// Of timers and sleepers with one end, the one that was set or started first goes first, whatever their numbers.
pub fn equal_times_go_by_stamp()
    ensures { printed equal_times ≡ equal_times_lines }
{}

/// Works of an unbound pool that are ready go in the order of their start; idle workers are taken before a new one
/// is made, the last idle one first; and no more are made than the scenario says.
pub fn unbound_works_go_in_order_of_their_start()
    ensures { printed unbound_workers ≡ unbound_workers_lines }
{}

/// A work that starts stands behind one that woke before, though it was listed before that wake.
pub fn started_work_goes_behind_woken_one()
    ensures { printed starts_behind ≡ starts_behind_lines }
{}

/// A raised `max_active` lets in as many as there is room for, in each pool, and only of that queue; works of one
/// queue on two CPUs count apart.
pub fn raised_limit_fills_each_pool()
    ensures { printed fills ≡ fills_lines }
{}

/// A flush of a queue waits neither for works of other queues nor for timers; a flush of a work waits for the
/// instance that it is on though it is inactive or listed meanwhile, and not for one that was cancelled.
pub fn flush_waits_for_its_instance_and_nothing_else()
    ensures { printed flush_targets ≡ flush_targets_lines }
{}

/// A deferred work counts against `max_active`, and is the instance that was queued when it starts; a cancel of it
/// lets in what waits.
pub fn deferred_work_counts_and_keeps_its_birth()
    ensures { printed deferring ≡ deferring_lines }
{}

/// Each CPU burns for itself, and its high pool goes first there alone; of several pools with a move the least
/// makes it.
pub fn cpus_burn_side_by_side()
    ensures { printed two_cpus ≡ two_cpus_lines }
{}

/// A body queues another work on the CPU that it names, and leaves a pending work as it is.
pub fn body_queues_on_its_cpu_unless_pending()
    ensures { printed queues_others ≡ queues_others_lines }
{}

/// A delay counts from the time at which it is asked for; a work on a timer can't be queued; and a `mod` of no
/// ticks puts a work at the end of the worklist.
pub fn delays_count_from_the_time()
    ensures { printed later_times ≡ later_times_lines }
{}

/// A work defers, and starts again, without a free worker; another one waits for a worker.
pub fn one_worker_defers_and_starts_again()
    ensures { printed one_worker ≡ one_worker_lines }
{}

/// What is accepted is spent, also where it changes nothing; what is refused isn't, nor is a question, which is
/// never refused for it.
pub fn accepted_instructions_are_spent()
    ensures { printed what_is_spent ≡ what_is_spent_lines }
{}

/// Where no flush is left, each instruction that gives one is refused and does nothing else.
pub fn flush_that_is_refused_changes_nothing()
    ensures { printed no_flushes ≡ no_flushes_lines }
{}

/// The CPU of a work must be there though its queue is unbound; a count is 1 to 512, and is judged before whether
/// the queue is ordered; pools and flushes have their numbers.
pub fn operands_have_their_limits()
    ensures { printed operand_limits ≡ operand_limits_lines }
{}

/// A `mod` of no ticks gives its room to the first that waits, and then waits behind it.
pub fn mod_gives_up_its_room()
    ensures { printed mod_goes_behind ≡ mod_goes_behind_lines }
{}

/// A work that starts again does so on the worker that ran it.
pub fn work_starts_again_on_its_worker()
    ensures { printed same_worker ≡ same_worker_lines }
{}

/// A thaw lets in what has room, of each freezable queue and in each pool; what leaves a pool lets in the next one
/// there.
pub fn thaw_fills_each_freezable_queue_in_each_pool()
    ensures { printed thaw_fills ≡ thaw_fills_lines }
{}

/// A flush of a work that runs and is on a timer again waits for the instance that runs.
pub fn flush_is_on_what_runs_beside_a_timer()
    ensures { printed flush_beside_timer ≡ flush_beside_timer_lines }
{}

/// A pool starts, wakes and advances its own works alone.
pub fn pools_move_their_own_works()
    ensures { printed pools_apart ≡ pools_apart_lines }
{}

/// A disable ends a timer, lets in what waits behind a listed work, and leaves a running one to its end; that a work
/// is disabled is told behind its CPU and behind `Spent`.
pub fn disable_takes_off_from_anywhere()
    ensures { printed disabled_anywhere ≡ disabled_anywhere_lines }
{}

/// A work starts on a rescuer only where no worker takes it; a queue's rescuer runs one of its works at a time, in whatever
/// pool, and starts a deferred one again; what runs on it counts towards the concurrency level.
pub fn rescuer_runs_one_work_at_a_time()
    ensures { printed rescuers ≡ rescuers_lines }
{}

/// Operands are judged from left to right: a queue before its count, a work before its CPU.
pub fn undeclared_operands_are_refused_first()
    ensures { replies timers_before_moves undeclared_instrs ≡ Reply.Refused Refusal.NoSuchQueue ∷ Reply.Refused Refusal.NoSuchWork ∷ Reply.Refused Refusal.NoSuchQueue ∷ [] }
{}

/// A tick is refused for a timer that is due before it is for a pool that has a move, and of the pools for the least.
pub fn due_timer_is_told_before_a_move()
    ensures { replies timers_before_moves unsettled_instrs ≡ Reply.Queued ∷ Reply.Done ∷ Reply.Queued ∷ Reply.Refused (Refusal.Unsettled Cause.Due) ∷ Reply.Event (record { 0 = 0 }) Event.Fires ∷ Reply.Refused (Refusal.Unsettled (Cause.Pool 0)) ∷ [] }
{}

/// A work that was disabled 65,535 times isn't disabled once more, and can't be queued until it was enabled as often.
pub fn deepest_work_is_not_disabled_again()
    ensures below { reply_to timers_before_moves (disabled_so_often 65534) disabled_again ≡ Reply.NotPending }
    ensures deepest { reply_to timers_before_moves (disabled_so_often 65535) disabled_again ≡ Reply.Refused Refusal.TooDeep }
    ensures taken_back { reply_to timers_before_moves (disabled_so_often 65535) enabled_again ≡ Reply.No }
    ensures last { reply_to timers_before_moves (disabled_so_often 1) enabled_again ≡ Reply.Yes }
{}

/// Each of these scenarios is valid.
pub fn finer_examples_are_valid()
    ensures two_idle_workers { IsValid two_idle_workers }
    ensures cancel_lets_in { IsValid cancel_lets_in }
    ensures wakes_behind { IsValid wakes_behind }
    ensures delay_on_cpu { IsValid delay_on_cpu }
    ensures high_and_unbound { IsValid high_and_unbound }
    ensures mod_and_delay { IsValid mod_and_delay }
    ensures starts_again_behind { IsValid starts_again_behind }
    ensures busy { IsValid busy }
    ensures equal_times { IsValid equal_times }
    ensures unbound_workers { IsValid unbound_workers }
    ensures starts_behind { IsValid starts_behind }
    ensures fills { IsValid fills }
    ensures flush_targets { IsValid flush_targets }
    ensures deferring { IsValid deferring }
    ensures two_cpus { IsValid two_cpus }
    ensures queues_others { IsValid queues_others }
    ensures later_times { IsValid later_times }
    ensures one_worker { IsValid one_worker }
    ensures what_is_spent { IsValid what_is_spent }
    ensures no_flushes { IsValid no_flushes }
    ensures operand_limits { IsValid operand_limits }
    ensures mod_goes_behind { IsValid mod_goes_behind }
    ensures same_worker { IsValid same_worker }
    ensures thaw_fills { IsValid thaw_fills }
    ensures flush_beside_timer { IsValid flush_beside_timer }
    ensures pools_apart { IsValid pools_apart }
    ensures disabled_anywhere { IsValid disabled_anywhere }
    ensures rescuers { IsValid rescuers }
    ensures timers_before_moves { IsValid timers_before_moves }
{}
