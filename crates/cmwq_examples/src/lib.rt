//! Worked examples of the instruction table. Each function's contract says what one scenario prints or
//! lists, or that it is valid.
//!
//! Proved: the definitions give 74 worked examples, to the byte.
#![tactic(auto)]

pub mod bodies;
pub mod conditions;
pub mod corners;
pub mod finer_rules;
pub mod premises;

ghost use Rattle.cmwq_examples.specs.Rows.{activated_in_order, activated_in_order_lines, all_workers_taken, all_workers_taken_lines, cancelled_while_running, cancelled_while_running_lines, cpu_intensive_beside_normal, cpu_intensive_lines, disabled_twice, disabled_twice_lines, flushes, flushes_lines, freeze_and_thaw, freeze_and_thaw_lines, high_beside_normal, high_lines, max_active_1, max_active_2, max_active_3, max_down_and_up, max_down_and_up_lines, pressed, pressed_lines, printed, queued_elsewhere, queued_elsewhere_lines, queued_twice, queued_twice_lines, queues_itself, queues_itself_lines, refused, refused_in_order, refused_in_order_lines, refused_lines, steps_run_out, steps_run_out_lines, three_works, timers, timers_lines, unbound_beside_ordered, unbound_lines, written_out};
ghost use Rattle.cmwq_types.specs.declared.limits.TheConstants.{MAX_ACTORS, MAX_CPUS, MAX_DEPTH, MAX_FLUSHES, MAX_HISTORY, MAX_LINES, MAX_MAX_ACTIVE, MAX_NAME, MAX_OPS, MAX_PASSES, MAX_QUEUES, MAX_STEPS, MAX_TEXT, MAX_TICKETS, MAX_TICKS, MAX_TIMES, MAX_WORKERS, MAX_WORKS, RESCUER};
ghost use Rattle.cmwq_types.specs.Faults.{IsValid};
ghost use Rattle.cmwq_types.specs.Listing.{listing};
ghost use Rattle.std.specs.Prelude.{◌≡◌};

/// The kernel document's scenario with `max_active` 3: all three works are active at once.
pub fn works_sleep_by_turns()
    ensures { printed (three_works 3 41) ≡ max_active_3 }
{}

/// The same with `max_active` 2: the third work is active once the first has finished.
pub fn third_work_waits_for_first()
    ensures { printed (three_works 2 51) ≡ max_active_2 }
{}

/// The same with `max_active` 1: the works run one after another.
pub fn works_run_one_by_one()
    ensures { printed (three_works 1 66) ≡ max_active_1 }
{}

/// A CPU-intensive work doesn't keep another one from starting.
pub fn cpu_intensive_work_does_not_count()
    ensures { printed cpu_intensive_beside_normal ≡ cpu_intensive_lines }
{}

/// A work of the high pool has the CPU before one of the normal pool.
pub fn high_pool_goes_first()
    ensures { printed high_beside_normal ≡ high_lines }
{}

/// An unbound pool starts works at once; an ordered queue runs one at a time.
pub fn unbound_at_once_ordered_one_by_one()
    ensures { printed unbound_beside_ordered ≡ unbound_lines }
{}

/// Queueing a pending work does nothing.
pub fn pending_work_is_queued_once()
    ensures { printed queued_twice ≡ queued_twice_lines }
{}

/// A work that is queued while it runs starts again on the same worker.
pub fn requeued_work_defers()
    ensures { printed queues_itself ≡ queues_itself_lines }
{}

/// Once the steps are spent, every further instruction is refused, but a question is answered.
pub fn spent_steps_refuse()
    ensures { printed steps_run_out ≡ steps_run_out_lines }
{}

/// A refused instruction says why, and changes nothing.
pub fn refusals_change_nothing()
    ensures { printed refused ≡ refused_lines }
{}

/// A wrong operand is refused before `Spent`, and `Spent` before what the situation doesn't allow.
pub fn refusals_have_an_order()
    ensures { printed refused_in_order ≡ refused_in_order_lines }
{}

/// A delay of no ticks queues at once; `mod` takes a waiting work off and sets a timer; a cancelled timer
/// doesn't fire.
pub fn timers_fire_unless_cancelled()
    ensures { printed timers ≡ timers_lines }
{}

/// A flush of a work waits for its later instance, and a flush of a queue for what was queued before.
pub fn flushes_wait_for_what_was_queued()
    ensures { printed flushes ≡ flushes_lines }
{}

/// A cancel of a work that is pending and runs takes the pending instance off, and its flush waits for
/// the running one.
pub fn cancel_sync_waits_for_running_work()
    ensures { printed cancelled_while_running ≡ cancelled_while_running_lines }
{}

/// A work that is queued on another CPU while it runs stays with the pool where it runs.
pub fn running_work_keeps_its_pool()
    ensures { printed queued_elsewhere ≡ queued_elsewhere_lines }
{}

/// A frozen machine activates nothing of a freezable queue and drains what was listed; the thaw activates
/// what was queued meanwhile.
pub fn freeze_drains_and_thaw_fills()
    ensures { printed freeze_and_thaw ≡ freeze_and_thaw_lines }
{}

/// Lowering `max` throws nothing out, and raising it activates what waits.
pub fn max_falls_and_rises()
    ensures { printed max_down_and_up ≡ max_down_and_up_lines }
{}

/// Once there is room, the work that was queued first is activated.
pub fn room_activates_in_order()
    ensures { printed activated_in_order ≡ activated_in_order_lines }
{}

/// A work that was disabled twice is taken off and kept off, from bodies too, until it was enabled twice.
pub fn disabled_work_is_kept_off()
    ensures { printed disabled_twice ≡ disabled_twice_lines }
{}

/// While memory is short no worker is made: a work of a queue with `mem_reclaim` runs on the queue's rescuer, past one that
/// waits for the relief.
pub fn rescuer_runs_while_memory_is_short()
    ensures { printed pressed ≡ pressed_lines }
{}

/// It does so too where the pool has made all its workers, and none is idle.
pub fn rescuer_runs_while_all_workers_are_taken()
    ensures { printed all_workers_taken ≡ all_workers_taken_lines }
{}

/// Each of these scenarios is valid.
pub fn examples_are_valid()
    ensures three_works_3 { IsValid (three_works 3 41) }
    ensures three_works_2 { IsValid (three_works 2 51) }
    ensures three_works_1 { IsValid (three_works 1 66) }
    ensures cpu_intensive { IsValid cpu_intensive_beside_normal }
    ensures high { IsValid high_beside_normal }
    ensures unbound { IsValid unbound_beside_ordered }
    ensures queued_twice { IsValid queued_twice }
    ensures queues_itself { IsValid queues_itself }
    ensures steps_run_out { IsValid steps_run_out }
    ensures refused { IsValid refused }
    ensures refused_in_order { IsValid refused_in_order }
    ensures timers { IsValid timers }
    ensures flushes { IsValid flushes }
    ensures cancelled_while_running { IsValid cancelled_while_running }
    ensures queued_elsewhere { IsValid queued_elsewhere }
    ensures freeze_and_thaw { IsValid freeze_and_thaw }
    ensures max_down_and_up { IsValid max_down_and_up }
    ensures activated_in_order { IsValid activated_in_order }
    ensures disabled_twice { IsValid disabled_twice }
    ensures pressed { IsValid pressed }
    ensures all_workers_taken { IsValid all_workers_taken }
{}

/// The listing of a scenario is its text, line by line.
pub fn scenario_is_written_out()
    ensures { listing unbound_beside_ordered ≡ written_out }
{}

/// The limits, by number: of a scenario, of its text, of a history and of a lock.
pub fn limits_by_number()
    ensures cpus { MAX_CPUS ≡ 16 }
    ensures workers { MAX_WORKERS ≡ 64 }
    ensures rescuer { RESCUER ≡ 255 }
    ensures steps { MAX_STEPS ≡ 4294967295 }
    ensures flushes { MAX_FLUSHES ≡ 1024 }
    ensures queues { MAX_QUEUES ≡ 32 }
    ensures works { MAX_WORKS ≡ 256 }
    ensures actors { MAX_ACTORS ≡ 16 }
    ensures name { MAX_NAME ≡ 15 }
    ensures depth { MAX_DEPTH ≡ 65535 }
    ensures max_active { MAX_MAX_ACTIVE ≡ 512 }
    ensures ops { MAX_OPS ≡ 64 }
    ensures lines { MAX_LINES ≡ 4096 }
    ensures times { MAX_TIMES ≡ 65535 }
    ensures ticks { MAX_TICKS ≡ 1000000 }
    ensures text { MAX_TEXT ≡ 4194304 }
    ensures history { MAX_HISTORY ≡ 1048576 }
    ensures passes { MAX_PASSES ≡ 64 }
    ensures tickets { MAX_TICKETS ≡ 4611686018427387904 }
{}
