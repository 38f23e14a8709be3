//! Worked examples of corners of the table, as theorems over the definitions: one wrong line of the table would miss each.
#![tactic(auto, unfolding(cmwq_table::specs::Events::reply_line, cmwq_table::specs::Table::table))]

ghost use Rattle.cmwq_examples.specs.Corners.{disabled_while_running, disabled_while_running_lines, high_and_ordered, high_and_ordered_lines, max_while_frozen, max_while_frozen_lines, memory_is_spent, memory_is_spent_lines, pressed_again, pressed_again_lines, rescued_behind, rescued_behind_lines, running_and_listed, running_and_listed_lines, thawed_by_queue, thawed_by_queue_lines};
ghost use Rattle.cmwq_examples.specs.Rows.{printed};
ghost use Rattle.cmwq_types.specs.Faults.{IsValid};
ghost use Rattle.std.specs.Prelude.{◌≡◌};

/// A work that runs and isn't pending can be disabled, which counts as ever.
pub fn running_work_is_disabled()
    ensures { printed disabled_while_running ≡ disabled_while_running_lines }
{}

/// A thaw fills the queues by rising number.
pub fn thaw_goes_by_queues()
    ensures { printed thawed_by_queue ≡ thawed_by_queue_lines }
{}

/// A `max_active` that is set while the machine is frozen holds after the thaw.
pub fn max_is_set_while_frozen()
    ensures { printed max_while_frozen ≡ max_while_frozen_lines }
{}

/// A work that starts on a rescuer stands behind those that were runnable before, whenever it was queued.
pub fn rescued_work_goes_behind_runnable_ones()
    ensures { printed rescued_behind ≡ rescued_behind_lines }
{}

/// A rescuer takes no work that runs.
pub fn running_work_is_not_rescued()
    ensures { printed running_and_listed ≡ running_and_listed_lines }
{}

/// Pressure and relief take a step each; where no step is left, that is told before anything else of the situation.
pub fn memory_takes_steps()
    ensures relief { printed memory_is_spent ≡ memory_is_spent_lines }
    ensures pressure { printed pressed_again ≡ pressed_again_lines }
{}

/// An ordered queue of high priority sends its works to the high unbound pool.
pub fn high_ordered_work_goes_to_the_high_unbound_pool()
    ensures { printed high_and_ordered ≡ high_and_ordered_lines }
{}

/// Each of these scenarios is valid.
pub fn corners_are_valid()
    ensures disabled_while_running { IsValid disabled_while_running }
    ensures thawed_by_queue { IsValid thawed_by_queue }
    ensures max_while_frozen { IsValid max_while_frozen }
    ensures rescued_behind { IsValid rescued_behind }
    ensures running_and_listed { IsValid running_and_listed }
    ensures memory_is_spent { IsValid memory_is_spent }
    ensures pressed_again { IsValid pressed_again }
    ensures high_and_ordered { IsValid high_and_ordered }
{}
