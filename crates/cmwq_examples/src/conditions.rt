//! Worked examples of until, wait and quiet, as theorems over the definitions.
#![tactic(auto, unfolding(cmwq_table::specs::Events::reply_line, cmwq_table::specs::Table::table))]

ghost use Rattle.cmwq_examples.specs.Conditions.{free_when_met, free_when_met_lines, quiet_behind_a_timer, quiet_behind_a_timer_lines, too_few_moves, too_few_moves_lines, until_a_time, until_a_time_lines, wait_for_a_flush, wait_for_a_flush_lines};
ghost use Rattle.cmwq_examples.specs.Rows.{printed};
ghost use Rattle.cmwq_table.specs.Table.{replies};
ghost use Rattle.cmwq_types.specs.Faults.{IsValid};
ghost use Rattle.std.specs.Prelude.{◌≡◌, ◌∷◌, []};

use cmwq_types::{Instr, Reply};

/// An until goes on until its time has come, across a timer that runs out before, and does nothing then.
pub fn until_ends_at_its_time()
    ensures { printed until_a_time ≡ until_a_time_lines }
{}

/// A wait goes on until its flush is done, whatever other flush is done before.
pub fn wait_ends_with_its_flush()
    ensures { printed wait_for_a_flush ≡ wait_for_a_flush_lines }
{}

/// A quiet goes on until no work is pending or runs: a timer that runs is a pending work.
pub fn quiet_ends_when_all_is_over()
    ensures { printed quiet_behind_a_timer ≡ quiet_behind_a_timer_lines }
{}

/// What doesn't come within the count is left where as many next would leave it.
pub fn conditions_end_with_their_count()
    ensures { printed too_few_moves ≡ too_few_moves_lines }
{}

/// What has come is free: it is done where the steps are spent, too.
pub fn what_has_come_is_free()
    ensures lines { printed free_when_met ≡ free_when_met_lines }
    ensures done { replies free_when_met (Instr.Until 0 ∷ Instr.Quiet ∷ []) ≡ Reply.Done ∷ Reply.Done ∷ [] }
{}

/// Each of these scenarios is valid.
pub fn conditions_are_valid()
    ensures until { IsValid until_a_time }
    ensures wait { IsValid wait_for_a_flush }
    ensures quiet { IsValid quiet_behind_a_timer }
    ensures few { IsValid too_few_moves }
    ensures free { IsValid free_when_met }
{}
