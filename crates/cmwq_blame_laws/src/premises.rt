//! A run in which the premises of the laws hold, as theorems over the definitions: no law is met for want of a case.
#![tactic(auto, unfolding(cmwq_table::specs::Table::table))]

ghost use Rattle.cmwq_blame_laws.specs.Examples.{two_at_a_time, until_both_sleep};
ghost use Rattle.cmwq_blame_laws.specs.Laws.{waited_so_far, waited_then};
ghost use Rattle.cmwq_table.specs.Laws.{state_after};
ghost use Rattle.cmwq_table.specs.Table.{run};
ghost use Rattle.cmwq_types.specs.Faults.{IsValid};
ghost use Rattle.cmwq_types.specs.declared.instr.Instr.TheVariants.{Next};
ghost use Rattle.std.specs.Prelude.{◌≡◌, None, Some};

/// The run is of a valid scenario, and time passes in its next instruction.
pub fn example_is_a_run_of_a_valid_scenario()
    ensures scenario { IsValid two_at_a_time }
    ensures now { (run two_at_a_time until_both_sleep).time ≡ 0 }
    ensures later { (state_after two_at_a_time (run two_at_a_time until_both_sleep) Next).time ≡ 1 }
{}

/// In that instruction one work waits for a tick for each of two others.
pub fn work_waits_for_two()
    ensures before { waited_so_far two_at_a_time until_both_sleep 2 (Some 0) ≡ 0 }
    ensures one { waited_then two_at_a_time until_both_sleep Next 2 (Some 0) ≡ 1 }
    ensures other { waited_then two_at_a_time until_both_sleep Next 2 (Some 1) ≡ 1 }
{}

/// Another work, which is frozen, waits for nobody.
pub fn frozen_work_waits_for_nobody()
    ensures before { waited_so_far two_at_a_time until_both_sleep 3 None ≡ 0 }
    ensures then { waited_then two_at_a_time until_both_sleep Next 3 None ≡ 1 }
{}
