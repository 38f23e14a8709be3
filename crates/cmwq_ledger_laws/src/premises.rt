//! A run in which the premises of the laws hold, as theorems over the definitions: no law is met for want of a case.
#![tactic(auto, unfolding(cmwq_table::specs::Table::table))]

ghost use Rattle.cmwq_burning.specs.Burning.{burns_of_body};
ghost use Rattle.cmwq_ledger_laws.specs.Examples.{ended_by_a_body, takes_the_other_off, totals_by_a_body, until_it_is_cancelled, until_it_sleeps_again, queues_the_other, ended_then, ledger_then, left_then, totals_then};
ghost use Rattle.cmwq_ledger_laws.specs.Laws.{all_lines, books_of_run, burned_by, ended_lines, left_lines, pending_of_queue, requests_from, running_of_queue, totals_of_run};
ghost use Rattle.cmwq_ledger_laws.specs.Sleeps.{sleeps_of_body};
ghost use Rattle.cmwq_table.specs.State.{start};
ghost use Rattle.cmwq_table.specs.Table.{run};
ghost use Rattle.cmwq_types.specs.Faults.{IsValid};
ghost use Rattle.std.specs.Prelude.{◌≡◌, [], sum_by};

/// The run is of a valid scenario, and comes to the time 7.
pub fn example_is_a_run_of_a_valid_scenario()
    ensures scenario { IsValid queues_the_other }
    ensures time { (run queues_the_other until_it_sleeps_again).time ≡ 7 }
{}

/// At its end one work runs, and the other one is pending: each has an account for that half alone.
pub fn halves_have_their_accounts()
    ensures { (books_of_run queues_the_other until_it_sleeps_again).ledger ≡ ledger_then }
{}

/// Three instances end along it, two of which finish, and one of which is cancelled; and two are left. Each has been there for
/// some time.
pub fn instances_end_and_are_left()
    ensures ended { ended_lines queues_the_other until_it_sleeps_again ≡ ended_then }
    ensures left { left_lines queues_the_other until_it_sleeps_again ≡ left_then }
{}

/// The bodies of the works that finish burn, and one of them sleeps.
pub fn bodies_burn_and_sleep()
    ensures a_burns { burns_of_body queues_the_other 0 ≡ 2 }
    ensures a_sleeps { sleeps_of_body queues_the_other 0 ≡ 2 }
    ensures b_burns { burns_of_body queues_the_other 1 ≡ 1 }
{}

/// Three instances of the queue start, of which two finish, and one runs; and one is pending.
pub fn works_start_finish_and_run()
    ensures totals { totals_of_run queues_the_other until_it_sleeps_again ≡ totals_then }
    ensures running { running_of_queue queues_the_other (run queues_the_other until_it_sleeps_again) 0 ≡ 1 }
    ensures pending { pending_of_queue queues_the_other (run queues_the_other until_it_sleeps_again) 0 ≡ 1 }
{}

/// The instances burn for five ticks together; and for two the CPU is idle.
pub fn instances_burn_together()
    ensures burned { sum_by burned_by (all_lines queues_the_other until_it_sleeps_again) ≡ 5 }
{}

/// A work is asked for by an instruction and by another work's body, and the other work by each of the instructions that queue
/// one.
pub fn works_are_asked_for_again()
    ensures queued { requests_from queues_the_other (start queues_the_other) until_it_sleeps_again 0 0 ≡ 1 }
    ensures by_body { requests_from queues_the_other (start queues_the_other) until_it_sleeps_again 0 3 ≡ 1 }
    ensures delayed { requests_from queues_the_other (start queues_the_other) until_it_sleeps_again 1 5 ≡ 1 }
    ensures modified { requests_from queues_the_other (start queues_the_other) until_it_sleeps_again 1 6 ≡ 1 }
    ensures no_more { requests_from queues_the_other (start queues_the_other) until_it_sleeps_again 1 4 ≡ 0 }
{}

/// A body delays a work, modifies it, and cancels it: two instances of it end, each is there since it was asked for, and each is counted.
pub fn bodies_take_works_off()
    ensures scenario { IsValid takes_the_other_off }
    ensures ended { ended_lines takes_the_other_off until_it_is_cancelled ≡ ended_by_a_body }
    ensures left { left_lines takes_the_other_off until_it_is_cancelled ≡ [] }
    ensures totals { totals_of_run takes_the_other_off until_it_is_cancelled ≡ totals_by_a_body }
    ensures delayed { requests_from takes_the_other_off (start takes_the_other_off) until_it_is_cancelled 1 0 ≡ 1 }
    ensures modified { requests_from takes_the_other_off (start takes_the_other_off) until_it_is_cancelled 1 1 ≡ 1 }
    ensures no_more { requests_from takes_the_other_off (start takes_the_other_off) until_it_is_cancelled 1 2 ≡ 0 }
{}
