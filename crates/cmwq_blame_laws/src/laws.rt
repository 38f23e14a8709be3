//! What a reader believes of the counts of for whom works waited without reading how they are kept.
//!
//! Each function's contract is a law, over every valid scenario and every list of instructions from the start. The functions
//! do nothing: they carry the laws.
ghost use Rattle.cmwq_blame_laws.specs.Laws.{CountsEachThatWaits, CountsWhomItBlames, GrowsWhileItWaits, InEveryRun, NeverFalls, WaitsForNobodyWhereStuck};

use cmwq_table::laws::{
    inactive_works_leave_no_room, queues_have_at_most_one_rescuer, works_are_not_reentrant,
};

/// For how many ticks a work waited for another one, or for nobody, never falls.
#[tactic(auto, using(crate::proofs::Growing::never_falls))]
pub fn counts_never_fall()
    ensures { InEveryRun NeverFalls }
{}

/// It grows only where time passes, while what is queued of the work is inactive, listed or deferred, or what runs of it has no CPU.
#[tactic(auto, using(crate::proofs::Growing::grows_while_it_waits))]
pub fn works_are_counted_while_they_wait()
    ensures { InEveryRun GrowsWhileItWaits }
{}

/// Where time passes, each instance that waits adds to what its work waited for each that its reason blames.
#[tactic(auto, using(crate::proofs::Conclusions::counts_whom_it_blames))]
pub fn each_that_is_blamed_is_counted()
    ensures { InEveryRun CountsWhomItBlames }
{
    works_are_not_reentrant();
}

/// Where time passes, each instance that waits adds to one count at least.
#[tactic(auto, using(crate::proofs::Conclusions::counts_each_that_waits))]
pub fn each_that_waits_is_counted()
    ensures { InEveryRun CountsEachThatWaits }
{
    works_are_not_reentrant();
}

/// A work waits for nobody only where an instance of it is frozen, or lacks memory.
#[tactic(auto, using(crate::proofs::Nobody::waits_for_nobody_where_stuck))]
pub fn only_a_freeze_and_want_of_memory_are_nobodys()
    ensures { InEveryRun WaitsForNobodyWhereStuck }
{
    inactive_works_leave_no_room();
    queues_have_at_most_one_rescuer();
    works_are_not_reentrant();
}
