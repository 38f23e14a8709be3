//! What a reader believes of ledgers and totals without reading how they are kept.
//!
//! Each function's contract is a law, over every valid scenario and every list of instructions from the start. The functions
//! do nothing: they carry the laws.
ghost use Rattle.cmwq_ledger_laws.specs.Laws.{AccountsForAllTime, BurnsAddUp, BurnsByQueue, CountsEnds, CountsStarts, FillsCpus, FitsBodies, InEveryRun, KeepsAccountsOfInstances, TellsAllThatAreLeft, TellsEachRequest, TellsEndsInOrder};

/// After each instruction, and at the start, a work has an account for its pending half exactly where it is pending, and one
/// for its running half exactly where it runs.
#[tactic(auto, using(crate::proofs::Conclusions::keeps_accounts_of_instances))]
pub fn accounts_are_of_the_instances_that_are_there()
    ensures { InEveryRun KeepsAccountsOfInstances }
{}

/// Each line accounts for all the time that its instance was there, whether it ended or is there at the end of the run: the
/// time at which it was asked for and the seven counts of ticks add up to the time at which it is told.
#[tactic(auto, using(crate::proofs::Conclusions::accounts_for_all_time))]
pub fn lines_account_for_all_time()
    ensures { InEveryRun AccountsForAllTime }
{}

/// The lines of the instances that end along a run come in the order of their times, and none is of a time above that at its
/// end.
#[tactic(auto, using(crate::proofs::Conclusions::tells_ends_in_order))]
pub fn lines_come_in_the_order_of_their_times()
    ensures { InEveryRun TellsEndsInOrder }
{}

/// A work that finishes has burned just as many ticks as the burns of its body add up to, and slept just as many as its sleeps:
/// nothing wakes it early, and no tick passes while its sleep is over. An instance that was cancelled before it began, or that
/// is still pending at the end of the run, has neither run nor slept.
#[tactic(auto, using(crate::proofs::Conclusions::fits_bodies))]
pub fn finished_works_burned_and_slept_their_bodies()
    ensures { InEveryRun FitsBodies }
{}

/// Of each queue as many instances started as finished, and as run at the end of the run.
#[tactic(auto, using(crate::proofs::Conclusions::counts_starts))]
pub fn started_works_finished_or_run()
    ensures { InEveryRun CountsStarts }
{}

/// Of each queue as many instances are counted as finished as there are lines of such, and as many as cancelled.
#[tactic(auto, using(crate::proofs::Conclusions::counts_ends))]
pub fn instances_that_end_are_counted()
    ensures { InEveryRun CountsEnds }
{}

/// At the end of the run there is a line for each instance that is there: as many as works are pending, and as run.
#[tactic(auto, using(crate::proofs::Conclusions::tells_all_that_are_left))]
pub fn all_that_are_left_have_lines()
    ensures { InEveryRun TellsAllThatAreLeft }
{}

/// What all instances burned, those that ended and those that are there at the end of the run, adds up to what was burned in
/// all pools, and to what the works of all queues burned.
#[tactic(auto, using(crate::proofs::Conclusions::burns_add_up))]
pub fn burns_of_instances_pools_and_queues_add_up()
    ensures { InEveryRun BurnsAddUp }
{}

/// What is counted as burned of each queue is what the instances of its works burned.
#[tactic(auto, using(crate::proofs::Conclusions::burns_by_queue))]
pub fn queues_burned_what_their_works_did()
    ensures { InEveryRun BurnsByQueue }
{}

/// On each CPU every tick is burned in one of its two pools, or is idle.
#[tactic(auto, using(crate::proofs::Conclusions::fills_cpus))]
pub fn cpus_burn_or_are_idle()
    ensures { InEveryRun FillsCpus }
{}

/// A work's lines are its requests that were taken: there are as many lines of a work since a time, of instances that ended and
/// of those that are there at the end of the run, as it was queued at that time, by instructions and by operations of bodies.
#[tactic(auto, using(crate::proofs::Conclusions::tells_each_request))]
pub fn each_request_has_its_line()
    ensures { InEveryRun TellsEachRequest }
{}
