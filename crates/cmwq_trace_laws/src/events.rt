//! Events.
ghost use Rattle.cmwq_trace_laws.specs.EventLaws.{ExecutesOneByOne, NeverGoesBack, NeverOverlaps, TellsActivated, TellsAllEnds, TellsAllStarts, TellsEnds, TellsQueued, TellsStarts};
ghost use Rattle.cmwq_table.specs.Laws.{AtEveryInstruction};

use cmwq_table::laws::queues_have_at_most_one_rescuer;

/// Time never falls from event to event, in each run of a valid scenario, whatever its instructions.
#[tactic(auto, using(crate::proofs::TimeLemmas::never_goes_back))]
pub fn time_never_falls()
    ensures { NeverGoesBack }
{}

/// As many events tell that an execution ends as replies do, at each instruction and in the whole run.
#[tactic(auto, using(crate::proofs::CountLemmas::tells_ends, crate::proofs::CountLemmas::tells_all_ends))]
pub fn ends_are_told_by_replies()
    ensures each { AtEveryInstruction TellsEnds }
    ensures all { TellsAllEnds }
{}

/// As many events tell that an execution starts as replies do, at each instruction and in the whole run.
#[tactic(auto, using(crate::proofs::StartLemmas::tells_starts, crate::proofs::StartLemmas::tells_all_starts))]
pub fn starts_are_told_by_replies()
    ensures each { AtEveryInstruction TellsStarts }
    ensures all { TellsAllStarts }
{}

/// As many events tell that a work is queued as works come to stand in a pool with a new birth; and as many that one is activated as works
/// come to be listed with a new stamp.
#[tactic(auto, using(crate::proofs::QueuedLemmas::tells_queued, crate::proofs::CountLemmas::tells_activated))]
pub fn works_are_told_once()
    ensures queued { AtEveryInstruction TellsQueued }
    ensures activated { AtEveryInstruction TellsActivated }
{}

/// Of each worker, and of each rescuer in whatever pools, starts and ends alternate, beginning with a start, and each end is of the work that
/// started.
pub fn tasks_execute_one_by_one()
    ensures { ExecutesOneByOne }
{
    queues_have_at_most_one_rescuer();
}

/// Executions by one worker, and by one rescuer in whatever pools, don't overlap: each begins no earlier than the one before it ends, and
/// ends no earlier than it begins.
pub fn executions_of_a_task_do_not_overlap()
    ensures { NeverOverlaps }
{
    queues_have_at_most_one_rescuer();
}
