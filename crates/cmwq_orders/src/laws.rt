//! What a reader believes about orders without reading how a choice is taken.
//!
//! Each function's contract is a law, over every scenario and every list of choices. The functions do nothing: they carry the laws.
ghost use Rattle.cmwq_orders.specs.Laws.{BeginsBehindOthers, ClosedListsHaveAll, OrdersAreRuns, ReachedStatesAreWhole, StuckStatesHaveNoChoice, WaitsForItsFlush};

/// A list that has the start, and out of which no choice leads, has all to which orders come: so what is true of each of its states
/// is true of every order.
#[tactic(auto, using(crate::proofs::OrderLemmas::closed_lists_have_all))]
pub fn closed_lists_have_all_that_is_reached()
    ensures { ClosedListsHaveAll }
{}

/// An order is a run of the table: of the lines of its actors, as they come, and of what the machine does by itself.
#[tactic(auto, using(crate::proofs::OrderLemmas::orders_are_runs))]
pub fn orders_are_runs()
    ensures { OrdersAreRuns }
{}

/// An actor waits for its flush, as who calls `flush_work` or `cancel_work_sync` in a kernel does: it carries out no line while the flush
/// that its last line gave isn't done.
#[tactic(auto, using(crate::proofs::OrderLemmas::waits_for_its_flush))]
pub fn actors_wait_for_their_flushes()
    ensures { WaitsForItsFlush }
{}

/// An actor carries out no line before each that is to precede it has ended.
#[tactic(auto, using(crate::proofs::OrderLemmas::begins_behind_others))]
pub fn actors_begin_behind_those_before_them()
    ensures { BeginsBehindOthers }
{}

/// In a state that is told as stuck no choice can be taken: no line of any actor, and nothing that the machine does by itself.
#[tactic(auto, using(crate::proofs::OrderLemmas::stuck_states_have_no_choice))]
pub fn stuck_states_have_no_choice()
    ensures { StuckStatesHaveNoChoice }
{}

/// No choice changes how many places the state's finite maps have, nor of how many actors something is known.
#[tactic(auto, using(crate::proofs::LengthLemmas::reached_states_are_whole))]
pub fn reached_states_are_whole()
    ensures { ReachedStatesAreWhole }
{}
