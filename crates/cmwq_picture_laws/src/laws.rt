//! What one may count in a picture, which runs are folded, and who set a timer. The functions do nothing: they carry the laws.
ghost use Rattle.cmwq_picture_laws.specs.Folded.{FoldsLongRuns};
ghost use Rattle.cmwq_picture_laws.specs.Marks.{EachTimerThatABodySetsHasAMark, MarksStandWhereBodiesSetTimers};
ghost use Rattle.cmwq_picture_laws.specs.Signs.{ShowsItsBody};

/// In the ticks from the start of an instance to its end, its work's row shows as many in which it burns as the burns of its
/// body add up to: for every valid scenario, and whatever was done before and is done then.
#[tactic(auto, using(crate::proofs::Conclusions::shows_its_body))]
pub fn rows_show_the_burns_of_bodies()
    ensures { ShowsItsBody }
{}

/// The picture of a whole run is folded where that is asked, and unasked just where the run has more ticks than a picture may have columns.
#[tactic(auto, using(crate::proofs::Runs::folds_long_runs))]
pub fn long_runs_are_folded_unasked()
    ensures { FoldsLongRuns }
{}

/// A mark stands in the row of a work that is on a timer, in a tick in which an event tells that the body of the work that is shown has set
/// that timer.
#[tactic(auto, using(crate::proofs::Marks::marks_stand))]
pub fn marks_stand_where_bodies_set_timers()
    ensures { MarksStandWhereBodiesSetTimers }
{}

/// A timer that a body's event sets has a mark in that tick, where the work is on it at the tick's end as the event left it.
#[tactic(auto, using(crate::proofs::Marks::each_marked))]
pub fn each_timer_that_a_body_sets_has_a_mark()
    ensures { EachTimerThatABodySetsHasAMark }
{}
