//! What one may believe of answers without reading how they are made up.
//!
//! The functions do nothing: their contracts carry the laws.
ghost use Rattle.cmwq_explain.specs.Laws.{AnswersAfterWorks, LooksAtEachTick, SettledRunsFinish};

/// A question after a work that is declared is always answered, if the run isn't past its end: nothing is told only of a flush.
#[tactic(auto, using(crate::proofs::AnswerLemmas::answers_after_works))]
pub fn questions_after_works_are_answered()
    ensures { AnswersAfterWorks }
{}

/// At each tick that a run comes to there is a position to look at: a settled one, or the last.
#[tactic(auto, using(crate::proofs::AnswerLemmas::each_tick))]
pub fn each_tick_has_a_position()
    ensures { LooksAtEachTick }
{}

/// At the end of a settled run each work has finished, so that `why` with `settle` tells of none that the actor has stopped.
#[tactic(auto, using(crate::proofs::SettledLemmas::settled_runs_finish))]
pub fn settled_runs_finish_their_works()
    ensures { SettledRunsFinish }
{}
