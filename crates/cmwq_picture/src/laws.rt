//! What one may believe of every picture, as laws: the functions do nothing, they carry the laws.
ghost use Rattle.cmwq_picture.specs.Laws.{BurnsAlone, FoldsLongStretches, HasConsecutiveTicks, HasEachTick, IsEmptyWhereNothingIsDone, ShowsEachBurner, ShowsEachTick};

/// The columns are ticks one after another, from the first time of the span on.
#[tactic(auto, using(crate::proofs::LawLemmas::consecutive_ticks))]
pub fn columns_are_consecutive_ticks()
    ensures { HasConsecutiveTicks }
{}

/// Without a span there is a column for each tick of the run.
#[tactic(auto, using(crate::proofs::LawLemmas::each_tick))]
pub fn each_tick_has_a_column()
    ensures { HasEachTick }
{}

/// A work's own row is empty in the ticks in which the work is neither pending nor runs, and in no others.
#[tactic(auto, using(crate::proofs::LawLemmas::empty_where_nothing_is_done))]
pub fn work_is_empty_where_it_is_neither_pending_nor_runs()
    ensures { IsEmptyWhereNothingIsDone }
{}

/// In each column at most one bound work burns on a CPU.
#[tactic(auto, using(crate::proofs::LawLemmas::burns_alone))]
pub fn bound_works_burn_alone()
    ensures { BurnsAlone }
{}

/// So the row of a CPU hides nobody: it shows each bound work that burns there.
#[tactic(auto, using(crate::proofs::LawLemmas::shows_each_burner))]
pub fn row_of_a_cpu_shows_each_burner()
    ensures { ShowsEachBurner }
{}

/// Folded or not, a cell shows what is so at each of the ticks for which its column stands: at none of them a sign changes.
#[tactic(auto, using(crate::proofs::FoldLemmas::shows_each_tick))]
pub fn cell_shows_each_of_its_ticks()
    ensures { ShowsEachTick }
{}

/// A column stands for one tick, or for more than 20 at which the actor did nothing.
#[tactic(auto, using(crate::proofs::FoldLemmas::folds_long_stretches))]
pub fn only_long_stretches_are_folded()
    ensures { FoldsLongStretches }
{}
