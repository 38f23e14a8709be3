//! What the rectangles of rows are, as laws: the functions do nothing, they carry the laws.
ghost use Rattle.cmwq_svg.specs.Laws.{CoversEachCellOnce, RowsStandApart, RunsAreWhole};

/// Over each tick of a row stands one rectangle, which shows the tick's cell, and none where it is empty.
#[tactic(auto, using(crate::proofs::BarLemmas::each_cell_once))]
pub fn each_cell_is_covered_once()
    ensures { CoversEachCellOnce }
{}

/// The rectangles of a row stand from left to right, and two that touch show different cells.
#[tactic(auto, using(crate::proofs::BarLemmas::whole_runs))]
pub fn touching_rectangles_differ()
    ensures { RunsAreWhole }
{}

/// The rectangles of two rows stand apart.
#[tactic(auto, using(crate::proofs::BarLemmas::rows_apart))]
pub fn rows_stand_apart()
    ensures { RowsStandApart }
{}
