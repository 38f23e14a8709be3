//! Phases.
ghost use Rattle.cmwq_trace_laws.specs.PhaseLaws.{BurnsAsCounted, LastsATick, NeverOverlaps};

/// Each phase of a run of a valid scenario, whatever its instructions, lasts for at least one tick: it ends after it begins.
#[tactic(auto, using(crate::proofs::PhaseLengthLemmas::lasts_a_tick))]
pub fn no_phase_is_empty()
    ensures { LastsATick }
{}

/// In the slices in which a work burns there are as many ticks as those of the run in which it burns.
#[tactic(auto, using(crate::proofs::PhaseBurnLemmas::burns_as_counted))]
pub fn burning_slices_are_the_burned_ticks()
    ensures { BurnsAsCounted }
{}

/// The phases of one thread, those of a work's running instances or those of its pending ones, don't overlap: each begins no earlier than
/// the one before it ends.
#[tactic(auto, using(crate::proofs::PhaseOverlapLemmas::never_overlaps))]
pub fn phases_of_a_thread_do_not_overlap()
    ensures { NeverOverlaps }
{}
