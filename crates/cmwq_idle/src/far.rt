//! Which pools a change leaves alone, as a law: the function does nothing.
ghost use Rattle.cmwq_idle.specs.Far.{FarPoolsStay};

/// A pool of which a change shows nothing has the move that it had.
#[tactic(auto, using(crate::proofs::FarLemmas::far_pools_stay))]
pub fn far_pools_stay()
    ensures { FarPoolsStay }
{}
