//! What may be believed of kept states: the function does nothing, it carries the law.
ghost use Rattle.cmwq_stored.specs.Stored.{TellsStatesApart};

/// Of two whole states of one scenario of which the same is kept, the one is the other.
#[tactic(auto, using(crate::proofs::StoredLemmas::tells_states_apart))]
pub fn kept_states_are_told_apart()
    ensures { TellsStatesApart }
{}
