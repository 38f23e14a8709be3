//! How long works burn.
//!
//! Each function's contract is a law, over every valid scenario and every list of instructions. The functions do nothing:
//! they carry the laws. That a body's burns are ticks of CPU time is this project's own rule.
ghost use Rattle.cmwq_burning.specs.Burning.{BurnsItsBody, BurnsUpToItsPlace};
ghost use Rattle.cmwq_table.specs.Laws.{InEveryState};

/// A work that finishes has burned for just as many ticks as its body says: from the reply that tells that an instance starts
/// to the one that tells that it finishes, the ticks in which it burns are as many as the burns of its body add up to. Nothing
/// adds to them or takes from them, whether the work sleeps, waits for the CPU, or is queued anew meanwhile.
#[tactic(auto, using(crate::proofs::Conclusions::burns_its_body))]
pub fn finished_works_burned_their_bodies()
    ensures { InEveryState BurnsItsBody }
{}

/// A work that has started and hasn't finished runs. For how many ticks it has burned since, and for how many it is still to
/// burn, add up to the burns before its place in the body.
#[tactic(auto, using(crate::proofs::Conclusions::burns_up_to_its_place))]
pub fn running_works_burned_up_to_their_place()
    ensures { InEveryState BurnsUpToItsPlace }
{}
