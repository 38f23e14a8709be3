//! What one may believe of what a flush waits for without reading how it is found.
//!
//! The function does nothing: its contract carries the law, over the states that runs come to.
ghost use Rattle.cmwq_table.specs.Laws.{InEveryState};
ghost use Rattle.cmwq_flush_waits.specs.Laws.{ReachesAllBlamed};

use cmwq_reasons::laws::blame_goes_on_to_its_end;

/// In every state of a run what is told of a flush is closed: behind the instances that it waits for stands, each once, whom they
/// blame, whom these blame, and so on to the last, and nobody else.
#[tactic(auto, using(crate::proofs::ReachLemmas::reaches_all_blamed))]
pub fn flushes_tell_all_that_they_wait_for()
    ensures { InEveryState ReachesAllBlamed }
{
    blame_goes_on_to_its_end();
}
