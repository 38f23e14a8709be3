//! What callers know of a history in the end, as a law: the function does nothing.
ghost use Rattle.cmwq_engine.specs.Laws.{ReceiptsStand};

/// Each receipt's entry stands at the receipt's place in the history that closing gives, where tickets rise and each reply is the table's.
#[tactic(auto, using(crate::proofs::ReceiptLemmas::receipts_stand))]
pub fn receipts_stand_in_the_last_history()
    ensures { ReceiptsStand }
{}
