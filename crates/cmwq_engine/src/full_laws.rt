//! What an issue that found the history full says of what was there, as a law and by worked examples. The functions do nothing.
ghost use Rattle.cmwq_engine.specs.Shared.{EngineView, HasNothingNew};
ghost use Rattle.cmwq_engine.specs.FullIssues.{HasSeen, SeesOnlyMore, entry_before, last_entry};

/// Whoever finds after a turn that all there is of earlier tickets than its own has seen nothing else before: a turn adds to what was seen.
#[tactic(auto, using(crate::proofs::FullLemmas::sees_only_more))]
pub fn full_issues_are_later_than_what_was_seen()
    ensures { SeesOnlyMore }
{}

/// An issue that found the history full is of a later ticket than each entry there, before its turn and after it: so none has the last
/// ticket, and one may have the ticket before.
pub fn last_ticket_is_later_than_the_one_before()
    ensures last_there { (before after : EngineView) → HasSeen last_entry after → HasNothingNew before after → ⊥ }
    ensures last_seen { (before after : EngineView) → HasSeen last_entry before → HasNothingNew before after → ⊥ }
    ensures before { (before after : EngineView) → HasSeen entry_before before → HasSeen entry_before after → HasNothingNew before after }
{}
