//! Notes behind a listing say nothing of the scenario: the law is the contract of a function with an empty body.
ghost use Rattle.cmwq_annotated.specs.Notes.{NotesMayFollow};

/// Notes may follow the listing of a valid scenario, as far as a text has room for them: the whole spells the same scenario.
#[tactic(auto, using(crate::proofs::NoteLemmas::notes_may_follow))]
pub fn notes_may_follow_a_listing()
    ensures { NotesMayFollow }
{}
