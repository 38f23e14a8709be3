//! The statuses of what is carried out.
ghost use Rattle.cmwq_command.specs.Carried.{HasChecked, graded};
ghost use Rattle.cmwq_command_examples.specs.Statuses.{TellsHighest, having, two_files};
ghost use Rattle.cmwq_grammar.specs.Grammar.{Spells};
ghost use Rattle.cmwq_outcome.specs.Checking.{status_of_judged};
ghost use Rattle.cmwq_outcome.specs.declared.file_verdict.Judged.TheVariants as judged;
ghost use Rattle.cmwq_remarks.specs.Notes.{AreNotes};
ghost use Rattle.cmwq_outcome.specs.Starter.{first_scenario};
ghost use Rattle.cmwq_streams.specs.declared.error.PlayError.TheVariants as errors;
ghost use Rattle.cmwq_verdict.specs.declared.looks.Look.{Look};
ghost use Rattle.std.specs.Prelude.{◌≡◌, ◌++◌, ℕ, Err, List, Ok, Some, codes};

/// What goes well ends with 0, and nothing else has a status of its own there.
pub fn outcomes_have_their_statuses()
    ensures good { graded (Ok tt) ≡ Ok 0 }
    ensures read { graded (Err errors.Read) ≡ Err errors.Read }
    ensures full { graded (Err errors.Full) ≡ Err errors.Full }
{}

/// Several files end with the highest of their statuses.
#[tactic(auto, using(crate::proofs::StatusLemmas::tells_highest))]
pub fn highest_status_is_told()
    ensures highest { TellsHighest }
    ensures good { status_of_judged judged.Good ≡ 0 }
    ensures faulty { status_of_judged judged.Faulty ≡ 1 }
    ensures unread { status_of_judged judged.Unread ≡ 3 }
{}

/// The first file can't be read, which is told on the writer for faults, and the second is good, which is told on the output, and its notes on
/// the writer for faults: that ends with 3.
#[tactic(auto, using(crate::proofs::StatusLemmas::told_in_order))]
pub fn first_file_is_told_first()
    ensures { (look : Look) (bytes told : List ℕ) → Spells bytes first_scenario → AreNotes (codes "b") bytes told
        → HasChecked (having bytes) look two_files 2 (Some (codes "")) (Some (codes "b: ok\n")) (Some (codes "")) (Some (codes "a: read\n" ++ told)) 3 }
{}
