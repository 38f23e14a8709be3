//! What one may believe of what is told, without reading how it is made up.
//!
//! Each function's contract is a law. The functions do nothing: they carry the laws.
ghost use Rattle.cmwq_table.specs.Laws.{AtEveryInstruction};
ghost use Rattle.cmwq_tell.specs.Laws.{HasItsLineAlone, HidesNothingAsked, HidesNothingRefused, KeepsTheRun, KeepsTheSettledRun, ListsEachPart, PartsAreAll, TellsActivations, TellsEachActivation, TellsEachPlace, TellsEachStart, TellsPlaces, TellsTheTime, TellsTicks};

use cmwq_grammar::laws::text_spells_one_scenario;
use cmwq_table::laws::{questions_change_nothing, refused_instructions_change_nothing};

/// An instruction that is refused, and a question, has no hidden change.
pub fn refusals_and_questions_hide_nothing()
    ensures refused { AtEveryInstruction HidesNothingRefused }
    ensures asked { AtEveryInstruction HidesNothingAsked }
{
    refused_instructions_change_nothing();
    questions_change_nothing();
}

/// An instruction that has come changes nothing and prints nothing, so that its own line is all that there is to tell.
#[tactic(auto, using(crate::proofs::ComeLemmas::come_alone))]
pub fn what_has_come_has_its_line_alone()
    ensures { AtEveryInstruction HasItsLineAlone }
{}

/// As many lines `activated` stand behind an instruction as works go from inactive to listed at it, with the birth that they had; and as many
/// works are told to be listed, inactive or on a timer as get a new birth. And as many lines `now` stand there as ticks pass.
#[tactic(auto, using(crate::proofs::CountLemmas::tells_activations, crate::proofs::CountLemmas::tells_places, crate::proofs::CountLemmas::tells_ticks))]
pub fn each_hidden_change_is_told_once()
    ensures activations { AtEveryInstruction TellsActivations }
    ensures places { AtEveryInstruction TellsPlaces }
    ensures ticks { AtEveryInstruction TellsTicks }
{}

/// What the lines say of a work is so: a work is told to be at a place exactly where it has a new birth there, and activated exactly where it
/// goes from inactive to listed in that pool with the birth that it had, in one line each; a line `runs` stands exactly where an instance
/// of a work begins to run, and tells its pool and its worker; and a line `now` has the time that it is.
#[tactic(auto, using(crate::proofs::EachLemmas::tells_each_place, crate::proofs::EachLemmas::tells_each_activation, crate::proofs::EachLemmas::tells_the_time, crate::proofs::StartLemmas::tells_each_start))]
pub fn each_line_says_what_changed()
    ensures places { AtEveryInstruction TellsEachPlace }
    ensures activations { AtEveryInstruction TellsEachActivation }
    ensures starts { AtEveryInstruction TellsEachStart }
    ensures time { AtEveryInstruction TellsTheTime }
{}

/// Whoever leaves out the lines that begin with `#` gets the lines of the run, byte for byte, and of a settled run those of that one.
pub fn unmarked_lines_are_the_run()
    ensures run { KeepsTheRun }
    ensures settled { KeepsTheSettledRun }
{
    text_spells_one_scenario();
}

/// Whoever keeps the lines that begin with `#` and aren't indented gets a line for each part of the run. The parts are the actor's instructions, each
/// `* N` written out, each behind its position.
#[tactic(auto, using(crate::proofs::PartLemmas::parts_are_all))]
pub fn marked_lines_are_the_instructions()
    ensures lines { ListsEachPart }
    ensures all { PartsAreAll }
{
    text_spells_one_scenario();
}
