//! What one may believe of a work's line from one instruction to the next.
//!
//! Each function's contract is a law. The functions do nothing: they carry the laws.
ghost use Rattle.cmwq_reasons.specs.Laws.{InAnyState};
ghost use Rattle.cmwq_table.specs.Laws.{AtEveryInstruction, InEveryState};
ghost use Rattle.cmwq_why_laws.specs.Laws.{ChangesNoTextAsked, ChangesNoTextRefused, KeepsTextInStep, KeepsTextInTick, TurnsReasonsInTick};

use cmwq_reasons::laws::{burning_works_burn, moments_pass_before_time};
use cmwq_table::laws::{
    questions_change_nothing, queues_have_at_most_one_rescuer, refused_instructions_change_nothing,
};

/// An instruction that is refused changes no line, and neither does a question.
#[tactic(auto, using(crate::proofs::QuestionLemmas::changes_no_text_refused, crate::proofs::QuestionLemmas::changes_no_text_asked))]
pub fn refusals_and_questions_change_no_line()
    ensures refused { AtEveryInstruction ChangesNoTextRefused }
    ensures asked { AtEveryInstruction ChangesNoTextAsked }
{
    refused_instructions_change_nothing();
    questions_change_nothing();
}

/// When time passes, a reason stays as it is, but that timers run out, sleeps come to their end, who burns has nothing left
/// to burn, and a pool without a worker has one of its running works to move.
#[tactic(auto, using(crate::proofs::TickLemmas::turns_reasons_in_tick))]
pub fn ticks_turn_few_reasons()
    ensures { InAnyState TurnsReasonsInTick }
{
    moments_pass_before_time();
    burning_works_burn();
}

/// And a work whose reasons a tick doesn't change has the same line after it: nothing that it tells of others changes. Only
/// `; spent` is new where the tick spends the last step.
#[tactic(auto, using(crate::proofs::TickTextLemmas::keeps_text_in_tick))]
pub fn ticks_change_no_line_but_by_its_reasons()
    ensures { InAnyState KeepsTextInTick }
{}

/// In every state of a run a pool's step by which no worker begins or ends a work, and no work is placed, changes the lines of
/// few: of works of that pool, of those that run in the normal pool beside it, and of those that are listed where the
/// rescuer of the moved work is wanted. Only `; spent` is new on each line where the step spends the last one.
#[tactic(auto, using(crate::proofs::StepLemmas::keeps_text_in_step))]
pub fn steps_change_few_lines()
    ensures { InEveryState KeepsTextInStep }
{
    queues_have_at_most_one_rescuer();
}
