//! What may follow a text.
ghost use Rattle.cmwq_asm.specs.TextStages.{stage_of};
ghost use Rattle.cmwq_grammar.specs.Cutting.{lines_of};
ghost use Rattle.cmwq_grammar.specs.Meaning.{stage_after};
ghost use Rattle.cmwq_grammar.specs.Offers.{next_offered};
ghost use Rattle.cmwq_grammar.specs.Stages as stage;
ghost use Rattle.std.specs.Prelude.{◌≡◌, ◌≤◌, MatchResult, Ok, length};

use crate::assembling::read_lines;
use crate::fault::AsmError;
use crate::stage::Stage;
use cmwq_grammar::Next;
use cmwq_types::{MAX_ACTORS, MAX_LINES, MAX_OPS, MAX_QUEUES, MAX_TEXT, MAX_WORKS};
use std::alloc::Global;

/// What a further line may be behind the lines of this text, which has at most 4,194,304 bytes.
///
/// Of a text with which no scenario's text begins the error tells the first fault, or `NoMemory`.
pub fn next_after(alloc: Global, text: &[u8]) -> Result<Next, AsmError>
    requires { length text.now ≤ MAX_TEXT }
    // It is what the table has at the stage that the lines reach, unless memory runs out.
    ensures { (reached : stage.Stage) → stage_after 1 (lines_of text.now) stage.Start ≡ Ok reached
        → MatchResult result (λ next. next ≡ next_offered reached) (λ e. e ≡ AsmError.NoMemory) }
{
    let (stage, _) = read_lines(alloc, text)?;
    Ok(next_offered(&stage))
}

/// What a further line may be at this stage.
fn next_offered(stage: &Stage<'_>) -> Next
    ensures { result ≡ next_offered (stage_of stage.now) }
{
    match stage {
        Stage::Start => Next::Cpus,
        Stage::Cpus(_) => Next::Workers,
        Stage::Workers(_, _) => Next::Steps,
        Stage::Steps(_, _, _) => Next::Flushes,
        Stage::Queues(draft) => Next::Declaration {
            room: draft.queues().len() < MAX_QUEUES,
            queues: !draft.queues().is_empty(),
        },
        Stage::Works(draft) => Next::Work {
            room: draft.works().len() < MAX_WORKS,
        },
        Stage::Bodies(bodies) if bodies.are_complete() => Next::Actor,
        Stage::Bodies(_) => Next::Body,
        Stage::Body(body) => Next::Operation {
            room: body.ops.len() + 1 < MAX_OPS,
        },
        Stage::Actor(actor) => Next::Instruction {
            room: actor.lines.len() < MAX_LINES,
            works: !actor.draft.works().is_empty(),
            queues: !actor.draft.queues().is_empty(),
            actor: actor.draft.actors().len() + 1 < MAX_ACTORS,
        },
    }
}
