//! The lines of an actor: `actor NAME`, and its instructions.
ghost use Rattle.cmwq_asm.specs.LineAnswers.{Gives};
ghost use Rattle.cmwq_scan.specs.Words.{words_left};
ghost use Rattle.cmwq_asm.specs.TextStages.{stage_in, stage_of, with_line};
ghost use Rattle.cmwq_asm.specs.Texts.{LeadsOn};
ghost use Rattle.cmwq_grammar.specs.LineReasons.{add_line, open_actor, step};
ghost use Rattle.cmwq_grammar.specs.Stages.{with_actor};
ghost use Rattle.cmwq_types.specs.declared.limits.TheConstants.{MAX_TEXT};
ghost use Rattle.std.specs.Prelude.{◌≡◌, ◌≤◌, IfOk, IfSome, IsTrue, Ok, length};
ghost use Rattle.std.specs.Str.{is_utf8};

use crate::fault::LineError;
use crate::open::OpenActor;
use crate::stage::Stage;
use cmwq_draft::{Draft, read_instr_line};
use cmwq_grammar::Why;
use cmwq_scan::{is_word, next_text_line, next_word, take_last_new_name};
use cmwq_types::{Fault, Line, MAX_ACTORS, MAX_LINES, NoMemory};
use std::alloc::Global;

/// Opens the actor that what is behind the word `actor` names.
#[tactic(auto, unfolding(cmwq_grammar::specs::LineReasons::open_actor))]
pub(crate) fn open_actor<'t>(
    alloc: Global,
    draft: Draft<'t>,
    rest: &'t [u8],
) -> Result<Stage<'t>, LineError>
    ensures { Gives stage_of result (open_actor draft.entry (words_left rest.now)) }
{
    let name = take_last_new_name(draft.actor_names(), rest)?;
    if draft.actors().len() >= MAX_ACTORS {
        return Err(LineError::Why(Why::Fault(Fault::TooMany)));
    }
    let lines = Vec::new(alloc);
    let actor = Box::new(alloc, OpenActor { draft, name, lines })?;
    Ok(Stage::Actor(actor))
}

/// Adds a line to the actor.
#[tactic(auto, unfolding(cmwq_grammar::specs::LineReasons::add_line))]
pub(crate) fn add_line<'t>(
    mut actor: Box<OpenActor<'t>>,
    line: Line,
) -> Result<Stage<'t>, LineError>
    ensures { Gives stage_of result (add_line actor.entry.value.draft actor.entry.value.name actor.entry.value.lines.items line) }
{
    if actor.lines.len() >= MAX_LINES {
        return Err(LineError::Why(Why::Fault(Fault::TooMany)));
    }
    actor.lines.push(line)?;
    Ok(Stage::Actor(actor))
}

/// What was told, with this actor, which has no further lines.
pub(crate) fn close_actor<'t>(actor: Box<OpenActor<'t>>) -> Result<Draft<'t>, NoMemory>
    ensures { IfOk result (λ draft. draft ≡ with_actor actor.entry.value.draft actor.entry.value.name actor.entry.value.lines.items) }
{
    let OpenActor { draft, name, lines } = Box::into_inner(actor);
    draft.with_actor(&name, lines)
}

/// Adds the lines at the front of the text to the actor, up to the first that isn't an instruction of it
/// without fault. Tells what is left of the text, and how many lines were added. Most lines of a large text
/// are such: none of them makes a stage by itself.
pub(crate) fn read_instructions<'t>(
    actor: &mut OpenActor<'t>,
    text: &'t [u8],
) -> Result<(&'t [u8], u32), NoMemory>
    requires text { IsTrue (is_utf8 text.now) }
    requires few { length text.now ≤ MAX_TEXT }
    ensures lines { IfOk result (λ read. LeadsOn text.now (stage_in actor.old) read.0.now read.1 (stage_in actor.new)) }
    ensures text { IfOk result (λ read. IsTrue (is_utf8 read.0.now)) }
{
    let mut rest = text;
    let mut count = 0;
    while let Some(next) = next_text_line(rest) {
        match instruction_of(actor, next.worded) {
            Some(instruction) => actor.lines.push(instruction)?,
            None => return Ok((rest, count)),
        }
        rest = next.behind;
        count += 1;
    }
    Ok((rest, count))
}

/// The line that these words are of the actor, where they are an instruction without fault, and there is room for it.
#[inline(always)]
#[tactic(auto, unfolding(cmwq_grammar::specs::LineReasons::step, cmwq_grammar::specs::LineReasons::add_line))]
fn instruction_of(actor: &OpenActor, words: &[u8]) -> Option<Line>
    ensures { IfSome result (λ next. step (stage_in actor.now) (words_left words.now) ≡ Ok (with_line actor.now next)) }
{
    let has_room = actor.lines.len() < MAX_LINES;
    if !has_room {
        return None;
    }
    let (word, rest) = next_word(words)?;
    if is_word(word, b"actor") {
        return None;
    }
    read_instr_line(&actor.draft, word, rest).ok()
}
