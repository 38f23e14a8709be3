//! What each line adds at the stage where it stands.
ghost use Rattle.cmwq_asm.specs.LineAnswers.{Gives};
ghost use Rattle.cmwq_asm.specs.Header.{head_number};
ghost use Rattle.cmwq_scan.specs.Answers.{Tells};
ghost use Rattle.cmwq_scan.specs.Words.{words_left};
ghost use Rattle.cmwq_asm.specs.TextStages.{stage_of};
ghost use Rattle.cmwq_grammar.specs.LineReasons.{judge, step};
ghost use Rattle.cmwq_grammar.specs.Stages as stage;
ghost use Rattle.std.specs.Prelude.{◌≤◌, ◌∷◌, IfOk, IsTrue};
ghost use Rattle.std.specs.Str.{is_utf8};

use crate::actors::{add_line, close_actor, open_actor};
use crate::declarations::{declare_queue, declare_work};
use crate::fault::LineError;
use crate::open::{OpenActor, OpenBody};
use crate::operations::{add_op, open_body};
use crate::stage::Stage;
use cmwq_draft::{Bodies, Draft, read_instr_line, read_op};
use cmwq_grammar::Why;
use cmwq_scan::{is_text, is_word, next_word, refusal_of, take_last_number_within, worded_part};
use std::alloc::Global;

/// The stage after this line, or the first reason against it. Whether the line is text is judged here,
/// unless it is known to be. A line without words tells nothing.
#[tactic(auto, unfolding(cmwq_grammar::specs::LineReasons::judge, cmwq_grammar::specs::LineReasons::step))]
pub(crate) fn judge_line<'t>(
    alloc: Global,
    stage: Stage<'t>,
    line: &'t [u8],
    is_known_text: bool,
) -> Result<Stage<'t>, LineError>
    requires { IsTrue is_known_text → IsTrue (is_utf8 line.now) }
    ensures { Gives stage_of result (judge (stage_of stage.entry) line.now) }
{
    if !is_known_text && !is_text(line) {
        return Err(LineError::Why(Why::BadUtf8));
    }
    match next_word(worded_part(line)) {
        None => Ok(stage),
        Some((word, rest)) => stage.after(alloc, word, rest),
    }
}

/// The number of a line at a text's head, which must be this word and a number from `low` to `high`.
#[tactic(auto, using(cmwq_scan::proofs::LineSteps::line_steps))]
pub(crate) fn read_head_number(
    wanted: &[u8],
    low: u32,
    high: u32,
    word: &[u8],
    rest: &[u8],
) -> Result<u32, Why>
    ensures number { Tells (λ n. n) result (head_number wanted.now low high word.now (words_left rest.now)) }
    ensures within { IfOk result (λ n. n ≤ high) }
{
    if !is_word(word, wanted) {
        return Err(refusal_of(Why::Misplaced, word));
    }
    take_last_number_within(low, high, rest)
}

/// A line behind the head, or behind a queue.
#[tactic(auto, using(cmwq_scan::proofs::LineSteps::line_steps), unfolding(cmwq_grammar::specs::LineReasons::step))]
pub(crate) fn in_queues<'t>(
    alloc: Global,
    draft: Draft<'t>,
    word: &[u8],
    rest: &'t [u8],
) -> Result<Stage<'t>, LineError>
    ensures { Gives stage_of result (step (stage.Queues draft.entry) (word.now ∷ words_left rest.now)) }
{
    if is_word(word, b"queue") {
        return declare_queue(draft, rest);
    }
    if is_word(word, b"work") {
        return declare_work(alloc, draft, rest);
    }
    if is_word(word, b"actor") {
        return open_actor(alloc, draft, rest);
    }
    Err(LineError::Why(refusal_of(Why::Misplaced, word)))
}

/// A line behind a work.
#[tactic(auto, using(cmwq_scan::proofs::LineSteps::line_steps), unfolding(cmwq_grammar::specs::LineReasons::step))]
pub(crate) fn in_works<'t>(
    alloc: Global,
    draft: Draft<'t>,
    word: &[u8],
    rest: &'t [u8],
) -> Result<Stage<'t>, LineError>
    ensures { Gives stage_of result (step (stage.Works draft.entry) (word.now ∷ words_left rest.now)) }
{
    if is_word(word, b"work") {
        return declare_work(alloc, draft, rest);
    }
    if is_word(word, b"body") {
        return open_body(alloc, Bodies::new(alloc, draft), rest);
    }
    Err(LineError::Why(refusal_of(Why::Misplaced, word)))
}

/// A line behind the `finish` of a body.
#[tactic(auto, using(cmwq_scan::proofs::LineSteps::line_steps), unfolding(cmwq_grammar::specs::LineReasons::step))]
pub(crate) fn between_bodies<'t>(
    alloc: Global,
    bodies: Bodies<'t>,
    word: &[u8],
    rest: &'t [u8],
) -> Result<Stage<'t>, LineError>
    ensures { Gives stage_of result (step (stage.Bodies bodies.entry.told bodies.entry.done) (word.now ∷ words_left rest.now)) }
{
    let are_complete = bodies.are_complete();
    if is_word(word, b"body") && !are_complete {
        return open_body(alloc, bodies, rest);
    }
    if is_word(word, b"actor") && are_complete {
        return open_actor(alloc, bodies.into_draft(), rest);
    }
    Err(LineError::Why(refusal_of(Why::Misplaced, word)))
}

/// A line in an open body.
#[tactic(auto, unfolding(cmwq_grammar::specs::LineReasons::step))]
pub(crate) fn in_body<'t>(
    body: Box<OpenBody<'t>>,
    word: &[u8],
    rest: &'t [u8],
) -> Result<Stage<'t>, LineError>
    ensures { Gives stage_of result (step (stage.Body body.entry.value.bodies.told body.entry.value.bodies.done body.entry.value.ops.items) (word.now ∷ words_left rest.now)) }
{
    let op = read_op(body.bodies.draft(), word, rest)?;
    add_op(body, op)
}

/// A line behind an actor's first line.
#[tactic(auto, unfolding(cmwq_grammar::specs::LineReasons::step))]
pub(crate) fn in_actor<'t>(
    alloc: Global,
    actor: Box<OpenActor<'t>>,
    word: &[u8],
    rest: &'t [u8],
) -> Result<Stage<'t>, LineError>
    ensures { Gives stage_of result (step (stage.Actor actor.entry.value.draft actor.entry.value.name actor.entry.value.lines.items) (word.now ∷ words_left rest.now)) }
{
    if is_word(word, b"actor") {
        return open_actor(alloc, close_actor(actor)?, rest);
    }
    let line = read_instr_line(&actor.draft, word, rest)?;
    add_line(actor, line)
}
