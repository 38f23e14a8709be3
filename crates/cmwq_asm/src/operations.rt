//! The lines of a body: `body NAME`, its operations, and `finish`.
ghost use Rattle.cmwq_asm.specs.LineAnswers.{Gives};
ghost use Rattle.cmwq_asm.specs.TextStages.{stage_in_body, stage_of, with_op};
ghost use Rattle.cmwq_asm.specs.Texts.{LeadsOn};
ghost use Rattle.cmwq_grammar.specs.LineReasons.{add_op, open_body, step};
ghost use Rattle.cmwq_grammar.specs.Stages.{with_body};
ghost use Rattle.cmwq_scan.specs.Words.{words_left};
ghost use Rattle.cmwq_types.specs.declared.limits.TheConstants.{MAX_TEXT};
ghost use Rattle.std.specs.Prelude.{◌≡◌, ◌≤◌, IfOk, IfSome, IsTrue, Ok, length};
ghost use Rattle.std.specs.Str.{is_utf8};

use crate::fault::LineError;
use crate::open::OpenBody;
use crate::stage::Stage;
use cmwq_draft::{Bodies, read_next, read_op};
use cmwq_grammar::Why;
use cmwq_scan::{next_text_line, next_word};
use cmwq_types::{Fault, MAX_OPS, NoMemory, Op};
use std::alloc::Global;

/// Opens the body of the next work, which what is behind the word `body` must name.
#[tactic(auto, using(cmwq_scan::proofs::LineSteps::line_steps), unfolding(cmwq_grammar::specs::LineReasons::open_body))]
pub(crate) fn open_body<'t>(
    alloc: Global,
    bodies: Bodies<'t>,
    rest: &[u8],
) -> Result<Stage<'t>, LineError>
    ensures { Gives stage_of result (open_body bodies.entry.told bodies.entry.done (words_left rest.now)) }
{
    read_next(&bodies, rest)?;
    let ops = Vec::new(alloc);
    let body = Box::new(alloc, OpenBody { bodies, ops })?;
    Ok(Stage::Body(body))
}

/// Adds the operation to the body; `finish` ends it, and any other must leave room for that.
#[tactic(auto, unfolding(cmwq_grammar::specs::LineReasons::add_op))]
pub(crate) fn add_op<'t>(mut body: Box<OpenBody<'t>>, op: Op) -> Result<Stage<'t>, LineError>
    ensures { Gives stage_of result (add_op body.entry.value.bodies.told body.entry.value.bodies.done body.entry.value.ops.items op) }
{
    let is_last = matches!(op, Op::Finish);
    if !is_last && body.ops.len() + 1 >= MAX_OPS {
        return Err(LineError::Why(Why::Fault(Fault::TooMany)));
    }
    body.ops.push(op)?;
    if !is_last {
        return Ok(Stage::Body(body));
    }
    Ok(Stage::Bodies(close_body(body)?))
}

/// Adds the lines at the front of the text to the body, up to the first that isn't an operation of it without fault, or that ends it.
/// Tells what is left of the text, and how many lines were added.
pub(crate) fn read_operations<'t>(
    body: &mut OpenBody<'t>,
    text: &'t [u8],
) -> Result<(&'t [u8], u32), NoMemory>
    requires text { IsTrue (is_utf8 text.now) }
    requires few { length text.now ≤ MAX_TEXT }
    ensures lines { IfOk result (λ read. LeadsOn text.now (stage_in_body body.old) read.0.now read.1 (stage_in_body body.new)) }
    ensures text { IfOk result (λ read. IsTrue (is_utf8 read.0.now)) }
{
    let mut rest = text;
    let mut count = 0;
    while let Some(next) = next_text_line(rest) {
        match operation_of(body, next.worded) {
            Some(op) => body.ops.push(op)?,
            None => return Ok((rest, count)),
        }
        rest = next.behind;
        count += 1;
    }
    Ok((rest, count))
}

/// The operation that these words are of the body, where they are one without fault that leaves it open.
#[inline(always)]
#[tactic(auto, unfolding(cmwq_grammar::specs::LineReasons::step, cmwq_grammar::specs::LineReasons::add_op))]
fn operation_of(body: &OpenBody, words: &[u8]) -> Option<Op>
    ensures { IfSome result (λ next. step (stage_in_body body.now) (words_left words.now) ≡ Ok (with_op body.now next)) }
{
    let has_room = body.ops.len() + 1 < MAX_OPS;
    if !has_room {
        return None;
    }
    let (word, rest) = next_word(words)?;
    match read_op(body.bodies.draft(), word, rest) {
        Ok(Op::Finish) | Err(_) => None,
        Ok(op) => Some(op),
    }
}

/// The bodies so far, with this one, which has no further operations.
fn close_body<'t>(body: Box<OpenBody<'t>>) -> Result<Bodies<'t>, NoMemory>
    ensures { IfOk result (λ bodies. bodies
        ≡ record { told = body.entry.value.bodies.told; done = with_body body.entry.value.bodies.told body.entry.value.bodies.done body.entry.value.ops.items }) }
{
    let OpenBody { bodies, ops } = Box::into_inner(body);
    bodies.with_body(ops)
}
