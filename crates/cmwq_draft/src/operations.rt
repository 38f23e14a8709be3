//! What the lines of a body say: `body NAME`, and its operations.
ghost use Rattle.cmwq_draft.specs.Operations.{next_at};
ghost use Rattle.cmwq_grammar.specs.LineFields.{number_below};
ghost use Rattle.cmwq_grammar.specs.LineReasons.{not_in_body, op_at_line, op_of_word, op_operands_at};
ghost use Rattle.cmwq_scan.specs.Answers.{Tells};
ghost use Rattle.cmwq_scan.specs.LastFields.{last};
ghost use Rattle.cmwq_scan.specs.Words.{words_left};
ghost use Rattle.std.specs.Prelude.{◌≡◌, ◌<◌, OnOk, length};

use crate::bodies::Bodies;
use crate::draft::Draft;
use cmwq_grammar::Why;
use cmwq_scan::{
    ended, is_word, refusal_of, take_declared, take_last_declared, take_last_number_below,
    take_last_number_within,
};
use cmwq_types::{Fault, Fields, MAX_TICKS, Op, OpWord, Shape};

/// The number of the next work, which the line's last word must name, or the first reason against these words.
pub fn read_next(bodies: &Bodies, rest: &[u8]) -> Result<usize, Why>
    ensures next { Tells (λ n. n) result (next_at bodies.now.told bodies.now.done (words_left rest.now)) }
    ensures there { OnOk result (length bodies.now.done < length bodies.now.told.works) }
{
    let (work, rest) = take_declared(bodies.draft().work_names(), rest)?;
    if work != bodies.count() {
        return Err(Why::Misplaced);
    }
    ended(work, rest)
}

/// The operation of a body's line that begins with this word, or the first reason against the line.
#[inline(always)]
#[tactic(auto, using(cmwq_scan::proofs::LineSteps::line_steps), unfolding(cmwq_grammar::specs::LineReasons::op_at_line))]
pub fn read_op(draft: &Draft, word: &[u8], rest: &[u8]) -> Result<Op, Why>
    ensures { Tells (λ op. op) result (op_at_line draft.now word.now (words_left rest.now)) }
{
    match OpWord::read(word) {
        Some(named) => read_named(draft, named, rest),
        None => Err(refusal_of(not_in_body(word), word)),
    }
}

/// The operation of this word.
#[inline(always)]
fn read_named(draft: &Draft, word: OpWord, rest: &[u8]) -> Result<Op, Why>
    ensures { Tells (λ op. op) result (op_of_word draft.now word (words_left rest.now)) }
{
    let fields = read_op_fields(draft, word.shape(), rest)?;
    Ok(word.with(fields))
}

/// The operands of an operation of this shape, which end the line.
#[tactic(auto, using(cmwq_scan::proofs::LineSteps::line_steps))]
fn read_op_fields(draft: &Draft, shape: Shape, rest: &[u8]) -> Result<Fields, Why>
    ensures { Tells (λ fields. fields) result (op_operands_at draft.now shape (words_left rest.now)) }
{
    match shape {
        Shape::Alone => ended(Fields::new(0, 0, 0), rest),
        Shape::Ticks => {
            let ticks = take_last_number_within(1, MAX_TICKS, rest)?;
            Ok(Fields::new(0, 0, ticks))
        }
        Shape::Work => {
            let work = take_last_declared(draft.work_names(), rest)?;
            Ok(Fields::new(0, work as u16, 0))
        }
        Shape::WorkCpu => {
            let (work, rest) = take_declared(draft.work_names(), rest)?;
            let cpu = take_last_cpu(draft, rest)?;
            Ok(Fields::new(cpu, work as u16, 0))
        }
        Shape::WorkTicks => {
            let (work, rest) = take_declared(draft.work_names(), rest)?;
            let ticks = take_last_number_within(0, MAX_TICKS, rest)?;
            Ok(Fields::new(0, work as u16, ticks))
        }
        _ => Err(Why::Misplaced),
    }
}

/// A CPU, in a line's last word.
#[inline(always)]
fn take_last_cpu(draft: &Draft, rest: &[u8]) -> Result<u8, Why>
    ensures { Tells (λ n. n) result (last (number_below draft.now.cpus (words_left rest.now))) }
{
    take_last_number_below(draft.cpus(), rest)
}

/// The reason against a word in an open body: before `body` or `actor` the body lacks its `finish`.
fn not_in_body(word: &[u8]) -> Why
    ensures { result ≡ not_in_body word.now }
{
    if is_word(word, b"body") || is_word(word, b"actor") {
        Why::Fault(Fault::BadBody)
    } else {
        Why::Misplaced
    }
}
