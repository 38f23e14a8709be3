//! An actor's line: an instruction, and how often it stands.
ghost use Rattle.cmwq_scan.specs.Answers.{Tells};
ghost use Rattle.cmwq_scan.specs.Words.{words_left};
ghost use Rattle.cmwq_grammar.specs.LineFields.{declared_at, number_within};
ghost use Rattle.cmwq_grammar.specs.Instructions.{instr_at, line_at, line_times, operands_at, operands_in, operands_of, queue_names, times_at, work_names};
ghost use Rattle.cmwq_types.specs.Fields.{greatest_id};
ghost use Rattle.cmwq_types.specs.declared.fields.Fields.{Fields};
ghost use Rattle.cmwq_types.specs.declared.instr.Instr.{Instr};
ghost use Rattle.std.specs.Prelude.{◌≤◌, ◌∷◌, IfOk, codes};

use crate::draft::Draft;
use crate::mnemonics::read_mnemonic;
use cmwq_grammar::Why;
use cmwq_scan::{
    Field, is_word, next_word, refusal_of, take_declared, take_last_number_within,
    take_number_within,
};
use cmwq_types::{Fields, Instr, Line, MAX_TIMES, Mnemonic, Shape, instr_of, shape_of};

/// The line that begins with this word.
#[inline(always)]
#[tactic(auto, unfolding(cmwq_grammar::specs::Instructions::line_at))]
pub fn read_instr_line(draft: &Draft, word: &[u8], rest: &[u8]) -> Result<Line, Why>
    ensures { Tells (λ line. line) result (line_at draft.now word.now (words_left rest.now)) }
{
    let (instr, rest) = read_instr(draft, word, rest)?;
    let times = read_times(rest)?;
    Ok(Line { instr, times })
}

/// How often an instruction stands: once, or as often as `* N` says.
#[inline(always)]
fn read_times(rest: &[u8]) -> Result<u32, Why>
    ensures { (instr : Instr) → Tells (λ times. line_times instr times) result (times_at instr (words_left rest.now)) }
{
    match rest {
        [] => Ok(1),
        [b'*', b' ', rest @ ..] => read_repeated(rest),
        _ => read_spaced_times(rest),
    }
}

/// The same, whatever stands before the words.
#[cold]
#[inline(never)]
fn read_spaced_times(rest: &[u8]) -> Result<u32, Why>
    ensures { (instr : Instr) → Tells (λ times. line_times instr times) result (times_at instr (words_left rest.now)) }
{
    match next_word(rest) {
        None => Ok(1),
        Some((word, rest)) if is_word(word, b"*") => read_repeated(rest),
        Some(_) => Err(Why::ExtraWord),
    }
}

/// The number behind a `*`.
#[inline(always)]
fn read_repeated(rest: &[u8]) -> Result<u32, Why>
    ensures { (instr : Instr) → Tells (λ times. line_times instr times) result (times_at instr (codes "*" ∷ words_left rest.now)) }
{
    take_last_number_within(1, MAX_TIMES, rest)
}

/// The instruction that begins with this word.
#[inline(always)]
#[tactic(auto, unfolding(cmwq_grammar::specs::Instructions::instr_at), using(cmwq_scan::proofs::LineSteps::line_steps))]
fn read_instr<'t>(draft: &Draft, word: &[u8], rest: &'t [u8]) -> Field<'t, Instr>
    ensures { Tells (λ field. (field.0, words_left field.1.now)) result (instr_at draft.now word.now (words_left rest.now)) }
{
    match read_mnemonic(word) {
        Some(mnemonic) => read_operands(draft, mnemonic, rest),
        None => Err(refusal_of(Why::Misplaced, word)),
    }
}

/// The instruction of this word, and the words after its operands.
#[inline(always)]
fn read_operands<'t>(draft: &Draft, mnemonic: Mnemonic, rest: &'t [u8]) -> Field<'t, Instr>
    ensures { Tells (λ field. (field.0, words_left field.1.now)) result (operands_at draft.now (operands_of mnemonic) (words_left rest.now)) }
{
    let (fields, rest) = read_fields(draft, shape_of(mnemonic), rest)?;
    Ok((instr_of(mnemonic, fields), rest))
}

/// The operands of this shape, and the words after them.
///
/// A call here keeps what calls it small enough to be put in line.
#[inline(never)]
fn read_fields<'t>(draft: &Draft, shape: Shape, rest: &'t [u8]) -> Field<'t, Fields>
    ensures read { (make : Fields → Instr) → Tells (λ field. (make field.0, words_left field.1.now)) result (operands_at draft.now (operands_in shape make) (words_left rest.now)) }
    ensures id { IfOk result (λ field. field.0.id ≤ greatest_id shape) }
{
    match shape {
        Shape::Alone => Ok((Fields::new(0, 0, 0), rest)),
        Shape::Ticks | Shape::Time => {
            let (number, rest) = read_number(u32::MAX, rest)?;
            Ok((Fields::new(0, 0, number), rest))
        }
        Shape::Work => {
            let (work, rest) = read_work(draft, rest)?;
            Ok((Fields::new(0, work, 0), rest))
        }
        Shape::WorkCpu => {
            let (work, rest) = read_work(draft, rest)?;
            let (cpu, rest) = take_number_within(0, 255, rest)?;
            Ok((Fields::new(cpu as u8, work, 0), rest))
        }
        Shape::WorkTicks => {
            let (work, rest) = read_work(draft, rest)?;
            let (ticks, rest) = take_number_within(0, u32::MAX, rest)?;
            Ok((Fields::new(0, work, ticks), rest))
        }
        Shape::WorkCpuTicks => {
            let (work, rest) = read_work(draft, rest)?;
            let (cpu, rest) = take_number_within(0, 255, rest)?;
            let (ticks, rest) = take_number_within(0, u32::MAX, rest)?;
            Ok((Fields::new(cpu as u8, work, ticks), rest))
        }
        Shape::Queue => {
            let (queue, rest) = read_queue(draft, rest)?;
            Ok((Fields::new(0, queue, 0), rest))
        }
        Shape::QueueNumber => {
            let (queue, rest) = read_queue(draft, rest)?;
            let (number, rest) = read_number(u32::MAX, rest)?;
            Ok((Fields::new(0, queue, number), rest))
        }
        Shape::Pool => {
            let (pool, rest) = read_number(255, rest)?;
            Ok((Fields::new(pool as u8, 0, 0), rest))
        }
        Shape::Flush => {
            let (flush, rest) = read_number(65535, rest)?;
            Ok((Fields::new(0, flush as u16, 0), rest))
        }
    }
}

/// A number from 0 to `high`, both included, behind a word that seldom stands.
#[inline(never)]
fn read_number<'t>(high: u32, rest: &'t [u8]) -> Field<'t, u32>
    ensures number { Tells (λ field. (field.0, words_left field.1.now)) result (number_within 0 high (words_left rest.now)) }
    ensures within { IfOk result (λ field. field.0 ≤ high) }
{
    take_number_within(0, high, rest)
}

/// The number of a declared queue.
#[cold]
#[inline(never)]
fn read_queue<'t>(draft: &Draft, rest: &'t [u8]) -> Field<'t, u16>
    ensures number { Tells (λ field. (field.0, words_left field.1.now)) result (declared_at (queue_names draft.now) (words_left rest.now)) }
    ensures small { IfOk result (λ field. field.0 ≤ 255) }
{
    let (queue, rest) = take_declared(draft.queue_names(), rest)?;
    Ok((queue as u16, rest))
}

/// The number of a declared work.
#[inline(always)]
fn read_work<'t>(draft: &Draft, rest: &'t [u8]) -> Field<'t, u16>
    ensures { Tells (λ field. (field.0, words_left field.1.now)) result (declared_at (work_names draft.now) (words_left rest.now)) }
{
    let (work, rest) = take_declared(draft.work_names(), rest)?;
    Ok((work as u16, rest))
}
