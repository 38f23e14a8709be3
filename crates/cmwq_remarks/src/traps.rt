//! Lines that do less than they seem to.
ghost use Rattle.cmwq_remarks.specs.Traps.{count_sentence, cpu_counts, cpu_form, cpu_sentence, early_words, first_early, goes_on_for, has_few_steps, is_cpu, is_early, left_by, left_by_actor, left_by_actors, line_cost, missing_cpu, quiet_sentence, steps_sentence, uncounted, uncounted_alone, uncounted_with, until_sentence, wait_sentence, wants_cpu};
ghost use Rattle.cmwq_scan.specs.Words.{words_in};
ghost use Rattle.std.specs.Fmt.{decimal};
ghost use Rattle.std.specs.Prelude.{◌≡◌, ◌<◌, ◌++◌, IfOk, IfSome, Some, length, option_map};
ghost use Rattle.std.specs.Str.{bytes_eq};

use cmwq_reads::{is_met, is_question};
use cmwq_runs::issue_all;
use cmwq_scan::{Token, is_word};
use cmwq_table::{Machine, Reads};
use cmwq_types::{Actor, Instr, Line, NoMemory, Scenario};
use itoa::Buffer;
use std::alloc::Global;

/// Returns what is said of a line of these words that has no count. It fails only for want of memory.
pub(crate) fn uncounted(
    alloc: Global,
    word: &[u8],
    operands: &[Token<'_>],
) -> Result<Option<Vec<u8>>, NoMemory>
    ensures { IfOk result (λ said. option_map (λ said. said.items) said ≡ uncounted word.now (words_in operands.now)) }
{
    match operands {
        [] => uncounted_alone(alloc, word),
        [operand] => uncounted_with(alloc, word, operand.bytes()),
        _ => Ok(None),
    }
}

/// Returns what is said of a line that has this word alone.
fn uncounted_alone(alloc: Global, word: &[u8]) -> Result<Option<Vec<u8>>, NoMemory>
    ensures { IfOk result (λ said. option_map (λ said. said.items) said ≡ uncounted_alone word.now) }
{
    if is_word(word, b"quiet") {
        return Ok(Some(quiet_sentence(alloc)?));
    }
    Ok(None)
}

/// Returns what is said of a line that has this word with one operand.
fn uncounted_with(alloc: Global, word: &[u8], operand: &[u8]) -> Result<Option<Vec<u8>>, NoMemory>
    ensures { IfOk result (λ said. option_map (λ said. said.items) said ≡ uncounted_with word.now operand.now) }
{
    if is_word(word, b"until") {
        Ok(Some(until_sentence(alloc, operand)?))
    } else if is_word(word, b"wait") {
        Ok(Some(wait_sentence(alloc, operand)?))
    } else {
        Ok(None)
    }
}

/// Returns what is said of a `quiet` without a count.
fn quiet_sentence(alloc: Global) -> Result<Vec<u8>, NoMemory>
    ensures { IfOk result (λ said. said.items ≡ quiet_sentence) }
{
    count_sentence(alloc, b"quiet", b"no work item is pending or running")
}

/// Returns what is said of an `until` without a count.
fn until_sentence(alloc: Global, time: &[u8]) -> Result<Vec<u8>, NoMemory>
    ensures { IfOk result (λ said. said.items ≡ until_sentence time.now) }
{
    let form = paired(alloc, b"until ", time)?;
    let goal = paired(alloc, b"tick ", time)?;
    count_sentence(alloc, &form, &goal)
}

/// Returns what is said of a `wait` without a count.
fn wait_sentence(alloc: Global, flush: &[u8]) -> Result<Vec<u8>, NoMemory>
    ensures { IfOk result (λ said. said.items ≡ wait_sentence flush.now) }
{
    let form = paired(alloc, b"wait ", flush)?;
    let goal = joined(alloc, b"flush ", flush, b" is done")?;
    count_sentence(alloc, &form, &goal)
}

/// Returns what is said of a line without a count: how it is written with one, and what it continues for.
fn count_sentence(alloc: Global, form: &[u8], goal: &[u8]) -> Result<Vec<u8>, NoMemory>
    ensures { IfOk result (λ said. said.items ≡ count_sentence form.now goal.now) }
{
    let end = paired(alloc, b" * 100 to continue until ", goal)?;
    let front = b"without a count it makes at most one move; write ";
    joined(alloc, front, form, &end)
}

/// Returns these bytes, the end behind the front.
fn paired(alloc: Global, front: &[u8], end: &[u8]) -> Result<Vec<u8>, NoMemory>
    ensures { IfOk result (λ whole. whole.items ≡ front.now ++ end.now) }
{
    let mut whole = Vec::from_slice(alloc, front)?;
    whole.extend_from_slice(end)?;
    Ok(whole)
}

/// Returns these bytes one behind the other.
fn joined(alloc: Global, front: &[u8], middle: &[u8], end: &[u8]) -> Result<Vec<u8>, NoMemory>
    ensures { IfOk result (λ whole. whole.items ≡ front.now ++ (middle.now ++ end.now)) }
{
    let mut whole = Vec::from_slice(alloc, front)?;
    whole.extend_from_slice(middle)?;
    whole.extend_from_slice(end)?;
    Ok(whole)
}

/// Returns whether the word is the number of a CPU.
pub(crate) fn is_cpu(scenario: &Scenario, word: &[u8]) -> bool
    ensures { result ≡ is_cpu scenario.now word.now }
{
    let mut count: u32 = 0;
    for cpu in 0..scenario.cpus {
        if is_number(word, cpu) {
            count += 1;
        }
    }
    count > 0
}

/// Returns whether the word is this number.
fn is_number(word: &[u8], number: u8) -> bool
    ensures { result ≡ bytes_eq word.now (decimal number) }
{
    is_word(word, Buffer::new().format(number).as_bytes())
}

/// Returns whether a CPU stands behind the work in a line of this word, in which so much more stands behind it.
pub(crate) fn wants_cpu(word: &[u8], more: &[Token<'_>]) -> bool
    ensures { result ≡ wants_cpu word.now (words_in more.now) }
{
    is_word(word, b"queue")
        || ((is_word(word, b"delay") || is_word(word, b"mod")) && !more.is_empty())
}

/// Returns what is said of a line of this word whose CPU isn't there.
pub(crate) fn cpu_sentence(
    alloc: Global,
    cpus: u8,
    word: &[u8],
    cpu: &[u8],
) -> Result<Vec<u8>, NoMemory>
    ensures { IfOk result (λ said. said.items ≡ cpu_sentence cpus word.now cpu.now) }
{
    let end = cpu_counts(alloc, cpus, word, cpu)?;
    paired(alloc, b"the run refuses its CPU; cpus is ", &end)
}

/// Returns how many CPUs there are, and which one is missing.
fn cpu_counts(alloc: Global, cpus: u8, word: &[u8], cpu: &[u8]) -> Result<Vec<u8>, NoMemory>
    ensures { IfOk result (λ said. said.items ≡ cpu_counts cpus word.now cpu.now) }
{
    let missing = missing_cpu(alloc, word, cpu)?;
    let mut buffer = Buffer::new();
    let there = b" and CPUs count from 0, so there is no CPU ";
    joined(alloc, buffer.format(cpus).as_bytes(), there, &missing)
}

/// Returns the number of the CPU that is missing, and how a line of this word is written.
fn missing_cpu(alloc: Global, word: &[u8], cpu: &[u8]) -> Result<Vec<u8>, NoMemory>
    ensures { IfOk result (λ said. said.items ≡ missing_cpu word.now cpu.now) }
{
    let form = cpu_form(alloc, word)?;
    joined(alloc, cpu, b": ", &form)
}

/// Returns how a line of this word is written, which has a CPU.
fn cpu_form(alloc: Global, word: &[u8]) -> Result<Vec<u8>, NoMemory>
    ensures { IfOk result (λ form. form.items ≡ cpu_form word.now) }
{
    let mut form = Vec::from_slice(alloc, word)?;
    form.extend_from_slice(if is_word(word, b"queue") {
        b" WORK CPU"
    } else {
        b" WORK CPU N"
    })?;
    Ok(form)
}

/// Returns whether the actors have more instructions, questions aside, than are accepted.
pub(crate) fn has_few_steps(scenario: &Scenario) -> bool
    ensures { result ≡ has_few_steps scenario.now }
{
    left_by_actors(scenario.steps, &scenario.actors).is_none()
}

/// Returns how many steps the actors' instructions leave; `None` if they are more than there are.
fn left_by_actors(steps: u32, actors: &[Actor]) -> Option<u32>
    ensures { result ≡ left_by_actors (Some steps) actors.now }
{
    let mut left = Some(steps);
    for actor in actors {
        left = left_by_actor(left, actor);
    }
    left
}

/// Returns how many of these steps the actor's instructions leave.
fn left_by_actor(left: Option<u32>, actor: &Actor) -> Option<u32>
    ensures { result ≡ left_by_actor left actor.now }
{
    match left {
        Some(left) => left_by(left, &actor.lines),
        None => None,
    }
}

/// Returns how many of these steps the lines' instructions leave.
fn left_by(steps: u32, lines: &[Line]) -> Option<u32>
    ensures { result ≡ left_by steps lines.now }
{
    let mut left = steps;
    for line in lines {
        let cost = line_cost(*line);
        if left < cost {
            return None;
        }
        left -= cost;
    }
    Some(left)
}

/// Returns how many steps the line's instructions take.
fn line_cost(line: Line) -> u32
    ensures { result ≡ line_cost line }
{
    if is_question(line.instr) {
        0
    } else {
        line.times
    }
}

/// Returns what is said of these steps.
pub(crate) fn steps_sentence(alloc: Global, steps: u32) -> Result<Vec<u8>, NoMemory>
    ensures { IfOk result (λ said. said.items ≡ steps_sentence steps) }
{
    joined(
        alloc,
        b"instructions may be refused as Spent; at most ",
        Buffer::new().format(steps).as_bytes(),
        b" are accepted, and the actors have more",
    )
}

/// Carries out the lines on the machine, up to the first that has no count and ends before what it goes on for has come. Returns that line's number and its
/// instruction.
pub(crate) fn first_early<M: Machine>(machine: &mut M, lines: &[Line]) -> Option<(usize, Instr)>
    ensures early { result ≡ first_early (M.loaded machine.old) (M.state machine.old) 0 lines.now }
    ensures within { IfSome result (λ early. early.0 < length lines.now) }
{
    let mut number = 0;
    for line in lines {
        issue_all(machine, &[*line]);
        if is_early(machine, *line) {
            return Some((number, line.instr));
        }
        number += 1;
    }
    None
}

/// Returns whether the line has no count, and what it goes on for hasn't come.
fn is_early<R: Reads>(machine: &R, line: Line) -> bool
    ensures { result ≡ is_early (R.loaded machine.now) (R.state machine.now) line }
{
    line.times == 1 && goes_on_for(line.instr) && !is_met(machine, line.instr)
}

/// Returns whether the instruction goes on for something.
fn goes_on_for(instr: Instr) -> bool
    ensures { result ≡ goes_on_for instr }
{
    matches!(instr, Instr::Until(_) | Instr::Wait(_) | Instr::Quiet)
}

/// Returns what is said of the instruction, where it ended too early. It fails only for want of memory.
pub(crate) fn early_words(alloc: Global, instr: Instr) -> Result<Vec<u8>, NoMemory>
    ensures { IfOk result (λ said. said.items ≡ early_words instr) }
{
    let mut buffer = Buffer::new();
    match instr {
        Instr::Until(time) => {
            let said = until_sentence(alloc, buffer.format(time).as_bytes())?;
            paired(alloc, b"until: ", &said)
        }
        Instr::Wait(flush) => {
            let said = wait_sentence(alloc, buffer.format(flush).as_bytes())?;
            paired(alloc, b"wait: ", &said)
        }
        Instr::Quiet => {
            let said = quiet_sentence(alloc)?;
            paired(alloc, b"quiet: ", &said)
        }
        _ => Ok(Vec::new(alloc)),
    }
}
