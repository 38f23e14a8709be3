//! What should be known of a run that ended well.
ghost use Rattle.cmwq_remarks.specs.Remarks.{AreRemarks, counted, early_text, left_count, left_line, lets_move, pending_count, pending_line, refused_text, remarks_of, run_remarks, spent_line, spent_words, steps_words, tells_pending, tells_refusals};
ghost use Rattle.cmwq_remarks.specs.Traps.{first_early};
ghost use Rattle.cmwq_table.specs.State.{start};
ghost use Rattle.cmwq_types.specs.Faults.{IsValid};
ghost use Rattle.cmwq_types.specs.Scenario.{expand};
ghost use Rattle.cmwq_types.specs.declared.limits.TheConstants.{MAX_HISTORY, MAX_LINES};
ghost use Rattle.std.specs.Prelude.{◌≡◌, ◌≤◌, ◌<◌, ◌++◌, [], IfOk, IfSome, OnOk, if◌then◌else◌, length, string_bytes};

use crate::line_numbers::{line_at, number_of_last};
use crate::pending::{left_count, lets_move, pending_count};
use crate::refusals::{Refusals, issue_lines};
use crate::traps::{early_words, first_early};
use cmwq_asm::{AsmError, assemble};
use cmwq_core::Core;
use cmwq_play::judge;
use cmwq_table::{Machine, Reads};
use cmwq_tasks::{RunKind, Task};
use cmwq_types::{Actor, Instr, Line, NoMemory, Scenario};
use itoa::Buffer;
use std::alloc::Global;
use std::sync::Arc;

/// What should be known of the run that the task made of this text, in a line each, or nothing: how many of the actor's instructions were
/// refused, with the first one's line, and how many of these since the steps were spent; and where the run doesn't go on by itself, the first line without a
/// count that ended too early, and how many works are pending, or, where the actor let the machine move, are pending or run. It fails only for want of memory.
pub fn remarks(alloc: Global, task: Task<'_>, text: &[u8]) -> Result<Vec<u8>, NoMemory>
    ensures { IfOk result (λ told. AreRemarks task.entry text.now told.items) }
{
    match assemble(alloc, text) {
        Ok(scenario) => remarks_on::<Core>(alloc, task, text, scenario),
        Err(AsmError::At { .. }) => Ok(Vec::new(alloc)),
        Err(AsmError::NoMemory) => Err(NoMemory),
    }
}

/// The same of the text's scenario.
#[tactic(auto, using(crate::proofs::ValidLemmas::few_lines))]
fn remarks_on<M: Machine>(
    alloc: Global,
    task: Task<'_>,
    text: &[u8],
    scenario: Scenario,
) -> Result<Vec<u8>, NoMemory>
    requires { IsValid scenario }
    ensures { IfOk result (λ told. told.items ≡ remarks_of task.entry text.now scenario scenario.actors) }
{
    if judge(&scenario).is_err() {
        return Ok(Vec::new(alloc));
    }
    let scenario = Arc::new(alloc, scenario)?;
    let early = early_in::<M>(alloc, Arc::clone(&scenario)?, &scenario.actors[0].lines)?;
    let machine = M::begin(alloc, Arc::clone(&scenario)?)?;
    run_remarks(alloc, task, text, &scenario.actors[0], early, machine)
}

/// Returns which of the lines ends too early, where they are carried out from the scenario's start.
fn early_in<M: Machine>(
    alloc: Global,
    scenario: Arc<Scenario>,
    lines: &[Line],
) -> Result<Option<(usize, Instr)>, NoMemory>
    requires { IsValid scenario.value }
    ensures early { IfOk result (λ early. early ≡ first_early scenario.value (start scenario.value) 0 lines.now) }
    ensures within { IfOk result (λ early. IfSome early (λ early. early.0 < length lines.now)) }
{
    let mut machine = M::begin(alloc, scenario)?;
    Ok(first_early(&mut machine, lines))
}

/// The same of a run of the scenario's one actor, on a machine at its start, where this line ends too early.
fn run_remarks<M: Machine>(
    alloc: Global,
    task: Task<'_>,
    text: &[u8],
    actor: &Actor,
    early: Option<(usize, Instr)>,
    machine: M,
) -> Result<Vec<u8>, NoMemory>
    requires runs { length (expand actor.now) ≤ MAX_HISTORY }
    requires few { length actor.now.lines ≤ MAX_LINES }
    requires start { M.state machine ≡ start (M.loaded machine) }
    requires early { early ≡ first_early (M.loaded machine) (start (M.loaded machine)) 0 actor.now.lines }
    requires within { IfSome early (λ early. early.0 < length actor.now.lines) }
    ensures { IfOk result (λ told. told.items ≡ run_remarks task.entry text.now (M.loaded machine) actor.now) }
{
    let mut machine = machine;
    let refusals = issue_lines(&mut machine, &actor.lines);
    let scenario = machine.scenario();
    let steps = scenario.steps;
    let mut told = refusals_told(alloc, task, text, &actor.lines, refusals, steps)?;
    if tells_pending(task) {
        push_early(alloc, &mut told, text, actor.lines.len(), early)?;
        push_left(alloc, &mut told, &actor.lines, &machine)?;
    }
    Ok(told)
}

/// Returns what is told of refused instructions behind the task, which are these of a run with so many steps.
fn refusals_told(
    alloc: Global,
    task: Task<'_>,
    text: &[u8],
    lines: &[Line],
    refusals: Refusals,
    steps: u32,
) -> Result<Vec<u8>, NoMemory>
    requires { length lines.now ≤ MAX_LINES }
    ensures { IfOk result (λ told. told.items ≡ (if tells_refusals task.entry
        then refused_text text.now lines.now refusals.count refusals.first ++ spent_line refusals.spent steps else [])) }
{
    let mut told = String::new(alloc);
    if tells_refusals(task) {
        push_refusals(&mut told, text, lines, refusals)?;
        push_spent(&mut told, refusals.spent, steps)?;
    }
    Ok(told.into_bytes())
}

/// Appends how many instructions were refused since the steps were spent, if some were.
fn push_spent(told: &mut String, count: u32, steps: u32) -> Result<(), NoMemory>
    ensures { OnOk result (string_bytes told.new ≡ string_bytes told.old ++ spent_line count steps) }
{
    if count == 0 {
        return Ok(());
    }
    push_spent_words(told, count, steps)
}

/// Appends that so many instructions were refused since these steps were spent.
fn push_spent_words(told: &mut String, count: u32, steps: u32) -> Result<(), NoMemory>
    ensures { OnOk result (string_bytes told.new ≡ string_bytes told.old ++ spent_words count steps) }
{
    push_count(
        told,
        count as usize,
        " instruction was refused as Spent; steps is ",
        " instructions were refused as Spent; steps is ",
    )?;
    push_steps(told, steps)
}

/// Appends how many steps there are, and what more of them are good for.
fn push_steps(told: &mut String, steps: u32) -> Result<(), NoMemory>
    ensures { OnOk result (string_bytes told.new ≡ string_bytes told.old ++ steps_words steps) }
{
    told.push_str(Buffer::new().format(steps))?;
    told.push_str(", and a greater number lets the run continue\n")?;
    Ok(())
}

/// Appends which of the text's last lines ended too early, if one did. They are so many.
fn push_early(
    alloc: Global,
    told: &mut Vec<u8>,
    text: &[u8],
    count: usize,
    early: Option<(usize, Instr)>,
) -> Result<(), NoMemory>
    requires within { IfSome early (λ early. early.0 < count) }
    requires few { count ≤ MAX_LINES }
    ensures { OnOk result (told.new.items ≡ told.old.items ++ early_text text.now count early) }
{
    let Some((place, instr)) = early else {
        return Ok(());
    };
    let words = early_words(alloc, instr)?;
    told.extend_from_slice(b"line ")?;
    told.extend_from_slice(
        Buffer::new()
            .format(number_of_last(text, count, place))
            .as_bytes(),
    )?;
    told.extend_from_slice(b": ")?;
    told.extend_from_slice(&words)?;
    told.extend_from_slice(b"\n")?;
    Ok(())
}

/// Appends how many works are pending, or, where the actor let the machine move, are pending or run.
fn push_left<R: Reads>(
    alloc: Global,
    told: &mut Vec<u8>,
    lines: &[Line],
    machine: &R,
) -> Result<(), NoMemory>
    ensures { OnOk result (told.new.items ≡ told.old.items
        ++ (if lets_move lines.now then left_line (left_count (R.loaded machine.now) (R.state machine.now)) else pending_line (pending_count (R.loaded machine.now) (R.state machine.now)))) }
{
    let mut left = String::new(alloc);
    if lets_move(lines) {
        push_left_count(&mut left, left_count(machine))?;
    } else {
        push_pending(&mut left, pending_count(machine))?;
    }
    told.extend_from_slice(left.as_bytes())?;
    Ok(())
}

/// Appends how many works are pending or run, if some do, and what continues with them.
fn push_left_count(told: &mut String, count: usize) -> Result<(), NoMemory>
    ensures { OnOk result (string_bytes told.new ≡ string_bytes told.old ++ left_line count) }
{
    if count == 0 {
        return Ok(());
    }
    push_count(
        told,
        count,
        " work item is pending or running at the end; --settle continues until none is\n",
        " work items are pending or running at the end; --settle continues until none is\n",
    )
}

/// Whether refused instructions are told behind the task.
fn tells_refusals(task: Task<'_>) -> bool
    ensures { result ≡ tells_refusals task.entry }
{
    matches!(task, Task::Run(_))
}

/// Whether works that are pending are told behind the task: its run ends with the actor's instructions.
fn tells_pending(task: Task<'_>) -> bool
    ensures { result ≡ tells_pending task.entry }
{
    match task {
        Task::Run(kind) => matches!(kind, RunKind::Plain | RunKind::Told),
        Task::Draw(drawing) => !drawing.settle,
        Task::Why(inquiry) => !inquiry.settle,
        _ => false,
    }
}

/// Appends how many instructions were refused, and the first one's line, if one was.
fn push_refusals(
    told: &mut String,
    text: &[u8],
    lines: &[Line],
    refusals: Refusals,
) -> Result<(), NoMemory>
    requires { length lines.now ≤ MAX_LINES }
    ensures { OnOk result (string_bytes told.new ≡ string_bytes told.old ++ refused_text text.now lines.now refusals.count refusals.first) }
{
    let Some(place) = refusals.first else {
        return Ok(());
    };
    let number = number_of_last(text, lines.len(), line_at(lines, place));
    push_count(
        told,
        refusals.count as usize,
        " instruction was refused, in line ",
        " instructions were refused, the first in line ",
    )?;
    told.push_str(Buffer::new().format(number))?;
    told.push_str("\n")?;
    Ok(())
}

/// Appends how many works are pending, if some are, and what goes on with them.
fn push_pending(told: &mut String, count: usize) -> Result<(), NoMemory>
    ensures { OnOk result (string_bytes told.new ≡ string_bytes told.old ++ pending_line count) }
{
    if count == 0 {
        return Ok(());
    }
    push_count(
        told,
        count,
        " work item is pending; --settle continues until the machine is quiet\n",
        " work items are pending; --settle continues until the machine is quiet\n",
    )
}

/// Appends a number, and what there is one of, or so many.
fn push_count(told: &mut String, count: usize, one: &str, many: &str) -> Result<(), NoMemory>
    ensures { OnOk result (string_bytes told.new ≡ string_bytes told.old ++ counted count one.now many.now) }
{
    told.push_str(Buffer::new().format(count))?;
    told.push_str(if count == 1 { one } else { many })?;
    Ok(())
}
