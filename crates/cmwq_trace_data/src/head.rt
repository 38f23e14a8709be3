//! What stands in the file before the pages: its kind, the layouts and formats, the functions of works, and the tasks.
ghost use Rattle.cmwq_trace_data.specs.TraceData.{formats, function_line, function_lines, head, kind, layouts, names, sized, task_line, task_lines};
ghost use Rattle.cmwq_trace_data.specs.HeadParts.{HasTasks, lines_of_tasks};
ghost use Rattle.cmwq_trace_data.specs.declared.texts.TheConstants.{PIDS};
ghost use Rattle.cmwq_types.specs.Setting.{IsSetting};
ghost use Rattle.std.specs.Int.{w32, w64};
ghost use Rattle.std.specs.Prelude.{◌≡◌, ◌≤◌, ◌++◌, IfOk, OnOk, Some, length};

use crate::numbers::{push_sized_u32, push_sized_u64, push_u32};
use crate::texts::{
    ACTIVATE_WORK, EXECUTE_END, EXECUTE_START, FLYRECORD, HEADER_EVENT, HEADER_EVENT_NAME,
    HEADER_PAGE, HEADER_PAGE_NAME, MAGIC, PAGE, PIDS, QUEUE_WORK, WORKQUEUE,
};
use cmwq_events::{KernelEvent, KernelTask, TaskName, cpus_traced};
use cmwq_types::{NoMemory, Scenario, filled};
use std::alloc::Global;
use std::fmt;

/// Writes what stands before the places of the pages.
pub(crate) fn push_head(
    alloc: Global,
    bytes: &mut Vec<u8>,
    scenario: &Scenario,
    events: &[KernelEvent],
) -> Result<(), NoMemory>
    requires { IsSetting scenario.now }
    ensures { OnOk result (bytes.new.items ≡ bytes.old.items ++ head scenario.now events.now) }
{
    push_kind(bytes)?;
    push_layouts(bytes)?;
    push_formats(bytes)?;
    push_names(alloc, bytes, scenario, events)
}

/// Writes what the file is, version 6, the order of bytes, and the lengths of an address and of a page.
#[tactic(auto, unfolding(crate::specs::TraceData::kind))]
fn push_kind(bytes: &mut Vec<u8>) -> Result<(), NoMemory>
    ensures { OnOk result (bytes.new.items ≡ bytes.old.items ++ kind) }
{
    bytes.extend_from_slice(MAGIC.as_bytes())?;
    bytes.extend_from_slice(&[0, 8])?;
    push_u32(bytes, PAGE as u128)
}

/// Writes how pages and entries are laid out.
#[tactic(auto, unfolding(crate::specs::TraceData::layouts))]
fn push_layouts(bytes: &mut Vec<u8>) -> Result<(), NoMemory>
    ensures { OnOk result (bytes.new.items ≡ bytes.old.items ++ layouts) }
{
    bytes.extend_from_slice(HEADER_PAGE_NAME.as_bytes())?;
    push_sized_u64(bytes, HEADER_PAGE.as_bytes())?;
    bytes.extend_from_slice(HEADER_EVENT_NAME.as_bytes())?;
    push_sized_u64(bytes, HEADER_EVENT.as_bytes())
}

/// Writes the formats of the events.
#[tactic(auto, unfolding(crate::specs::TraceData::formats))]
fn push_formats(bytes: &mut Vec<u8>) -> Result<(), NoMemory>
    ensures { OnOk result (bytes.new.items ≡ bytes.old.items ++ formats) }
{
    push_u32(bytes, 0)?;
    push_u32(bytes, 1)?;
    bytes.extend_from_slice(WORKQUEUE.as_bytes())?;
    push_u32(bytes, 4)?;
    push_sized_u64(bytes, QUEUE_WORK.as_bytes())?;
    push_sized_u64(bytes, ACTIVATE_WORK.as_bytes())?;
    push_sized_u64(bytes, EXECUTE_START.as_bytes())?;
    push_sized_u64(bytes, EXECUTE_END.as_bytes())
}

/// Writes the names of functions and of tasks, and how many CPUs there are.
#[tactic(auto, unfolding(crate::specs::TraceData::names))]
fn push_names(
    alloc: Global,
    bytes: &mut Vec<u8>,
    scenario: &Scenario,
    events: &[KernelEvent],
) -> Result<(), NoMemory>
    requires { IsSetting scenario.now }
    ensures { OnOk result (bytes.new.items ≡ bytes.old.items ++ names scenario.now events.now) }
{
    push_functions(alloc, bytes, scenario)?;
    push_u32(bytes, 0)?;
    push_tasks(alloc, bytes, scenario, events)?;
    push_u32(bytes, u128::from(cpus_traced(scenario, events)))?;
    bytes.extend_from_slice(FLYRECORD.as_bytes())?;
    Ok(())
}

/// Writes the lines of the works' functions, behind their length.
fn push_functions(alloc: Global, bytes: &mut Vec<u8>, scenario: &Scenario) -> Result<(), NoMemory>
    requires { IsSetting scenario.now }
    ensures { OnOk result (bytes.new.items ≡ bytes.old.items ++ sized w32 (function_lines scenario.now (length scenario.now.works))) }
{
    let lines = function_lines(alloc, scenario)?;
    push_sized_u32(bytes, &lines)
}

/// The lines of the works' functions.
fn function_lines(alloc: Global, scenario: &Scenario) -> Result<Vec<u8>, NoMemory>
    requires { IsSetting scenario.now }
    ensures { IfOk result (λ lines. lines.items ≡ function_lines scenario.now (length scenario.now.works)) }
{
    let mut lines = Vec::new(alloc);
    for w in 0..scenario.works.len() {
        let line = FunctionLine {
            address: 0xffff_ffff_8100_0000 + 64 * w as u64,
            name: scenario.work_name(w),
        };
        let line = line.to_string(alloc)?;
        lines.extend_from_slice(line.as_bytes())?;
    }
    Ok(lines)
}

/// The line of a work's function.
#[derive(Clone, Copy)]
struct FunctionLine<'a> {
    address: u64,
    name: &'a str,
}

impl fmt::Display for FunctionLine<'_> {
    ghost output = { λ line. Some (function_line line.address line.name.now) };

    fn fmt<W: fmt::Write>(&self, f: &mut fmt::Formatter<W>) -> fmt::Result {
        let FunctionLine { address, name } = *self;
        write!(f, "{address:x} t {name}\n")
    }
}

/// Writes the lines of the events' tasks, behind their length.
fn push_tasks(
    alloc: Global,
    bytes: &mut Vec<u8>,
    scenario: &Scenario,
    events: &[KernelEvent],
) -> Result<(), NoMemory>
    ensures { OnOk result (bytes.new.items ≡ bytes.old.items ++ sized w64 (task_lines scenario.now events.now PIDS)) }
{
    let lines = task_lines(alloc, scenario, events, PIDS)?;
    push_sized_u64(bytes, &lines)
}

/// The lines of the events' tasks whose process identifiers are below a number.
#[tactic(auto, using(crate::proofs::TaskLemmas::same_lines))]
fn task_lines(
    alloc: Global,
    scenario: &Scenario,
    events: &[KernelEvent],
    count: usize,
) -> Result<Vec<u8>, NoMemory>
    ensures { IfOk result (λ lines. lines.items ≡ task_lines scenario.now events.now count) }
{
    let tasks = tasks_by_pid(alloc, events, count)?;
    lines_of_tasks(alloc, scenario, &tasks)
}

/// The last of the events' tasks with each process identifier below a number.
fn tasks_by_pid(
    alloc: Global,
    events: &[KernelEvent],
    count: usize,
) -> Result<Vec<Option<KernelTask>>, NoMemory>
    ensures { IfOk result (λ tasks. HasTasks count tasks.items events.now) }
{
    let mut tasks = filled(alloc, None, count)?;
    for event in events {
        let pid = event.task.pid() as usize;
        if pid < count {
            tasks[pid] = Some(event.task);
        }
    }
    Ok(tasks)
}

/// The lines of tasks, of which each stands at its process identifier.
fn lines_of_tasks(
    alloc: Global,
    scenario: &Scenario,
    tasks: &[Option<KernelTask>],
) -> Result<Vec<u8>, NoMemory>
    ensures { IfOk result (λ lines. lines.items ≡ lines_of_tasks scenario.now tasks.now (length tasks.now)) }
{
    let mut lines = Vec::new(alloc);
    for pid in 0..tasks.len() {
        let line = TaskLine {
            scenario,
            pid,
            task: tasks[pid],
        };
        let line = line.to_string(alloc)?;
        lines.extend_from_slice(line.as_bytes())?;
    }
    Ok(lines)
}

/// The line of a task, where one has the process identifier.
#[derive(Clone, Copy)]
struct TaskLine<'a> {
    scenario: &'a Scenario,
    pid: usize,
    task: Option<KernelTask>,
}

impl fmt::Display for TaskLine<'_> {
    ghost output = { λ line. Some (task_line line.scenario.now line.pid line.task) };

    fn fmt<W: fmt::Write>(&self, f: &mut fmt::Formatter<W>) -> fmt::Result {
        let TaskLine {
            scenario,
            pid,
            task,
        } = *self;
        match task {
            Some(task) if pid != 0 => {
                let name = TaskName { scenario, task };
                write!(f, "{pid} {name}\n")
            }
            _ => Ok(()),
        }
    }
}
