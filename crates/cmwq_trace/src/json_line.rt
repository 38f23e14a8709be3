//! The lines of a trace in JSON.
ghost use Rattle.cmwq_trace.specs.Json.{executed_by, phase_word, work_thread};
ghost use Rattle.cmwq_trace.specs.JsonParts.{ended_text, execution_part, marked_behind, microseconds, name_behind, naming_front, phase_behind, phase_part, slice_front, task_part};
ghost use Rattle.std.specs.List.{flat_map};
ghost use Rattle.std.specs.Prelude.{◌≡◌, Some};

use crate::json_threads::JsonThread;
use cmwq_events::{KernelTask, TaskName};
use cmwq_picture::Sign;
use cmwq_slices::{Execution, Half, PhaseSlice};
use cmwq_types::Scenario;
use std::fmt;

/// An execution, and whether it is the first on its thread.
#[derive(Clone, Copy)]
pub(crate) struct MarkedExecution {
    pub(crate) execution: Execution,
    pub(crate) is_first: bool,
}

/// What the naming of a process or a thread begins with, up to the name.
#[derive(Clone, Copy)]
pub(crate) struct NamingFront {
    /// What is named.
    pub(crate) kind: &'static str,
    pub(crate) process: u32,
    pub(crate) thread: u128,
}

impl fmt::Display for NamingFront {
    ghost output = { λ front. Some (naming_front front.kind.now front.process front.thread) };

    #[tactic(auto, unfolding(crate::specs::JsonParts::naming_front))]
    fn fmt<W: fmt::Write>(&self, f: &mut fmt::Formatter<W>) -> fmt::Result {
        let kind = self.kind;
        let process = self.process;
        let thread = self.thread;
        write!(
            f,
            "{{\"ph\":\"M\",\"pid\":{process},\"tid\":{thread},\"name\":\"{kind}\",\"args\":{{\"name\":\""
        )
    }
}

/// What a slice begins with, up to the name.
#[derive(Clone, Copy)]
struct SliceFront {
    process: u32,
    thread: u32,
    /// In ticks.
    since: u64,
    until: u64,
}

impl fmt::Display for SliceFront {
    ghost output = { λ front. Some (slice_front front.process front.thread front.since front.until) };

    #[tactic(auto, unfolding(crate::specs::JsonParts::slice_front))]
    fn fmt<W: fmt::Write>(&self, f: &mut fmt::Formatter<W>) -> fmt::Result {
        let process = self.process;
        let thread = self.thread;
        let since = Microseconds(self.since);
        let length = Microseconds(self.until.saturating_sub(self.since));
        write!(
            f,
            "{{\"ph\":\"X\",\"pid\":{process},\"tid\":{thread},\"ts\":{since},\"dur\":{length},\"name\":\""
        )
    }
}

/// So many ticks in microseconds: a tick is a thousand.
#[derive(Clone, Copy)]
struct Microseconds(u64);

impl fmt::Display for Microseconds {
    ghost output = { λ ticks. Some (microseconds ticks.0) };

    fn fmt<W: fmt::Write>(&self, f: &mut fmt::Formatter<W>) -> fmt::Result {
        let ticks = self.0;
        if ticks <= u64::MAX / 1000 {
            let few = 1000 * ticks;
            return write!(f, "{few}");
        }
        let many = 1000 * u128::from(ticks);
        write!(f, "{many}")
    }
}

/// The lines of executions and of phases that have ended, each behind the comma and the line feed that end the one before.
#[derive(Clone, Copy)]
pub(crate) struct EndedLines<'a> {
    pub(crate) scenario: &'a Scenario,
    pub(crate) executions: &'a [MarkedExecution],
    pub(crate) slices: &'a [PhaseSlice],
}

impl fmt::Display for EndedLines<'_> {
    ghost output = { λ lines. Some (ended_text lines.scenario.now lines.executions.now lines.slices.now) };

    fn fmt<W: fmt::Write>(&self, f: &mut fmt::Formatter<W>) -> fmt::Result {
        let executions = ExecutionLines {
            scenario: self.scenario,
            executions: self.executions,
        };
        let phases = PhaseLines(self.slices);
        write!(f, "{executions}{phases}")
    }
}

/// The lines of executions that have ended, each first one of a thread behind the thread's name.
#[derive(Clone, Copy)]
struct ExecutionLines<'a> {
    scenario: &'a Scenario,
    executions: &'a [MarkedExecution],
}

impl fmt::Display for ExecutionLines<'_> {
    ghost output = { λ lines. Some (flat_map (marked_behind lines.scenario.now) lines.executions.now) };

    fn fmt<W: fmt::Write>(&self, f: &mut fmt::Formatter<W>) -> fmt::Result {
        for marked in self.executions {
            let line = MarkedLines {
                scenario: self.scenario,
                marked: *marked,
            };
            write!(f, "{line}")?;
        }
        Ok(())
    }
}

/// The line of an execution; where it is the first of its thread, behind the thread's name.
#[derive(Clone, Copy)]
struct MarkedLines<'a> {
    scenario: &'a Scenario,
    marked: MarkedExecution,
}

impl fmt::Display for MarkedLines<'_> {
    ghost output = { λ lines. Some (marked_behind lines.scenario.now lines.marked) };

    fn fmt<W: fmt::Write>(&self, f: &mut fmt::Formatter<W>) -> fmt::Result {
        let name = NameBehind {
            scenario: self.scenario,
            marked: self.marked,
        };
        let line = ExecutionLine {
            scenario: self.scenario,
            execution: self.marked.execution,
        };
        write!(f, "{name},\n{line}")
    }
}

/// The line that names the thread of an execution, where it is the first of its thread.
#[derive(Clone, Copy)]
struct NameBehind<'a> {
    scenario: &'a Scenario,
    marked: MarkedExecution,
}

impl fmt::Display for NameBehind<'_> {
    ghost output = { λ name. Some (name_behind name.scenario.now name.marked) };

    fn fmt<W: fmt::Write>(&self, f: &mut fmt::Formatter<W>) -> fmt::Result {
        if !self.marked.is_first {
            return Ok(());
        }
        let scenario = self.scenario;
        let task = task_of(scenario, self.marked.execution);
        let line = TaskLine { scenario, task };
        write!(f, ",\n{line}")
    }
}

/// Who executes it.
pub(crate) fn task_of(scenario: &Scenario, execution: Execution) -> KernelTask
    ensures { result ≡ executed_by scenario.now execution }
{
    KernelTask::executor(
        scenario,
        execution.work.0 as usize,
        execution.pool,
        execution.worker,
    )
}

/// The name of a task's thread.
#[derive(Clone, Copy)]
struct TaskLine<'a> {
    scenario: &'a Scenario,
    task: KernelTask,
}

impl fmt::Display for TaskLine<'_> {
    ghost output = { λ line. Some (task_part line.scenario.now line.task) };

    fn fmt<W: fmt::Write>(&self, f: &mut fmt::Formatter<W>) -> fmt::Result {
        let scenario = self.scenario;
        let task = self.task;
        let thread = JsonThread::of(scenario, task);
        let front = NamingFront {
            kind: "thread_name",
            process: thread.process,
            thread: u128::from(thread.id),
        };
        let name = TaskName { scenario, task };
        write!(f, "{front}{name}\"}}}}")
    }
}

/// The slice of an execution.
#[derive(Clone, Copy)]
struct ExecutionLine<'a> {
    scenario: &'a Scenario,
    execution: Execution,
}

impl fmt::Display for ExecutionLine<'_> {
    ghost output = { λ line. Some (execution_part line.scenario.now line.execution) };

    fn fmt<W: fmt::Write>(&self, f: &mut fmt::Formatter<W>) -> fmt::Result {
        let scenario = self.scenario;
        let execution = self.execution;
        let thread = JsonThread::of(scenario, task_of(scenario, execution));
        let front = SliceFront {
            process: thread.process,
            thread: thread.id,
            since: execution.since,
            until: execution.until,
        };
        let name = scenario.work_name(execution.work.0 as usize);
        write!(f, "{front}{name}\"}}")
    }
}

/// The lines of phases that have ended.
#[derive(Clone, Copy)]
struct PhaseLines<'a>(&'a [PhaseSlice]);

impl fmt::Display for PhaseLines<'_> {
    ghost output = { λ lines. Some (flat_map phase_behind lines.0.now) };

    fn fmt<W: fmt::Write>(&self, f: &mut fmt::Formatter<W>) -> fmt::Result {
        for slice in self.0 {
            let line = PhaseLine(*slice);
            write!(f, ",\n{line}")?;
        }
        Ok(())
    }
}

/// The slice of a phase.
#[derive(Clone, Copy)]
struct PhaseLine(PhaseSlice);

impl fmt::Display for PhaseLine {
    ghost output = { λ line. Some (phase_part line.0) };

    fn fmt<W: fmt::Write>(&self, f: &mut fmt::Formatter<W>) -> fmt::Result {
        let slice = self.0;
        let front = SliceFront {
            process: 1,
            thread: work_thread(slice.work.0, slice.half),
            since: slice.since,
            until: slice.until,
        };
        let word = phase_word(slice.sign);
        write!(f, "{front}{word}\"}}")
    }
}

/// The thread of process 1 on which the phases of a work's instances stand.
fn work_thread(w: u16, half: Half) -> u32
    ensures { result ≡ work_thread w half }
{
    match half {
        Half::Running => 2 * u32::from(w) + 1,
        Half::Pending => 2 * u32::from(w) + 2,
    }
}

/// The name of a phase in which an instance does this.
fn phase_word(sign: Sign) -> &'static str
    ensures { result.now ≡ phase_word sign }
{
    match sign {
        Sign::Burns => "burns",
        Sign::Waits => "ready",
        Sign::Sleeps => "asleep",
        Sign::Listed => "listed",
        Sign::Inactive => "inactive",
        Sign::Timed => "timer",
        Sign::Deferred => "deferred",
    }
}
