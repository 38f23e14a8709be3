//! The lines of a text.
ghost use Rattle.cmwq_kernel_trace.specs.KernelText.{column_heads, event_line, executed_text, pool_cpu, queued_text, text_head, tracepoint_text};
ghost use Rattle.cmwq_types.specs.Scenario.{is_unbound};
ghost use Rattle.cmwq_types.specs.Setting.{IsSetting};
ghost use Rattle.std.specs.Prelude.{◌≡◌, Some, length};

use crate::columns::{CpuColumn, PidColumn, Pointer, TaskColumn, Timestamp};
use cmwq_events::{KernelEvent, Tracepoint};
use cmwq_types::{Scenario, WorkId};
use std::fmt;

/// The lines that come first: how many events there are, on how many CPUs, and what the columns are.
#[derive(Clone, Copy)]
pub(crate) struct TextHead {
    pub(crate) events: usize,
    pub(crate) cpus: u8,
}

impl fmt::Display for TextHead {
    ghost output = { λ head. Some (text_head head.events head.cpus) };

    fn fmt<W: fmt::Write>(&self, f: &mut fmt::Formatter<W>) -> fmt::Result {
        let events = self.events;
        let cpus = self.cpus;
        let heads = column_heads();
        write!(
            f,
            "# tracer: nop\n#\n# entries-in-buffer/entries-written: {events}/{events}   #P:{cpus}\n{heads}"
        )
    }
}

/// The lines that say what the columns are.
fn column_heads() -> &'static str
    ensures { result.now ≡ column_heads }
{
    "#
#                                _-----=> irqs-off/BH-disabled
#                               / _----=> need-resched
#                              | / _---=> hardirq/softirq
#                              || / _--=> preempt-depth
#                              ||| / _-=> migrate-disable
#                              |||| /     delay
#           TASK-PID     CPU#  |||||  TIMESTAMP  FUNCTION
#              | |         |   |||||     |         |
"
}

/// The line of an event: who, on which CPU, when, and what the tracepoint prints.
#[derive(Clone, Copy)]
pub(crate) struct EventLine<'a> {
    pub(crate) scenario: &'a Scenario,
    pub(crate) event: KernelEvent,
}

impl fmt::Display for EventLine<'_> {
    ghost output = { λ line. Some (event_line line.scenario.now line.event) };

    fn fmt<W: fmt::Write>(&self, f: &mut fmt::Formatter<W>) -> fmt::Result {
        let scenario = self.scenario;
        let task = self.event.task;
        let name = TaskColumn { scenario, task };
        let pid = PidColumn(task);
        let cpu = CpuColumn { scenario, task };
        let time = Timestamp(self.event.time);
        let at = TracepointText {
            scenario,
            work: self.event.work,
            tracepoint: self.event.tracepoint,
        };
        write!(f, "{name}-{pid} [{cpu}] ..... {time}: {at}\n")
    }
}

/// What a tracepoint prints of a work.
#[derive(Clone, Copy)]
struct TracepointText<'a> {
    scenario: &'a Scenario,
    work: WorkId,
    tracepoint: Tracepoint,
}

impl fmt::Display for TracepointText<'_> {
    ghost output = { λ text. Some (tracepoint_text text.scenario.now text.work text.tracepoint) };

    #[tactic(auto, unfolding(crate::specs::KernelText::tracepoint_text))]
    fn fmt<W: fmt::Write>(&self, f: &mut fmt::Formatter<W>) -> fmt::Result {
        let pointer = Pointer(self.work);
        let executed = ExecutedText {
            scenario: self.scenario,
            work: self.work,
        };
        match self.tracepoint {
            Tracepoint::QueueWork { cpu, pool } => {
                let queued = QueuedText {
                    scenario: self.scenario,
                    work: self.work,
                    cpu,
                    pool,
                };
                write!(f, "workqueue_queue_work: {queued}")
            }
            Tracepoint::ActivateWork => {
                write!(f, "workqueue_activate_work: work struct {pointer}")
            }
            Tracepoint::ExecuteStart => write!(f, "workqueue_execute_start: {executed}"),
            Tracepoint::ExecuteEnd => write!(f, "workqueue_execute_end: {executed}"),
        }
    }
}

/// What is told of a work that is queued in a pool, and was asked for on a CPU.
#[derive(Clone, Copy)]
struct QueuedText<'a> {
    scenario: &'a Scenario,
    work: WorkId,
    cpu: u8,
    pool: u8,
}

impl fmt::Display for QueuedText<'_> {
    ghost output = { λ text. Some (queued_text text.scenario.now text.work text.cpu text.pool) };

    #[tactic(auto, unfolding(crate::specs::KernelText::queued_text))]
    fn fmt<W: fmt::Write>(&self, f: &mut fmt::Formatter<W>) -> fmt::Result {
        let scenario = self.scenario;
        let w = self.work.0 as usize;
        let pointer = Pointer(self.work);
        let function = scenario.work_name(w);
        let queue = scenario.queue_name(scenario.queue_of(w) as usize);
        let cpu = self.cpu;
        let pool = self.pool;
        let pool_cpu = PoolCpu { scenario, pool };
        write!(
            f,
            "work struct={pointer} function={function} workqueue={queue} req_cpu={cpu} cpu={pool_cpu}"
        )
    }
}

/// What is told of a work that is executed.
#[derive(Clone, Copy)]
struct ExecutedText<'a> {
    scenario: &'a Scenario,
    work: WorkId,
}

impl fmt::Display for ExecutedText<'_> {
    ghost output = { λ text. Some (executed_text text.scenario.now text.work) };

    #[tactic(auto, unfolding(crate::specs::KernelText::executed_text))]
    fn fmt<W: fmt::Write>(&self, f: &mut fmt::Formatter<W>) -> fmt::Result {
        let pointer = Pointer(self.work);
        let function = self.scenario.work_name(self.work.0 as usize);
        write!(f, "work struct {pointer}: function {function}")
    }
}

/// The CPU of a pool, which is -1 of an unbound one.
#[derive(Clone, Copy)]
struct PoolCpu<'a> {
    scenario: &'a Scenario,
    pool: u8,
}

impl fmt::Display for PoolCpu<'_> {
    ghost output = { λ column. Some (pool_cpu column.scenario.now column.pool) };

    fn fmt<W: fmt::Write>(&self, f: &mut fmt::Formatter<W>) -> fmt::Result {
        if is_unbound(self.scenario, self.pool) {
            return f.write_str("-1");
        }
        let cpu = self.pool / 2;
        write!(f, "{cpu}")
    }
}

/// Whether the pool is one of the two unbound ones.
fn is_unbound(scenario: &Scenario, pool: u8) -> bool
    ensures { result ≡ is_unbound scenario.now pool }
{
    2 * u16::from(scenario.cpus) <= u16::from(pool)
}
