//! The columns of a line: names, numbers and times.
ghost use Rattle.cmwq_kernel_trace.specs.KernelText.{after_zeros, at_left, cpu_column, pid_column, pointer, spaces, task_column, timestamp};
ghost use Rattle.std.specs.Fmt.{decimal, digits};
ghost use Rattle.std.specs.Prelude.{◌+◌, ◌≡◌, Some, false};

use cmwq_events::{KernelTask, TaskName};
use cmwq_types::{Scenario, WorkId};
use std::fmt;

/// So many spaces.
#[derive(Clone, Copy)]
struct Spaces(usize);

impl fmt::Display for Spaces {
    ghost output = { λ n. Some (spaces n.0) };

    fn fmt<W: fmt::Write>(&self, f: &mut fmt::Formatter<W>) -> fmt::Result {
        for _space in 0..self.0 {
            f.write_str(" ")?;
        }
        Ok(())
    }
}

/// The name of a task, at the right of 16 columns.
#[derive(Clone, Copy)]
pub(crate) struct TaskColumn<'a> {
    pub(crate) scenario: &'a Scenario,
    pub(crate) task: KernelTask,
}

impl fmt::Display for TaskColumn<'_> {
    ghost output = { λ column. Some (task_column column.scenario.now column.task) };

    #[tactic(auto, unfolding(crate::specs::KernelText::task_column, crate::specs::KernelText::at_right))]
    fn fmt<W: fmt::Write>(&self, f: &mut fmt::Formatter<W>) -> fmt::Result {
        let name = TaskName {
            scenario: self.scenario,
            task: self.task,
        };
        let spaces = Spaces(16usize.saturating_sub(name.len()));
        write!(f, "{spaces}{name}")
    }
}

/// The process identifier of a task, at the left of 7 columns.
#[derive(Clone, Copy)]
pub(crate) struct PidColumn(pub(crate) KernelTask);

impl fmt::Display for PidColumn {
    ghost output = { λ column. Some (pid_column column.0) };

    #[tactic(auto, using(crate::proofs::ColumnLemmas::at_left_is), unfolding(crate::specs::KernelText::pid_column))]
    fn fmt<W: fmt::Write>(&self, f: &mut fmt::Formatter<W>) -> fmt::Result {
        let pid = self.0.pid();
        write!(f, "{pid:<7}")
    }
}

/// The number of a task's CPU, in three digits.
#[derive(Clone, Copy)]
pub(crate) struct CpuColumn<'a> {
    pub(crate) scenario: &'a Scenario,
    pub(crate) task: KernelTask,
}

impl fmt::Display for CpuColumn<'_> {
    ghost output = { λ column. Some (cpu_column column.scenario.now column.task) };

    #[tactic(auto, using(crate::proofs::ColumnLemmas::after_zeros_is), unfolding(crate::specs::KernelText::cpu_column))]
    fn fmt<W: fmt::Write>(&self, f: &mut fmt::Formatter<W>) -> fmt::Result {
        let cpu = self.task.cpu(self.scenario);
        write!(f, "{cpu:03}")
    }
}

/// A time, which is in ticks here, in seconds with six digits behind the point.
#[derive(Clone, Copy)]
pub(crate) struct Timestamp(pub(crate) u64);

impl fmt::Display for Timestamp {
    ghost output = { λ time. Some (timestamp time.0) };

    #[tactic(auto, using(crate::proofs::ColumnLemmas::after_zeros_is, crate::proofs::ColumnLemmas::at_right_is), unfolding(crate::specs::KernelText::timestamp))]
    fn fmt<W: fmt::Write>(&self, f: &mut fmt::Formatter<W>) -> fmt::Result {
        let seconds = self.0 / 1000;
        let microseconds = 1000 * (self.0 % 1000);
        write!(f, "{seconds:>5}.{microseconds:06}")
    }
}

/// Where a work's struct is said to be: at its number and 1, in 16 hexadecimal digits.
#[derive(Clone, Copy)]
pub(crate) struct Pointer(pub(crate) WorkId);

impl fmt::Display for Pointer {
    ghost output = { λ pointer_to. Some (pointer pointer_to.0) };

    #[tactic(auto, using(crate::proofs::ColumnLemmas::after_zeros_is), unfolding(crate::specs::KernelText::pointer))]
    fn fmt<W: fmt::Write>(&self, f: &mut fmt::Formatter<W>) -> fmt::Result {
        let address = u64::from(self.0.0) + 1;
        write!(f, "{address:016x}")
    }
}
