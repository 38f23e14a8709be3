//! What a kernel's trace tells of a run: the events of its workqueues.

use crate::kernel_task::KernelTask;
use cmwq_types::WorkId;

/// An event of a kernel's workqueues.
#[derive(Clone, Copy, PartialEq, Eq)]
pub struct KernelEvent {
    /// When, in ticks.
    pub time: u64,
    /// In which task.
    pub task: KernelTask,
    /// Of which work.
    pub work: WorkId,
    /// At which tracepoint.
    pub tracepoint: Tracepoint,
}

/// A kernel's tracepoint in its workqueues, `workqueue:workqueue_..`.
#[derive(Clone, Copy, PartialEq, Eq)]
pub enum Tracepoint {
    /// `queue_work`: the work is queued on the queue of this pool; it was asked for on this CPU.
    QueueWork { cpu: u8, pool: u8 },
    /// `activate_work`: the work comes into its pool's list.
    ActivateWork,
    /// `execute_start`: a worker begins to execute the work.
    ExecuteStart,
    /// `execute_end`: its worker is done with it.
    ExecuteEnd,
}
