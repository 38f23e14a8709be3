//! The tasks and workqueue events of a kernel's trace of a run.
//!
//! Proved: `KernelEvents`: the workqueue events of the run are as defined, each with its task.
#![tactic(auto)]

mod doer;
mod kernel_event;
mod kernel_events;
mod kernel_task;
mod stamped;

pub use doer::Doer;
pub use kernel_event::{KernelEvent, Tracepoint};
pub use kernel_events::{KernelEvents, cpus_traced};
pub use kernel_task::{KernelTask, TaskName};
pub use stamped::{Instance, Stamped};
