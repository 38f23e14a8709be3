//! Why a work item waits, and what a flush waits for, computed from a machine.
//!
//! Proved: the reasons of a work item, and the work items that a flush waits for, over any machine.
#![tactic(auto)]

mod blame;
mod flush_waits;
mod going_first;
mod pending;
mod reason_group;
mod running_works;

pub use blame::{causes, holders, on_workers};
pub use flush_waits::{lacks_memory, lacks_thaw, waits};
pub use going_first::is_same;
pub use pending::pending_reason;
pub use reason_group::{ReasonGroup, group_works};
pub use running_works::{reason_of, running_reason};
