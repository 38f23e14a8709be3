//! Counts and searches over a machine's state, by scans. They are written once, for every machine and
//! for everything that reads one.
//!
//! Proved: what the instruction table counts and looks up, over any machine. Limits are as declared, and a copy and a view have every flush and map.
#![tactic(auto)]

mod beginning;
mod conditions;
mod flushes;
mod looking;
mod pool_moves_sought;
mod refusing;
mod sought;
mod tally;
mod workers;

pub use beginning::{copied_flushes, declared_max};
pub use conditions::{first_at_work, is_at_work, is_free, is_met, is_question, is_quiet};
pub use flushes::{flush_target, is_done};
pub use looking::{entries, idle_workers};
pub use pool_moves_sought::{is_spent, next_move, ready_head};
pub use refusing::{operands, refused_at_once};
pub use sought::{Sought, fires_before, first, pending_before, running_before, wakes_before};
pub use tally::{Tally, active, count, has_room, is_busy, is_counted, level, limit, may_start};
pub use workers::{free_worker, has_free_rescuer, idle_since, last_idle, new_worker};
