//! The timers of delayed work items, in the order in which they fire; and alarms, which are timers that
//! keep only their tick.
//!
//! Proved: timers and alarms are finite maps with their first elements.
//! Not proved: their speed.
#![tactic(auto)]

mod alarm_ranks;
mod alarm_scan;
mod alarm_tree;
mod alarms;
mod changing;
mod rank;
mod scan;
mod timer;
mod timers;
mod tree;

pub use alarms::Alarms;
pub use timer::Timer;
pub use timers::Timers;
