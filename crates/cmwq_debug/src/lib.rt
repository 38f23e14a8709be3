//! The debugger: it goes forwards and backwards through a list of instructions, stops at breaks, and
//! dumps the state.
//!
//! Proved: at position K everything is reported of the table's state after K instructions. So are the checkpoints from which it goes back.
#![tactic(auto)]

mod break_lines;
mod breaks;
mod checkpoints;
mod command;
mod debugger;
mod event_words;
mod replay;

pub use breaks::MAX_BREAKS;
pub use checkpoints::{Checkpoint, FIRST_SPACING, MAX_CHECKPOINTS};
pub use command::{Command, DebugError, EventKind, Said};
pub use debugger::Debugger;
