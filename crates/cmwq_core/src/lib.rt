//! `Core`: the fast machine, over linked lists, timers, end times and counters. It scans work items
//! only for a queue's flush and for a view.
//!
//! Proved: lists, timers and counts are such a structure too. `Core` is the machine over them, and the program's machine.
//! Not proved: its speed.
#![tactic(auto)]

mod beginning;
mod core_parts;
mod looking;
mod moving;
mod rescuing;

use cmwq_exec::Driven;
pub use core_parts::CoreParts;

/// The machine that carries out the instruction table over indexes that each change keeps up to date.
pub type Core = Driven<CoreParts>;
