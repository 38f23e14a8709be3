//! A ticket lock: callers draw tickets and get the locked value in the order of their tickets.
//! `TicketLock::open` returns the lock and its `Opener`, which has at most 64 passes. With a `Pass` a
//! caller draws one of 2^62 tickets. With a `Drawn` it makes one `Call`, which adds at most one entry
//! to the value's log. The rules and limits are this project's own.
//!
//! Proved: `TicketLock`: one history, with turns in ticket order, for any kept value.
#![tactic(auto)]

mod fault;
mod kept;
mod lock;
mod steps;
mod tokens;
mod views;

pub use fault::{NotDrawn, NotDrawnWhy, NotYet, StillOut, TooMany};
pub use kept::{Call, Kept};
pub use lock::TicketLock;
pub use tokens::{Drawn, Opener, Pass};
