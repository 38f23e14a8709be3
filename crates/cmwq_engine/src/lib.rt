//! An engine: a machine with the history of the instructions issued on it; and a shared engine,
//! protected by a ticket lock.
//!
//! Proved: the machine of `Engine` and `Shared` is the table's machine over the history. Each reply is at its position.
#![tactic(auto)]

mod engine;
mod full_laws;
mod history;
mod kept;
pub mod laws;
mod shared;

pub use engine::Engine;
pub use full_laws::{
    full_issues_are_later_than_what_was_seen, last_ticket_is_later_than_the_one_before,
};
pub use history::{Entry, Full, Setting};
pub use kept::Receipt;
pub use shared::{IssueError, Shared, StillOut};
