//! The orders in which the callers' instructions can be issued: what can come next, what results, and
//! which question is answered over all orders.
//!
//! Proved: laws: an interleaving of several callers is a run of the instruction table. A set of states that no choice leaves contains every reachable state.
#![tactic(auto)]

mod choice;
pub mod laws;
mod question;

pub use choice::{Before, Choice};
pub use question::Question;
