//! Worked examples of commands: what each request writes, and its exit status; and what `explore`
//! writes for a few callers. The functions do nothing. No other crate depends on this one.
//!
//! Proved: worked examples of command lines, of interleavings and of `explore`.
#![tactic(auto)]

pub mod exploring;
pub mod orders;
pub mod requests;
pub mod statuses;
