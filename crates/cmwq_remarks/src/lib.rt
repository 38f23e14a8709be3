//! Remarks after a run that ended well, and notes on a good text.
//!
//! Proved: `remarks`: how many instructions were refused, how many work items are left, and which lines say so. `notes`: the lines at which a kernel differs, and those that do less than they seem to.
#![tactic(auto)]

pub mod examples;
mod line_numbers;
mod noted;
mod pending;
mod refusals;
mod remarked;
mod traps;

pub use noted::notes;
pub use refusals::{Refusals, issue_lines};
pub use remarked::remarks;
