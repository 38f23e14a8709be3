//! Why a work item waits, as text.
//!
//! Proved: the line of a reason has the bytes of its definition.
#![tactic(auto)]

mod appending;
mod items;
mod line;
mod names;
mod wording;

pub use appending::push_number;
pub use line::work_text;
pub use wording::Wording;
