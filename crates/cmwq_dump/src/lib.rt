//! The dump: a machine's state as text.
//!
//! Proved: `dump_text` is the text of the machine's state.
#![tactic(auto)]

mod dump;
mod dump_lines;
mod dumping;
mod group;
mod idle;
pub mod laws;

pub use dump::{dump_text, pool_text};
