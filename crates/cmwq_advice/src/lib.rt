//! Advice: lines after a fault that say what to do about it.
//!
//! Proved: `advice`: the lines after a fault follow from what is found in the files.
//! Not proved: why the system refuses a file, and that a file can be read a second time.
#![tactic(auto)]

mod advising;
mod calling;
mod explain_option;
mod line;
mod on_scenario;
mod past_end;
mod plain;
mod trouble;
mod unexplored;

pub use advising::{Found, advice, file_made, file_read, wants_text};
pub use explain_option::{EXPLAIN, take_explain};
pub use trouble::Trouble;
pub use unexplored::on_unexplored;
