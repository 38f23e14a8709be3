//! The debugger's command lines: how they are read and answered.
//!
//! Proved: each command line does what its definition says, and prints its lines.
#![tactic(auto)]

mod commands_read;
mod manner;
mod order;
mod prompt;
mod talk;
mod verb;
mod whole_lines;

pub use manner::Manner;
pub use prompt::{answer_in, ending, opening};
pub use talk::answer;
pub use whole_lines::line_length;
