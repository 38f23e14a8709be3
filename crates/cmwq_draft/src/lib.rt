//! The scenario that the lines so far declare, and the fault of a line that contradicts it.
//!
//! Proved: each line adds to the scenario what the definition says, or has the fault that the definition gives.
#![tactic(auto)]

mod actor_lines;
mod bodies;
mod declarations;
mod draft;
mod mnemonics;
mod operations;

pub use actor_lines::read_instr_line;
pub use bodies::Bodies;
pub use declarations::{QueueLine, WorkLine, fits_flags, read_queue_line, read_work_line};
pub use draft::Draft;
pub use operations::{read_next, read_op};
