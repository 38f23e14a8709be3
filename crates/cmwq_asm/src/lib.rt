//! The assembler: it reads the text of a scenario.
//!
//! Proved: `assemble` gives exactly the scenario that the text spells, or its first fault. A listing that is read again gives the same scenario.
#![tactic(auto)]

mod actors;
mod assembling;
mod comments;
mod declarations;
mod fault;
mod line_steps;
mod next_line;
mod open;
mod operations;
mod stage;

pub use assembling::{assemble, assemble_again};
pub use cmwq_grammar::{Next, Why};
pub use cmwq_list::list;
pub use fault::AsmError;
pub use next_line::next_after;
