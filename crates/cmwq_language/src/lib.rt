//! The page `help scenario`: what a scenario's text can say.
//!
//! Proved: the page of `help scenario` has each flag and each instruction that the reader accepts.
#![tactic(auto)]

pub mod laws;
mod limits;
mod meanings;
mod page;

pub use meanings::operand_names;
pub use page::language_page;
