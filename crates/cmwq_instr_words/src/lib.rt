//! An instruction in the words of the listing.
//!
//! Proved: the words of an instruction are those of the listing.
#![tactic(auto)]

mod instr_text;

pub use instr_text::InstrWords;
