//! `debug`: the debugger over a reader of commands and a writer.
//!
//! Proved: `debug` writes exactly the defined bytes, or returns the fault.
#![tactic(auto)]

mod debugging;

pub use cmwq_debug_lines::Manner;
pub use debugging::debug;
