//! The command line: the commands with their arguments and options, and the help.
//!
//! Proved: `parse`: the words of each command ask for that command.
//! Not proved: other orders of words, and help.
#![tactic(auto)]

pub mod commands;
pub mod help;
