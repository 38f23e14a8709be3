//! The program's last words: help, the version, usage faults, verdicts, and faults with their exit
//! status; and the scenario that `new` writes.
//!
//! Proved: statuses, fault lines, and what `check` prints of one file. The text of `new` spells a stated scenario, which prints stated lines.
//! Not proved: the texts of the command-line library.
#![tactic(auto)]

pub mod fault;
mod file_verdict;
mod refused;
mod starter;
mod starting;
mod telling;

pub use cmwq_verdict::Look;
pub use file_verdict::{Judged, check_text, tell_unread};
pub use refused::{refusals_are_told_by_position, refused_line};
pub use starter::{first_scenario_prints, first_text};
pub use starting::{write_first, write_version};
pub use telling::{GOOD, USAGE, tell};
