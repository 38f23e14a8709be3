//! The verdict on a scenario's text, for editors and for people: the text is good, or its first fault
//! with place and reason.
//!
//! Proved: `verdict` gives the line, column and word of the first fault, and the words that fit there. It also gives the word that was probably meant, or how the line is written.
#![tactic(auto)]

mod cures;
pub mod examples;
mod finding;
mod first_words;
mod forms;
mod hints;
mod looks;
mod mending;
mod offers;
mod places;
mod reason_names;
mod shown;
mod verdicts;
mod writing;

pub use looks::Look;
pub use reason_names::{fault_name, why_name};
pub use verdicts::{explained_verdict, ok_line, unread_line, verdict};
