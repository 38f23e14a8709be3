//! A picture as text, with its labels, times, folded columns and legend, and what the caller did.
//!
//! Proved: the picture as text, to the byte. No two work items have the same letter.
#![tactic(auto)]

mod act_lines;
pub mod examples;
mod gap;
mod label;
pub mod laws;
mod legend;
mod letters;
mod sketching;
mod times;

pub use act_lines::act_words;
pub use gap::{Gap, GapWords, gaps};
pub use label::{Label, label_width};
pub use legend::{meaning, sampled};
pub use sketching::sketch;
pub use times::{column_count, time_at, time_count, time_step};
