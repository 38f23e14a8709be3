//! The lister: it writes the canonical text of a scenario.
//!
//! Proved: `list` gives the canonical listing.
#![tactic(auto)]

mod line_end;
mod lines;
mod listing;

pub use listing::list;
