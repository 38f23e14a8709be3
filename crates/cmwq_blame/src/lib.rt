//! For which work items the others waited, counted tick by tick.
//!
//! Proved: `Blame::record`: the counts of who waited for whom are as defined, tick by tick.
#![tactic(auto)]

mod blame;
mod blamed;
mod counting;
mod passing;
mod waiting;

pub use blame::Blame;
