//! Questions that `explore` answers, with the names of callers and work items. Types alone.
//!
//! Proved: nothing. It has types only: the questions of `explore`.
#![tactic(auto)]

mod exploration;

pub use exploration::{Exploration, MAX_STATES, Never, Precedence, USUAL_STATES};
