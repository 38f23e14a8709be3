//! A breadth-first search over the states that the callers' instructions can reach, in every order.
//!
//! Proved: an interleaving that `explore` finds breaks the rule, and no shorter one does. If it reports none, none breaks the rule, and the number of states is right. If it gives up, no interleaving up to the reported length breaks the rule.
//! Not proved: that it reaches an answer within its limit, and its speed.
#![tactic(auto)]

mod asking;
mod expanding;
mod exploring;
mod plan;
mod progress;
mod retracing;
mod seen;
mod standing;
mod tracing;
mod waiting;

pub use exploring::{Answer, Tally, explore};
pub use plan::{Plan, PlanError};
pub use progress::{Progress, Silent};
pub use retracing::{Rest, Retraced, retrace};
