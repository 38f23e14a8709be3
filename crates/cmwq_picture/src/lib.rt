//! The picture of a run: one row per work item, CPU and worker, and one column per tick, or per stretch
//! of ticks without a change.
//!
//! Proved: rows and columns of a picture are as defined.
#![tactic(auto)]

mod acting;
mod arming;
mod cell;
mod column;
mod columns;
mod equality;
mod extent;
mod folding;
pub mod laws;
mod moment;
mod picturing;
mod recorder;
mod row;
mod rows;
mod span;

pub use cell::{Cell, Sign};
pub use extent::Extent;
pub use picturing::picture;
pub use row::{Act, Hint, Picture, Row, Title};
pub use span::{MAX_COLUMNS, MAX_UNFOLDED};
