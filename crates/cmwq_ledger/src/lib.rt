//! Where the time of each instance of a work item went, and sums for queues, CPUs and pools.
//!
//! Proved: `Books::record`: the accounts of instances, and the sums, are as defined.
#![tactic(auto)]

mod account;
mod active;
mod books;
mod heads;
mod ledger;
mod queue_totals;
mod signs;
mod still;
mod times_line;
mod told;
mod totals;

pub use account::{Account, Ticks};
pub use active::active_everywhere;
pub use books::Books;
pub use ledger::Ledger;
pub use queue_totals::{Count, QueueTotals};
pub use times_line::{Fate, TimesLine};
pub use totals::Totals;
