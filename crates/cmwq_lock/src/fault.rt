//! What the lock refuses, with what was handed in.
use crate::kept::Kept;
use crate::lock::TicketLock;
use crate::tokens::{Drawn, Opener, Pass};
use thiserror::Error;

/// 64 passes are out.
#[derive(Debug, Drop, PartialEq, Eq, Error)]
#[error("64 passes are out")]
pub struct TooMany;

/// The reason why no ticket was drawn.
#[derive(Debug, Drop, PartialEq, Eq, Error)]
pub enum NotDrawnWhy {
    /// Others drew between the load, which gave `loaded`, and the exchange, which found `found`.
    #[error("ticket {loaded} was drawn by another caller, and {found} is the next")]
    Raced { loaded: u64, found: u64 },
    /// All 2^62 tickets are drawn.
    #[error("each of the 2^62 tickets is drawn")]
    Exhausted,
}

/// No ticket was drawn. The pass comes back.
#[derive(Drop)]
pub struct NotDrawn<T: Kept> {
    pub pass: Pass<T>,
    pub why: NotDrawnWhy,
}

/// The turn of `ticket` has not come: `served` was found. The ticket and the call come back.
pub struct NotYet<T: Kept, C> {
    pub drawn: Drawn<T>,
    pub ticket: u64,
    pub served: u64,
    pub call: C,
}

/// `left` passes are not retired. The lock and its opener come back.
#[derive(Drop)]
pub struct StillOut<T: Kept> {
    pub lock: TicketLock<T>,
    pub opener: Opener<T>,
    pub left: u32,
}
