//! What a list holds.

use cmwq_types::WorkId;

/// What a node of a list holds: a work, and the number that orders it, as a stamp. A sleeper's number is
/// the time at which it wakes times 2^64, plus its stamp.
#[derive(Clone, Copy, PartialEq, Eq)]
pub struct Node {
    pub order: u128,
    pub work: WorkId,
}
