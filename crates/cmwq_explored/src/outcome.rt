//! What exploring comes to.

/// What exploring all orders of a scenario's actors comes to.
#[derive(Clone, Copy, PartialEq, Eq)]
pub enum Outcome {
    /// No order comes to what is never to be.
    Holds,
    /// Some order does, and it was shown.
    Found,
    /// That is open, or says nothing: what it speaks of never happens, the scenario's steps ran out, or the search gave up.
    Open,
}
