//! What may come next in an order, and who has to wait for whom.

use cmwq_types::Instr;

/// What comes next in an order of the actors' instructions.
#[derive(Clone, Copy, PartialEq, Eq)]
pub enum Choice {
    /// The actor of this number, from 0, carries out its next line.
    Line(u8),
    /// The machine does this by itself: `Fire`, a `Step` or a `Tick`.
    Own(Instr),
}

/// One actor begins only once another one has ended. Actors are named by their numbers, from 0.
#[derive(Clone, Copy, PartialEq, Eq)]
pub struct Before {
    /// Who has to have ended.
    pub first: u8,
    /// Who begins then.
    pub then: u8,
}
