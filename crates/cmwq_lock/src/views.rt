//! What each seat of the lock's table knows. No value of these types is made.
use std::collections::LinkedList;
use std::snapshot::Snapshot;

/// What a caller knows: its number, the log as it last saw it, and the entries of its own calls, in order.
pub struct Knowledge<E> {
    pub caller: u64,
    pub seen: LinkedList<E>,
    pub mine: LinkedList<E>,
}

/// Whose pass it is.
pub struct Identity<O, E> {
    pub origin: Snapshot<O>,
    pub knows: Knowledge<E>,
}

/// The loads and the lost exchanges of `drawn` since the pass came out, and the last value of each.
pub struct Tries {
    pub loads: u64,
    pub loaded: u64,
    pub losses: u64,
    pub found: u64,
}

/// The ticket drawn, the looks at `served` since then, and the last value seen.
pub struct Queued {
    pub ticket: u64,
    pub looks: u64,
    pub last: u64,
}

/// Where a pass stands.
pub enum Phase<E> {
    /// It has no ticket.
    Out(Tries),
    /// It has a ticket, and waits for its turn.
    Waiting(Queued),
    /// It has its turn: the ticket, and the log that it found.
    Inside(u64, LinkedList<E>),
}

/// A pass that has no ticket: whose it is, and what it has tried.
pub struct OutPass<O, E> {
    pub who: Identity<O, E>,
    pub tries: Tries,
}

/// What the opener knows: the next caller's number, how many passes are out, the log as it last saw it, and what each retired
/// caller knew.
pub struct OpenerView<O, E> {
    pub origin: Snapshot<O>,
    pub next: u64,
    pub out: u64,
    pub seen: LinkedList<E>,
    pub records: LinkedList<Knowledge<E>>,
}

/// What a seat knows.
pub enum SeatView<O, E> {
    Opener(OpenerView<O, E>),
    Pass(Identity<O, E>, Phase<E>),
    /// Of a seat that two passes with no ticket have while they meet: the first and the second.
    Both(OutPass<O, E>, OutPass<O, E>),
    /// Of a seat that was joined.
    Spent,
}

/// The value as it lies in the slot, with the number of turns that have ended.
#[derive(Drop)]
pub struct Held<T> {
    pub value: T,
    pub turns: u64,
}
