//! What is asked of a run, and of which of its states.

/// What is asked of a run.
#[derive(Clone, Copy, PartialEq, Eq)]
pub enum Question<'a> {
    /// Why the work of this name isn't further.
    Work(&'a str),
    /// What the flush of this number, from 0, waits for.
    Flush(u64),
}

/// A question to a scenario's run.
#[derive(Clone, Copy, PartialEq, Eq)]
pub struct Inquiry<'a> {
    /// What is asked.
    pub question: Question<'a>,
    /// Where the machine is looked at.
    pub looks: Looks,
    /// Whether the run goes on until the machine is quiet, as with `settled`.
    pub settle: bool,
}

/// The positions of a run at which a command looks at the machine. At position `k` the first `k` instructions have been carried out.
#[derive(Clone, Copy, PartialEq, Eq)]
pub enum Looks {
    /// At those that are settled, where no timer is due and no pool has a move, and at the last one.
    Settled,
    /// At each of them.
    Every,
    /// At this one alone.
    At(u64),
    /// At the settled ones, and at the last one, where it is this tick.
    Time(u64),
}
