//! What is asked of all orders.

/// How many states are looked at, at most, whatever is asked for.
pub const MAX_STATES: u32 = 1_000_000;

/// How many states are looked at, at most, where nothing else is asked for.
pub const USUAL_STATES: u32 = 100_000;

/// What is asked of all orders of a scenario's actors.
#[derive(PartialEq, Eq, Drop)]
pub struct Exploration<'a> {
    /// What no order may come to.
    pub never: Never<'a>,
    /// Who begins only when somebody else has ended.
    pub before: Vec<Precedence<'a>>,
    /// How many states are looked at, at most: 1 to [`MAX_STATES`].
    pub limit: u32,
}

/// What no order may come to.
#[derive(Clone, Copy, PartialEq, Eq)]
pub enum Never<'a> {
    /// The actor has ended, and the work is pending or runs.
    After {
        /// The actor's name.
        actor: &'a str,
        /// The work's name.
        work: &'a str,
    },
    /// The work of this name runs.
    Runs(&'a str),
    /// The works of these two names run at once.
    Together(&'a str, &'a str),
    /// Some actor hasn't ended, and nothing can go on.
    Stuck,
}

/// One actor begins only when another one has ended.
#[derive(Clone, Copy, PartialEq, Eq)]
pub struct Precedence<'a> {
    /// Who has to end.
    pub first: &'a str,
    /// Who begins then.
    pub then: &'a str,
}
