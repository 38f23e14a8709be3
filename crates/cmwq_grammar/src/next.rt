//! What a further line of a text may be.

/// What a further line may be behind the lines of a text that can still become a scenario's. The words that such a line begins with
/// stand in `words_of_next` of the specs.
#[derive(Clone, Copy, PartialEq, Eq)]
pub enum Next {
    /// The first of the four numbers at the head.
    Cpus,
    /// The second.
    Workers,
    /// The third.
    Steps,
    /// The fourth.
    Flushes,
    /// A queue where there is room for one, a work where there is a queue, or an actor.
    Declaration {
        room: bool,
        queues: bool,
    },
    /// A work where there is room for one, or the first body.
    Work {
        room: bool,
    },
    /// The next body.
    Body,
    /// The first actor.
    Actor,
    /// An operation where there is room for one before `finish`, or `finish`.
    Operation {
        room: bool,
    },
    /// An instruction where the actor has room for one and there is a work or a queue for those that name one; or a further actor.
    Instruction {
        room: bool,
        works: bool,
        queues: bool,
        actor: bool,
    },
}
