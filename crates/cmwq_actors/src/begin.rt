//! When the actors begin.
ghost use Rattle.std.specs.Prelude.{◌≡◌};

/// Shows that each actor has its thread. Nothing else makes one, and no actor plays without it.
#[derive(Drop)]
pub(crate) struct AllStarted(());

impl AllStarted {
    /// Once as many threads were started as there are actors.
    pub(crate) fn of(_started: usize, _actors: usize) -> AllStarted
        requires all { _started ≡ _actors }
    {
        AllStarted(())
    }
}
