//! How actors end.
ghost use Rattle.std.specs.Prelude.{◌≡◌};
ghost use Rattle.std.specs.List.{list_any};
ghost use Rattle.cmwq_actors.specs.Ending.{is_exhausted, is_full, stopped_by};

use cmwq_engine::IssueError;

/// How an actor ended, or all of them.
#[derive(Clone, Copy, PartialEq, Eq)]
pub enum Ending {
    /// All its instructions were issued.
    Done,
    /// The history has no room for the next one.
    Full,
    /// No ticket is left for the next one.
    Exhausted,
}

impl From<IssueError> for Ending {
    ghost from_gives = { λ why ending. ending ≡ stopped_by why };

    fn from(why: IssueError) -> Ending {
        match why {
            IssueError::Full => Ending::Full,
            IssueError::Exhausted => Ending::Exhausted,
        }
    }
}

/// Whether an ending is `Exhausted`.
pub(crate) fn any_exhausted(endings: &[Ending]) -> bool
    ensures { result ≡ list_any is_exhausted endings.now }
{
    endings.iter().any(|ending| means_exhausted(*ending))
}

/// Whether an ending is `Full`.
pub(crate) fn any_full(endings: &[Ending]) -> bool
    ensures { result ≡ list_any is_full endings.now }
{
    endings.iter().any(|ending| means_full(*ending))
}

fn means_exhausted(ending: Ending) -> bool
    ensures { result ≡ is_exhausted ending }
{
    match ending {
        Ending::Exhausted => true,
        Ending::Done | Ending::Full => false,
    }
}

fn means_full(ending: Ending) -> bool
    ensures { result ≡ is_full ending }
{
    match ending {
        Ending::Full => true,
        Ending::Done | Ending::Exhausted => false,
    }
}
