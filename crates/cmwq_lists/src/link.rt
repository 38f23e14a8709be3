//! A link to a work or to a list.
ghost use Rattle.cmwq_lists.specs.declared.link.TheConstants.{NOWHERE};
ghost use Rattle.std.specs.Prelude.{◌≡◌, ◌<◌, None, Some};

use std::marker::Model;

/// Leads to a work or to a list, by its number, or nowhere. It is an `Option<u16>` in half of the room, and is read and
/// written at once.
#[derive(Clone, Copy)]
pub(crate) struct Link {
    number: u16,
}

/// The number that leads nowhere. There are fewer works and lists than that.
pub(crate) const NOWHERE: u16 = u16::MAX;

impl Model for Link {
    ghost use Rattle.std.specs.Prelude.{Option, ℕ};

    ghost Value = { Option ℕ };

    ghost use Rattle.cmwq_lists.specs.Link.{stored, stored_again, target};

    ghost view = { λ link. target link.number };

    ghost inverse = { stored };

    ghost inverse_ok = { λ a h. stored_again a };
}

impl Link {
    /// One that leads nowhere.
    pub(crate) fn nowhere() -> Link
        ensures { result ≡ None }
    {
        Link { number: NOWHERE }
    }

    /// One that leads to this number.
    pub(crate) fn to(number: u16) -> Link
        requires number { number < NOWHERE }
        ensures { result ≡ Some number }
    {
        Link { number }
    }

    /// The number to which it leads.
    #[inline(always)]
    pub(crate) fn target(self) -> Option<usize>
        ensures { result ≡ self }
    {
        if self.number == NOWHERE {
            return None;
        }
        Some(usize::from(self.number))
    }
}
