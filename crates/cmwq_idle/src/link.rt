//! A link to a worker.
ghost use Rattle.cmwq_idle.specs.declared.link.TheConstants.{NOBODY};
ghost use Rattle.std.specs.Prelude.{◌≡◌, ◌<◌, None, Some};

use std::marker::Model;

/// Leads to a worker of a pool, or to nobody. It is an `Option<u8>` in half of the room, and is read and written at once.
#[derive(Clone, Copy)]
pub(crate) struct Link {
    worker: u8,
}

/// The number of no worker.
pub(crate) const NOBODY: u8 = u8::MAX;

impl Model for Link {
    ghost use Rattle.std.specs.Prelude.{Option, ℕ};

    ghost Value = { Option ℕ };

    ghost use Rattle.cmwq_idle.specs.Link.{stored, stored_again, target};

    ghost view = { λ link. target link.worker };

    ghost inverse = { stored };

    ghost inverse_ok = { λ a h. stored_again a };
}

impl Link {
    /// One that leads to nobody.
    pub(crate) fn nobody() -> Link
        ensures { result ≡ None }
    {
        Link { worker: NOBODY }
    }

    /// One that leads to this worker.
    pub(crate) fn to(worker: u8) -> Link
        requires worker { worker < NOBODY }
        ensures { result ≡ Some worker }
    {
        Link { worker }
    }

    /// The worker to which it leads.
    #[inline(always)]
    pub(crate) fn target(self) -> Option<u8>
        ensures { result ≡ self }
    {
        if self.worker == NOBODY {
            return None;
        }
        Some(self.worker)
    }
}
