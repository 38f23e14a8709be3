//! Records of a machine at rest: nothing is pending, and nothing runs.
ghost use Rattle.cmwq_plain.specs.Rest.{is_at_rest};
ghost use Rattle.std.specs.List.{list_all};
ghost use Rattle.std.specs.Prelude.{◌≡◌, is_none};

use crate::records::Records;

impl Records {
    /// Whether nothing is pending, and nothing runs.
    pub(crate) fn is_at_rest(&self) -> bool
        ensures { result ≡ is_at_rest self.now.state }
    {
        are_none(&self.pending) && are_none(&self.running)
    }
}

/// Whether there is no entry.
pub(crate) fn are_none<T: Copy>(entries: &[Option<T>]) -> bool
    ensures { result ≡ list_all is_none entries.now }
{
    entries.iter().all(|entry| entry.is_none())
}
