//! A machine that is watched for being quiet.
ghost use Rattle.cmwq_settle.specs.Quiet.{IsUnquietWithin, SettlesWithin};
ghost use Rattle.cmwq_table.specs.Counts.{is_quiet};
ghost use Rattle.std.specs.Prelude.{◌≡◌, MatchOption};

use cmwq_reads::{first_at_work, is_at_work};
use cmwq_table::Machine;
use cmwq_types::Instr;

/// A machine that is watched for being quiet.
#[derive(Drop)]
pub(crate) struct Watch<M: Drop> {
    pub(crate) machine: M,
    /// The work that was last seen pending or running. It is looked at first: mostly it still is, and then no other has to be.
    pub(crate) witness: usize,
}

impl<M: Machine> Watch<M> {
    /// Issues `next` until the machine is quiet, at most so often, and tells how often that was; `None` where it isn't quiet then.
    pub(crate) fn settle(&mut self, most: u32) -> Option<u32>
        ensures { MatchOption result (IsUnquietWithin (M.loaded self.old.machine) (M.state self.old.machine) most)
            (λ n. SettlesWithin (M.loaded self.old.machine) (M.state self.old.machine) most n) }
    {
        for turn in 0..most {
            if self.is_quiet() {
                return Some(turn);
            }
            let _ = self.machine.exec(Instr::Next);
        }
        if self.is_quiet() { Some(most) } else { None }
    }

    /// Whether the machine is quiet.
    fn is_quiet(&mut self) -> bool
        ensures quiet { result ≡ is_quiet (M.loaded self.old.machine) (M.state self.old.machine) }
        ensures same { self.new.machine ≡ self.old.machine }
    {
        if is_at_work(&self.machine, self.witness) {
            return false;
        }
        match first_at_work(&self.machine) {
            Some(w) => {
                self.witness = w;
                false
            }
            None => true,
        }
    }
}
