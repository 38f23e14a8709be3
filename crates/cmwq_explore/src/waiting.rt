//! Machines of states whose choices are still to be tried.
ghost use Rattle.cmwq_explore.specs.Waiting.{IsKept, begins_at, ReadyContents};
ghost use Rattle.std.specs.Prelude.{◌≡◌, ◌∷◌, [], MatchOption, OnOk};

use crate::standing::Standing;
use cmwq_table::Machine;
use cmwq_types::NoMemory;
use std::alloc::Global;
use std::collections::VecDeque;
use std::marker::Model;

/// So many machines are kept at most.
const MAX_WAITING: usize = 256;

/// A state that was seen, with its machine.
#[derive(Drop)]
struct Ready<M: Machine> {
    place: usize,
    standing: Standing<M>,
}

impl<M: Machine> Model for Ready<M> {
    ghost use Rattle.cmwq_explore.specs.Waiting.{ReadyContents};

    ghost Value = { ReadyContents };

    ghost view = { λ r. record { place = r.place; stood = r.standing } };
}

/// Some of the states whose choices are still to be tried, in the order in which they were seen, with their machines: these need not be
/// brought about again. They are few, so that they take little memory: all where an order is long, since few states lie equally deep then.
#[derive(Drop)]
pub(crate) struct Waiting<M: Machine> {
    machines: VecDeque<Ready<M>>,
}

impl<M: Machine> Model for Waiting<M> {
    ghost use Rattle.cmwq_explore.specs.Waiting.{ReadyContents};
    ghost use Rattle.std.specs.Prelude.{List};

    ghost Value = { List ReadyContents };

    ghost view = { λ w. w.machines.items };
}

impl<M: Machine> Waiting<M> {
    /// None waits.
    pub(crate) fn new(alloc: Global) -> Waiting<M>
        ensures { result ≡ [] }
    {
        Waiting {
            machines: VecDeque::new(alloc),
        }
    }

    /// Takes out the first, if that is the state at this place.
    pub(crate) fn take(&mut self, place: usize) -> Option<Standing<M>>
        ensures { MatchOption result (self.new ≡ self.old) (λ s. self.old ≡ record { place = place; stood = s } ∷ self.new) }
    {
        if !self.begins_at(place) {
            return None;
        }
        match self.machines.pop_front() {
            Some(ready) => Some(ready.standing),
            None => None,
        }
    }

    /// Whether the first is the state at this place.
    fn begins_at(&self, place: usize) -> bool
        ensures { result ≡ begins_at self.now place }
    {
        match self.machines.front() {
            Some(ready) => ready.place == place,
            None => false,
        }
    }

    /// Puts the state at this place last, if there is room. The only error is want of memory.
    pub(crate) fn keep(&mut self, place: usize, standing: Standing<M>) -> Result<(), NoMemory>
        ensures { OnOk result (IsKept self.old self.new (record { place = place; stood = standing })) }
    {
        if self.machines.len() < MAX_WAITING {
            self.machines.push_back(Ready { place, standing })?;
        }
        Ok(())
    }
}
