//! A machine that is dumped.

use cmwq_table::Reads;
use std::alloc::Global;
use std::marker::Model;

/// A machine that is dumped, and what the texts are allocated with. In the contracts it is the scenario and the state.
#[derive(Drop)]
pub(crate) struct Dumping<'a, R: Reads> {
    pub(crate) alloc: Global,
    pub(crate) machine: &'a R,
}

impl<'a, R: Reads> Model for Dumping<'a, R> {
    ghost use Rattle.cmwq_table.specs.Ready.{Loaded, holding};

    ghost Value = { Loaded };

    ghost view = { λ d. holding (R.loaded d.machine.now) (R.state d.machine.now) };
}
