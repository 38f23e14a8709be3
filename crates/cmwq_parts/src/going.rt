//! A machine amid an instruction.

use crate::parts::Parts;
use std::marker::Model;

/// A machine amid an instruction. In the contracts it is its scenario and its state.
///
/// What its methods ask of the counters goes by powers of two, so that what they call can be called: a single
/// change wants stamps below 2^63, a fill below 2^62, a fill of each pool below 2^61, and an instruction below
/// 2^60. No run comes near that.
#[derive(Drop)]
pub struct Going<P: Parts> {
    /// The machine's own structure.
    pub parts: P,
}

impl<P: Parts> Model for Going<P> {
    ghost use Rattle.cmwq_table.specs.Ready.{Loaded, holding};

    ghost Value = { Loaded };

    ghost view = { λ m. holding (P.loaded m.parts) (P.state m.parts) };
}
