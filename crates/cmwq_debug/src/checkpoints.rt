//! Checkpoints: copies of the machine along the list of instructions, from which it goes on when it is to go back.
ghost use Rattle.cmwq_debug.specs.Checkpoints.{AreRising, Comes, HoldsAtMost, is_due, is_held, nearest, no_checkpoints, positions_of, spread_of, thinned, with_position, with_room};
ghost use Rattle.cmwq_types.specs.declared.limits.TheConstants.{MAX_HISTORY};
ghost use Rattle.std.specs.List.{All, Contains};
ghost use Rattle.std.specs.Prelude.{◌≡◌, ◌<◌, ◌≤◌, [], false, IfSome, OnErr, OnOk, drop, length, option_map, take, true};

use cmwq_table::Machine;
use cmwq_types::NoMemory;
use std::alloc::Global;
use std::marker::Model;

/// The most checkpoints at once.
pub const MAX_CHECKPOINTS: usize = 256;

/// How far apart checkpoints are at first, in instructions.
pub const FIRST_SPACING: u32 = 64;

/// A copy of a debugger's machine, made when it came to a position.
#[derive(Drop)]
pub struct Checkpoint<M: Machine> {
    /// The position: how many instructions of the list had been carried out.
    pub at: u32,
    /// The machine as it was there.
    pub machine: M,
}

/// The checkpoints of a debugger, by position.
///
/// They stand at multiples of a spacing, which is [`FIRST_SPACING`] until there would be more than [`MAX_CHECKPOINTS`]: then those at
/// its odd multiples are dropped, and it is doubled.
#[derive(Drop)]
pub(crate) struct Checkpoints<M: Machine> {
    held: Vec<Checkpoint<M>>,
    spacing: u32,
}

impl<M: Machine> Model for Checkpoints<M> {
    ghost use Rattle.cmwq_debug.specs.Checkpoints.{AreSpread, Held, held_of};

    ghost Value = { Held M };

    ghost view = { λ c. held_of c.held.items c.spacing };

    ghost invariant = { λ c. AreSpread c.held.items c.spacing };
}

impl<M: Machine> Checkpoints<M> {
    /// None yet.
    pub(crate) fn new(alloc: Global) -> Checkpoints<M>
        ensures none { result.checkpoints ≡ [] }
        ensures spread { spread_of result ≡ no_checkpoints }
    {
        Checkpoints {
            held: Vec::new(alloc),
            spacing: FIRST_SPACING,
        }
    }

    /// The checkpoints, by position.
    pub(crate) fn held(&self) -> &[Checkpoint<M>]
        ensures checkpoints { result.now ≡ self.now.checkpoints }
        ensures rising { AreRising result.now }
        ensures few { length result.now ≤ MAX_CHECKPOINTS }
        ensures some { All (λ c. 0 < c.at) result.now }
    {
        &self.held
    }

    /// The checkpoint at the greatest position that isn't above this one.
    pub(crate) fn nearest(&self, position: u32) -> Option<&Checkpoint<M>>
        ensures nearest { option_map (λ c. c.now.at) result ≡ nearest (positions_of self.now.checkpoints) position }
        ensures below { IfSome result (λ c. c.now.at ≤ position) }
        ensures held { IfSome result (λ c. Contains self.now.checkpoints c.now) }
    {
        match self.count_up_to(position) {
            0 => None,
            count => Some(&self.held[count - 1]),
        }
    }

    /// A machine came to this position, going forward: it is copied, if a checkpoint may stand there and there is none. One for which there
    /// is no memory is left out.
    #[inline(always)]
    pub(crate) fn enter(&mut self, machine: &M, position: u32)
        requires some { 0 < position }
        requires short { position ≤ MAX_HISTORY }
        ensures comes { Comes (spread_of self.old) position (spread_of self.new) }
        ensures copies { HoldsAtMost M.loaded M.state self.old.checkpoints machine.now position self.new.checkpoints }
    {
        if self.is_due(position) {
            self.enter_due(machine, position);
        }
    }

    /// The same where a checkpoint may stand.
    #[inline(never)]
    fn enter_due(&mut self, machine: &M, position: u32)
        requires due { is_due self.old.spacing position ≡ true }
        requires some { 0 < position }
        requires short { position ≤ MAX_HISTORY }
        ensures comes { Comes (spread_of self.old) position (spread_of self.new) }
        ensures copies { HoldsAtMost M.loaded M.state self.old.checkpoints machine.now position self.new.checkpoints }
    {
        if self.is_held(position) {
            return;
        }
        self.make_room();
        if self.is_due(position) {
            let _ = self.add(machine, position);
        }
    }

    /// Whether a checkpoint may stand at the position.
    fn is_due(&self, position: u32) -> bool
        ensures { result ≡ is_due self.now.spacing position }
    {
        position % self.spacing == 0
    }

    /// Whether there is a checkpoint at the position.
    fn is_held(&self, position: u32) -> bool
        ensures { result ≡ is_held (positions_of self.now.checkpoints) position }
    {
        let count = self.count_up_to(position);
        count > 0 && self.held[count - 1].at == position
    }

    /// Copies the machine at a position where there is no checkpoint yet. For want of memory nothing changes.
    fn add(&mut self, machine: &M, position: u32) -> Result<(), NoMemory>
        requires missing { is_held (positions_of self.old.checkpoints) position ≡ false }
        requires due { is_due self.old.spacing position ≡ true }
        requires room { length self.old.checkpoints < MAX_CHECKPOINTS }
        requires some { 0 < position }
        requires short { position ≤ MAX_HISTORY }
        ensures ok { OnOk result (spread_of self.new ≡ with_position (spread_of self.old) position) }
        ensures err { OnErr result (self.new ≡ self.old) }
        ensures copies { HoldsAtMost M.loaded M.state self.old.checkpoints machine.now position self.new.checkpoints }
    {
        let place = self.count_up_to(position);
        let machine = machine.copy()?;
        let at = position;
        self.held.insert(place, Checkpoint { at, machine })?;
        Ok(())
    }

    /// Drops checkpoints until there is room for one more.
    fn make_room(&mut self)
        ensures spread { spread_of self.new ≡ with_room (spread_of self.old) }
        ensures room { length self.new.checkpoints < MAX_CHECKPOINTS }
        ensures kept { All (Contains self.old.checkpoints) self.new.checkpoints }
    {
        while self.held.len() == MAX_CHECKPOINTS {
            self.thin();
        }
    }

    /// Drops those at odd multiples of the spacing, and doubles it.
    fn thin(&mut self)
        requires full { length self.old.checkpoints ≡ MAX_CHECKPOINTS }
        ensures thinned { spread_of self.new ≡ thinned (spread_of self.old) }
        ensures kept { All (Contains self.old.checkpoints) self.new.checkpoints }
    {
        let Checkpoints { held, spacing } = self;
        let doubled = 2 * *spacing;
        held.retain(|checkpoint| checkpoint.at % doubled == 0);
        *spacing = doubled;
    }

    /// How many checkpoints are at positions that aren't above this one.
    fn count_up_to(&self, position: u32) -> usize
        ensures within { result ≤ length self.now.checkpoints }
        ensures up_to { All (λ c. c.at ≤ position) (take result self.now.checkpoints) }
        ensures above { All (λ c. position < c.at) (drop result self.now.checkpoints) }
    {
        self.held
            .partition_point(|checkpoint| checkpoint.at <= position)
    }
}
