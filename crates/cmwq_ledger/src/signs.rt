//! What instances do at one moment.
ghost use Rattle.cmwq_picture.specs.Picture.{mode_sign, place_sign};
ghost use Rattle.std.specs.Prelude.{◌≡◌};

use cmwq_picture::Sign;
use cmwq_table::{Pending, Reads, Running};
use cmwq_types::{Mode, Place, Scenario};
use std::marker::Model;

/// A machine at one moment, and the first runnable work of each of its pools.
#[derive(Drop)]
pub(crate) struct Signs<'a, R: Reads> {
    pub(crate) machine: &'a R,
    pub(crate) heads: &'a [Option<usize>],
}

impl<'a, R: Reads> Model for Signs<'a, R> {
    ghost use Rattle.cmwq_ledger.specs.Heads.{HasHeads};
    ghost use Rattle.cmwq_table.specs.Ready.{Loaded, holding};

    ghost Value = { Loaded };

    ghost view = { λ signs. holding (R.loaded signs.machine.now) (R.state signs.machine.now) };

    ghost invariant = { λ signs. HasHeads (R.loaded signs.machine.now) (R.state signs.machine.now) signs.heads.now };
}

impl<'a, R: Reads> Signs<'a, R> {
    ghost use Rattle.cmwq_picture.specs.Picture.{run_sign};
    ghost use Rattle.cmwq_ledger.specs.Totals.{is_idle_cpu};
    ghost use Rattle.cmwq_table.specs.Counts.{burns, first_runnable};
    ghost use Rattle.cmwq_table.specs.State.{pending_at, running_at};
    ghost use Rattle.cmwq_types.specs.Scenario.{pool_count};
    ghost use Rattle.cmwq_types.specs.Setting.{IsSetting};
    ghost use Rattle.std.specs.Prelude.{◌<◌, Some};

    /// The machine's scenario.
    pub(crate) fn scenario(&self) -> &Scenario
        ensures scenario { result.now ≡ self.now.scenario }
        ensures setting { IsSetting self.now.scenario }
    {
        self.machine.scenario()
    }

    /// The pending instance of the work, if it has one.
    pub(crate) fn pending_of(&self, w: usize) -> Option<Pending>
        ensures { result ≡ pending_at self.now.state w }
    {
        self.machine.pending_of(w)
    }

    /// The running instance of the work, if it has one.
    pub(crate) fn running_of(&self, w: usize) -> Option<Running>
        ensures { result ≡ running_at self.now.state w }
    {
        self.machine.running_of(w)
    }

    /// What the work does that runs so.
    pub(crate) fn run_sign(&self, w: usize, r: Running) -> Sign
        ensures { result ≡ run_sign self.now.scenario self.now.state w r }
    {
        if self.burns(w, r) {
            Sign::Burns
        } else {
            mode_sign(r.mode)
        }
    }

    /// Whether the work, which runs so, burns: in an unbound pool where it is runnable, else as its pool's first runnable work, in a
    /// normal pool only where its CPU's high pool has none.
    pub(crate) fn burns(&self, w: usize, r: Running) -> bool
        ensures { result ≡ burns self.now.scenario self.now.state w (Some r) }
    {
        if self.machine.scenario().is_unbound(r.pool) {
            return r.mode.is_runnable();
        }
        self.head(r.pool) == Some(w) && (r.pool % 2 == 1 || self.head(r.pool + 1).is_none())
    }

    /// Whether neither pool of the CPU has a runnable work.
    pub(crate) fn is_idle_cpu(&self, cpu: u8) -> bool
        requires { cpu < self.now.scenario.cpus }
        ensures { result ≡ is_idle_cpu self.now.scenario self.now.state cpu }
    {
        let _scenario = self.machine.scenario();
        self.head(2 * cpu).is_none() && self.head(2 * cpu + 1).is_none()
    }

    /// The first runnable work of the pool.
    fn head(&self, pool: u8) -> Option<usize>
        requires { pool < pool_count self.now.scenario }
        ensures { result ≡ first_runnable self.now.scenario self.now.state pool }
    {
        self.heads.get(pool as usize).copied().unwrap_or(None)
    }
}

/// What an instance does while it is pending there.
pub(crate) fn place_sign(place: Place) -> Sign
    ensures { result ≡ place_sign place }
{
    match place {
        Place::Timer { .. } => Sign::Timed,
        Place::Inactive(_) => Sign::Inactive,
        Place::Listed(_) => Sign::Listed,
        Place::Deferred(_) => Sign::Deferred,
    }
}

fn mode_sign(mode: Mode) -> Sign
    ensures { result ≡ mode_sign mode }
{
    match mode {
        Mode::Runnable => Sign::Waits,
        Mode::Asleep(_) => Sign::Sleeps,
    }
}
