//! Who has the CPUs of a machine at one moment.
ghost use Rattle.cmwq_slices.specs.Heads.{heads_below, with_head};
ghost use Rattle.cmwq_types.specs.First.{first_with};
ghost use Rattle.cmwq_table.specs.Counts.{running_before};
ghost use Rattle.cmwq_table.specs.State.{running_at};
ghost use Rattle.std.specs.Prelude.{◌≡◌, IfOk, Some, length, true};

use crate::doing::{Doing, mode_sign};
use cmwq_picture::Sign;
use cmwq_reads::running_before;
use cmwq_table::{Reads, Running};
use cmwq_types::NoMemory;
use std::alloc::Global;
use std::marker::Model;

/// A machine at one moment, and the first runnable work of each of its pools.
#[derive(Drop)]
pub(crate) struct Heads<'a, R: Reads> {
    machine: &'a R,
    first: Vec<Option<usize>>,
}

impl<'a, R: Reads> Model for Heads<'a, R> {
    ghost use Rattle.cmwq_slices.specs.Heads.{heads_below};
    ghost use Rattle.cmwq_table.specs.Ready.{Loaded, holding};
    ghost use Rattle.std.specs.Prelude.{◌≡◌, length};

    ghost Value = { Loaded };

    ghost view = { λ h. holding (R.loaded h.machine.now) (R.state h.machine.now) };

    ghost invariant = { λ h. h.first.items ≡ heads_below (R.loaded h.machine.now) (R.state h.machine.now) (length (R.loaded h.machine.now).works) };
}

impl<'a, R: Reads> Heads<'a, R> {
    ghost use Rattle.cmwq_picture.specs.Picture.{run_sign};
    ghost use Rattle.cmwq_slices.specs.Slices.{run_doing};
    ghost use Rattle.cmwq_table.specs.Counts.{burns, first_runnable};
    ghost use Rattle.cmwq_table.specs.Ready.{holding};
    ghost use Rattle.cmwq_table.specs.State.{running_at};
    ghost use Rattle.cmwq_types.specs.Scenario.{pool_count};
    ghost use Rattle.std.specs.Prelude.{◌<◌, Some};

    /// The moment at which the machine is.
    pub(crate) fn new(alloc: Global, machine: &'a R) -> Result<Heads<'a, R>, NoMemory>
        ensures { IfOk result (λ heads. heads ≡ holding (R.loaded machine.now) (R.state machine.now)) }
    {
        let first = first_runnable(alloc, machine)?;
        Ok(Heads { machine, first })
    }

    /// What the running instance of the work does, if there is one.
    pub(crate) fn run_doing(&self, w: usize) -> Option<Doing>
        ensures { result ≡ run_doing self.now.scenario self.now.state w (running_at self.now.state w) }
    {
        let r = self.machine.running_of(w)?;
        Some(Doing {
            born: r.born,
            sign: self.run_sign(w, r),
        })
    }

    fn run_sign(&self, w: usize, r: Running) -> Sign
        ensures { result ≡ run_sign self.now.scenario self.now.state w r }
    {
        if self.burns(w, r) {
            Sign::Burns
        } else {
            mode_sign(r.mode)
        }
    }

    /// Whether the work, which runs so, burns: in an unbound pool where it is runnable, else as its pool's first
    /// runnable work, in a normal pool only where its CPU's high pool has none.
    fn burns(&self, w: usize, r: Running) -> bool
        ensures { result ≡ burns self.now.scenario self.now.state w (Some r) }
    {
        if self.machine.scenario().is_unbound(r.pool) {
            return r.mode.is_runnable();
        }
        self.head(r.pool) == Some(w) && (r.pool % 2 == 1 || self.head(r.pool + 1).is_none())
    }

    /// The first runnable work of the pool.
    fn head(&self, pool: u8) -> Option<usize>
        requires { pool < pool_count self.now.scenario }
        ensures { result ≡ first_runnable self.now.scenario self.now.state pool }
    {
        self.first.get(pool as usize).copied().unwrap_or(None)
    }
}

/// The first runnable work of each of the machine's pools.
fn first_runnable<R: Reads>(alloc: Global, machine: &R) -> Result<Vec<Option<usize>>, NoMemory>
    ensures { IfOk result (λ heads. heads.items ≡ heads_below (R.loaded machine.now) (R.state machine.now) (length (R.loaded machine.now).works)) }
{
    let mut heads = vec![in alloc; None; machine.scenario().pool_count() as usize]?;
    for w in 0..machine.scenario().works.len() {
        put_head(machine, w, &mut heads);
    }
    Ok(heads)
}

/// Puts the work among the heads, if it is runnable and comes before the head of its pool.
fn put_head<R: Reads>(machine: &R, w: usize, heads: &mut [Option<usize>])
    ensures { heads.new ≡ with_head (R.state machine.now) w (running_at (R.state machine.now) w) heads.old }
{
    let Some(r) = machine.running_of(w) else {
        return;
    };
    if !r.mode.is_runnable() {
        return;
    }
    let pool = r.pool as usize;
    if pool < heads.len() {
        heads[pool] = Some(sooner(machine, heads[pool], w));
    }
}

/// The work, or the head so far where the work doesn't come before it.
fn sooner<R: Reads>(machine: &R, head: Option<usize>, w: usize) -> usize
    ensures { Some result ≡ first_with (running_before (R.state machine.now)) w true head }
{
    match head {
        Some(v) if !running_before(machine, w, v) => v,
        _ => w,
    }
}
