//! What a column keeps of a machine at one moment.
ghost use Rattle.cmwq_picture.specs.Picture.{below, mode_sign, pending_cell, place_sign};
ghost use Rattle.cmwq_table.specs.Counts.{first_runnable};
ghost use Rattle.cmwq_types.specs.Scenario.{pool_count};
ghost use Rattle.std.specs.Prelude.{◌≡◌, IfOk, map};

use crate::arming::{Arming, armer, marked};
use crate::cell::{Cell, Sign};
use crate::column::{Burning, Column};
use cmwq_reads::{Sought, first};
use cmwq_table::{Pending, Reads, Running};
use cmwq_types::{Mode, NoMemory, Place, WorkId};
use std::alloc::Global;
use std::marker::Model;

/// A machine at one moment, and the first runnable work of each of its pools.
#[derive(Drop)]
pub(crate) struct Moment<'a, R: Reads> {
    machine: &'a R,
    heads: Vec<Option<usize>>,
}

impl<'a, R: Reads> Model for Moment<'a, R> {
    ghost use Rattle.cmwq_picture.specs.Picture.{below};
    ghost use Rattle.cmwq_table.specs.Counts.{first_runnable};
    ghost use Rattle.cmwq_table.specs.Ready.{Loaded, holding};
    ghost use Rattle.cmwq_types.specs.Scenario.{pool_count};
    ghost use Rattle.std.specs.Prelude.{◌≡◌, map};

    ghost Value = { Loaded };

    ghost view = { λ m. holding (R.loaded m.machine.now) (R.state m.machine.now) };

    ghost invariant = { λ m. m.heads.items ≡ map (first_runnable (R.loaded m.machine.now) (R.state m.machine.now)) (below (pool_count (R.loaded m.machine.now))) };
}

impl<'a, R: Reads> Moment<'a, R> {
    ghost use Rattle.cmwq_picture.specs.Column.{burning, column_of};
    ghost use Rattle.cmwq_picture.specs.Picture.{below, deeds_of, pending_shown, pending_sign, run_sign, work_shown, work_sign};
    ghost use Rattle.cmwq_table.specs.Counts.{burns, first_runnable};
    ghost use Rattle.cmwq_table.specs.Ready.{holding};
    ghost use Rattle.cmwq_types.specs.Scenario.{pool_count};
    ghost use Rattle.cmwq_types.specs.declared.limits.TheConstants.{MAX_WORKS};
    ghost use Rattle.std.specs.List.{cons_option, filter_map};
    ghost use Rattle.std.specs.Prelude.{◌<◌, ◌≤◌, ◌++◌, [], OnOk, Some, length, map};

    /// The moment at which the machine is.
    pub(crate) fn new(alloc: Global, machine: &'a R) -> Result<Moment<'a, R>, NoMemory>
        ensures { IfOk result (λ moment. moment ≡ holding (R.loaded machine.now) (R.state machine.now)) }
    {
        let heads = heads(alloc, machine)?;
        Ok(Moment { machine, heads })
    }

    /// What is kept of a tick that begins then, in which the actor did something or not, and bodies set these timers.
    pub(crate) fn column(
        &self,
        alloc: Global,
        acted: bool,
        armed: &[Arming],
    ) -> Result<Column, NoMemory>
        ensures { IfOk result (λ column. column ≡ column_of self.now.scenario self.now.state (deeds_of acted armed.now)) }
    {
        Ok(Column {
            works: self.works(alloc, armed)?,
            pending: self.pending_works(alloc, armed)?,
            burners: self.burners(alloc)?,
            frozen: self.machine.is_frozen(),
            pressed: self.machine.is_pressed(),
            acted,
        })
    }

    /// What each work does.
    fn works(&self, alloc: Global, armed: &[Arming]) -> Result<Vec<Cell>, NoMemory>
        ensures { IfOk result (λ cells. cells.items ≡ map (work_shown self.now.scenario armed.now self.now.state) (below (length self.now.scenario.works))) }
    {
        let mut cells = Vec::new(alloc);
        for w in 0..self.work_count() {
            cells.push(self.work_shown(w, armed))?;
        }
        Ok(cells)
    }

    /// Where each work is pending that runs.
    fn pending_works(&self, alloc: Global, armed: &[Arming]) -> Result<Vec<Cell>, NoMemory>
        ensures { IfOk result (λ cells. cells.items ≡ map (pending_shown armed.now self.now.state) (below (length self.now.scenario.works))) }
    {
        let mut cells = Vec::new(alloc);
        for w in 0..self.work_count() {
            cells.push(self.pending_shown(w, armed))?;
        }
        Ok(cells)
    }

    /// Who burns, by number.
    fn burners(&self, alloc: Global) -> Result<Vec<Burning>, NoMemory>
        ensures { IfOk result (λ burners. burners.items ≡ filter_map (burning self.now.scenario self.now.state) (below (length self.now.scenario.works))) }
    {
        let mut burners = Vec::new(alloc);
        for w in 0..self.work_count() {
            self.push_burner(&mut burners, w)?;
        }
        Ok(burners)
    }

    /// Pushes the work, if it burns.
    fn push_burner(&self, burners: &mut Vec<Burning>, w: usize) -> Result<(), NoMemory>
        requires { w < MAX_WORKS }
        ensures { OnOk result (burners.new.items ≡ burners.old.items ++ cons_option (burning self.now.scenario self.now.state w) []) }
    {
        if let Some(burning) = self.burning(w) {
            burners.push(burning)?;
        }
        Ok(())
    }

    fn work_count(&self) -> usize
        ensures count { result ≡ length self.now.scenario.works }
        ensures few { result ≤ MAX_WORKS }
    {
        self.machine.scenario().works.len()
    }

    /// What the work's row shows, where bodies set these timers in the tick.
    fn work_shown(&self, w: usize, armed: &[Arming]) -> Cell
        ensures { result ≡ work_shown self.now.scenario armed.now self.now.state w }
    {
        let by = armer(armed, w, self.machine.pending_of(w));
        marked(by, self.work_sign(w))
    }

    /// What its second row shows, where bodies set these timers in the tick.
    fn pending_shown(&self, w: usize, armed: &[Arming]) -> Cell
        ensures { result ≡ pending_shown armed.now self.now.state w }
    {
        let by = armer(armed, w, self.machine.pending_of(w));
        marked(by, self.pending_sign(w))
    }

    /// What the work does: its run, or where it is pending if it doesn't run.
    fn work_sign(&self, w: usize) -> Cell
        ensures { result ≡ work_sign self.now.scenario self.now.state w }
    {
        match self.machine.running_of(w) {
            Some(r) => Cell::Does(self.run_sign(w, r)),
            None => pending_cell(self.machine.pending_of(w)),
        }
    }

    /// Where the work is pending, if it runs too.
    fn pending_sign(&self, w: usize) -> Cell
        ensures { result ≡ pending_sign self.now.state w }
    {
        match self.machine.running_of(w) {
            Some(_) => pending_cell(self.machine.pending_of(w)),
            None => Cell::Empty,
        }
    }

    fn run_sign(&self, w: usize, r: Running) -> Sign
        ensures { result ≡ run_sign self.now.scenario self.now.state w r }
    {
        if self.burns(w, r) {
            Sign::Burns
        } else {
            mode_sign(r.mode)
        }
    }

    /// Where the work burns, if it does.
    fn burning(&self, w: usize) -> Option<Burning>
        requires { w < MAX_WORKS }
        ensures { result ≡ burning self.now.scenario self.now.state w }
    {
        match self.machine.running_of(w) {
            Some(r) if self.burns(w, r) => Some(Burning {
                work: WorkId(w as u16),
                pool: r.pool,
                worker: r.worker,
            }),
            _ => None,
        }
    }

    /// Whether the work, which runs so, burns: in an unbound pool where it is runnable, else as its pool's first
    /// runnable work, in a normal pool only where its CPU's high pool has none.
    fn burns(&self, w: usize, r: Running) -> bool
        ensures { result ≡ burns self.now.scenario self.now.state w (Some r) }
    {
        if self.machine.scenario().is_unbound(r.pool) {
            return r.mode.is_runnable();
        }
        self.head(r.pool) == Some(w) && (r.pool % 2 == 1 || self.head(r.pool + 1).is_none())
    }

    /// The first runnable work of the pool.
    fn head(&self, pool: u8) -> Option<usize>
        requires { pool < pool_count self.now.scenario }
        ensures { result ≡ first_runnable self.now.scenario self.now.state pool }
    {
        self.heads.get(pool as usize).copied().unwrap_or(None)
    }
}

/// The first runnable work of each of the machine's pools.
fn heads<R: Reads>(alloc: Global, machine: &R) -> Result<Vec<Option<usize>>, NoMemory>
    ensures { IfOk result (λ heads. heads.items ≡ map (first_runnable (R.loaded machine.now) (R.state machine.now)) (below (pool_count (R.loaded machine.now)))) }
{
    let mut heads = Vec::new(alloc);
    for pool in 0..machine.scenario().pool_count() {
        heads.push(first(machine, Sought::Runnable { pool }))?;
    }
    Ok(heads)
}

fn pending_cell(pending: Option<Pending>) -> Cell
    ensures { result ≡ pending_cell pending }
{
    match pending {
        Some(p) => Cell::Does(place_sign(p.place)),
        None => Cell::Empty,
    }
}

fn place_sign(place: Place) -> Sign
    ensures { result ≡ place_sign place }
{
    match place {
        Place::Timer { .. } => Sign::Timed,
        Place::Inactive(_) => Sign::Inactive,
        Place::Listed(_) => Sign::Listed,
        Place::Deferred(_) => Sign::Deferred,
    }
}

fn mode_sign(mode: Mode) -> Sign
    ensures { result ≡ mode_sign mode }
{
    match mode {
        Mode::Runnable => Sign::Waits,
        Mode::Asleep(_) => Sign::Sleeps,
    }
}
