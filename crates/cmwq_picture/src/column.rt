//! What is kept of a tick: what each work does, and who burns.
ghost use Rattle.cmwq_picture.specs.Column.{burner_in, cell_shown};
ghost use Rattle.cmwq_picture.specs.Picture.{act_cell, lasting_cell, stands_in};
ghost use Rattle.cmwq_types.specs.Setting.{IsSetting};
ghost use Rattle.std.specs.Prelude.{◌≡◌, slice_index_or};

use crate::cell::Cell;
use crate::row::Title;
use cmwq_types::{RESCUER, Scenario, WorkId};
use std::marker::Model;

/// A work that burns, and where.
#[derive(Clone, Copy, PartialEq, Eq)]
pub(crate) struct Burning {
    pub(crate) work: WorkId,
    pub(crate) pool: u8,
    pub(crate) worker: u8,
}

impl Burning {
    /// Whether it burns on the CPU, the worker or the rescuer of the row.
    fn stands_in(self, scenario: &Scenario, title: Title) -> bool
        requires { IsSetting scenario.now }
        ensures { result ≡ stands_in scenario.now title self.work.0 self.pool self.worker }
    {
        match title {
            Title::Cpu(cpu) => !scenario.is_unbound(self.pool) && self.pool / 2 == cpu,
            Title::Worker { pool, worker } => self.pool == pool && self.worker == worker,
            Title::Rescuer(queue) => {
                scenario.is_unbound(self.pool)
                    && self.worker == RESCUER
                    && scenario.queue_of(self.work.0 as usize) == queue.0
            }
            _ => false,
        }
    }
}

/// What is kept of a tick.
#[derive(Drop)]
pub(crate) struct Column {
    /// What each work does, by number: its run, or where it is pending if it doesn't run.
    pub(crate) works: Vec<Cell>,
    /// Where each work is pending that runs.
    pub(crate) pending: Vec<Cell>,
    /// Who burns, by number.
    pub(crate) burners: Vec<Burning>,
    /// Whether there is a freeze.
    pub(crate) frozen: bool,
    /// Whether there is memory pressure.
    pub(crate) pressed: bool,
    /// Whether the actor did something at its time.
    pub(crate) acted: bool,
}

impl Model for Column {
    ghost use Rattle.cmwq_picture.specs.Column.{ColumnContents};

    ghost Value = { ColumnContents };

    ghost view = { λ column. record {
      works = column.works.items;
      pending = column.pending.items;
      burners = column.burners.items;
      frozen = column.frozen;
      pressed = column.pressed;
      acted = column.acted;
    } };
}

impl Column {
    /// The column's cell in the row.
    pub(crate) fn cell(&self, scenario: &Scenario, title: Title) -> Cell
        requires { IsSetting scenario.now }
        ensures { result ≡ cell_shown scenario.now title self.now }
    {
        match title {
            Title::Work(w) => cell_of(&self.works, w),
            Title::Pending(w) => cell_of(&self.pending, w),
            Title::Cpu(_) | Title::Worker { .. } | Title::Rescuer(_) => {
                burner_in(scenario, title, &self.burners)
            }
            Title::Frozen => lasting_cell(self.frozen),
            Title::Pressed => lasting_cell(self.pressed),
            Title::Actor => act_cell(self.acted),
        }
    }
}

/// The cell of the work, from those of all works.
fn cell_of(cells: &[Cell], w: WorkId) -> Cell
    ensures { result ≡ slice_index_or cells.now w.0 Cell.Empty }
{
    cells.get(w.0 as usize).copied().unwrap_or(Cell::Empty)
}

/// The first of these works that burns on the CPU, the worker or the rescuer of the row.
fn burner_in(scenario: &Scenario, title: Title, burners: &[Burning]) -> Cell
    requires { IsSetting scenario.now }
    ensures { result ≡ burner_in scenario.now title burners.now }
{
    for burning in burners {
        if burning.stands_in(scenario, title) {
            return Cell::Burner(burning.work);
        }
    }
    Cell::Empty
}

fn act_cell(acted: bool) -> Cell
    ensures { result ≡ act_cell acted }
{
    if acted { Cell::Acts } else { Cell::Empty }
}

fn lasting_cell(lasts: bool) -> Cell
    ensures { result ≡ lasting_cell lasts }
{
    if lasts { Cell::Lasts } else { Cell::Empty }
}
