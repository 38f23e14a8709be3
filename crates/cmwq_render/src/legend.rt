//! What a legend says of the signs that a picture shows.
ghost use Rattle.cmwq_render.specs.Legend.{explained, is_armed, is_shown, meaning, same_cell, sampled, shows_armed, sign_meaning};
ghost use Rattle.std.specs.List.{filter, list_any};
ghost use Rattle.std.specs.Prelude.{◌≡◌, IfOk};

use cmwq_picture::{Cell, Row, Sign};
use cmwq_types::{NoMemory, WorkId};
use std::alloc::Global;

/// What a legend explains, in its order.
const EXPLICABLE: [Cell; 9] = [
    Cell::Does(Sign::Burns),
    Cell::Does(Sign::Waits),
    Cell::Does(Sign::Sleeps),
    Cell::Does(Sign::Listed),
    Cell::Does(Sign::Inactive),
    Cell::Does(Sign::Timed),
    Cell::Does(Sign::Deferred),
    Cell::Lasts,
    Cell::Acts,
];

/// What the legend of a picture with these rows explains: the signs that occur in it, a freeze or memory pressure, and whether the actor acts. That
/// a name on the row of a CPU or worker is who burns there goes without saying. The only error is want of memory.
pub(crate) fn explained(alloc: Global, rows: &[Row]) -> Result<Vec<Cell>, NoMemory>
    ensures { IfOk result (λ cells. cells.items ≡ explained rows.now) }
{
    Ok(
        EXPLICABLE
            .iter()
            .copied()
            .filter(|cell| is_shown(rows, *cell))
            .collect(alloc)?,
    )
}

/// The same for a legend of samples: for all marks of who set a timer there is one. The only error is want of memory.
pub fn sampled(alloc: Global, rows: &[Row]) -> Result<Vec<Cell>, NoMemory>
    ensures { IfOk result (λ cells. cells.items ≡ sampled rows.now) }
{
    let mut cells = explained(alloc, rows)?;
    if shows_armed(rows) {
        cells.push(Cell::Armed(WorkId(0)))?;
    }
    Ok(cells)
}

/// Whether a row shows who set a timer.
pub(crate) fn shows_armed(rows: &[Row]) -> bool
    ensures { result ≡ shows_armed rows.now }
{
    rows.iter().any(|row| has_armed(&row.cells))
}

fn has_armed(cells: &[Cell]) -> bool
    ensures { result ≡ list_any is_armed cells.now }
{
    cells.iter().any(|cell| is_armed(*cell))
}

fn is_armed(cell: Cell) -> bool
    ensures { result ≡ is_armed cell }
{
    matches!(cell, Cell::Armed(_))
}

/// Whether a row shows the cell somewhere.
fn is_shown(rows: &[Row], cell: Cell) -> bool
    ensures { result ≡ is_shown rows.now cell }
{
    rows.iter().any(|row| shows(&row.cells, cell))
}

/// Whether the cell is among these.
fn shows(cells: &[Cell], cell: Cell) -> bool
    ensures { result ≡ list_any (same_cell cell) cells.now }
{
    cells.iter().any(|other| cell == *other)
}

/// What a cell says, in words. Of one that shows nothing, and of a burner, whose name says it, there is nothing to say.
pub fn meaning(cell: Cell) -> &'static str
    ensures { result.now ≡ meaning cell }
{
    match cell {
        Cell::Does(sign) => sign_meaning(sign),
        Cell::Lasts => "in effect",
        Cell::Acts => "the actor acts",
        Cell::Armed(_) => "on a timer that a work has just set",
        Cell::Empty | Cell::Burner(_) => "",
    }
}

/// What a sign says, in words.
pub(crate) fn sign_meaning(sign: Sign) -> &'static str
    ensures { result.now ≡ sign_meaning sign }
{
    match sign {
        Sign::Burns => "burns",
        Sign::Waits => "runnable, without the CPU",
        Sign::Sleeps => "asleep",
        Sign::Listed => "listed",
        Sign::Inactive => "inactive",
        Sign::Timed => "on a timer",
        Sign::Deferred => "deferred",
    }
}
