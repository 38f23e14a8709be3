//! What `why` says of the works of rows, in one state.
ghost use Rattle.cmwq_draw.specs.Hints.{row_hint, row_hints, wait_begins, work_hint};
ghost use Rattle.std.specs.Prelude.{◌≡◌, ◌++◌, OnOk, slice_index_or};

use cmwq_picture::{Cell, Hint, Row, Title};
use cmwq_table::Reads;
use cmwq_types::{NoMemory, WorkId};
use cmwq_why_text::work_text;
use std::alloc::Global;

/// Pushes what is said of the works of these rows that begin to wait in this column, before which the machine is.
pub(crate) fn push_row_hints<R: Reads>(
    alloc: Global,
    hints: &mut Vec<Hint>,
    machine: &R,
    column: usize,
    rows: &[Row],
) -> Result<(), NoMemory>
    ensures { OnOk result (hints.new.items ≡ hints.old.items ++ row_hints (R.loaded machine.now) (R.state machine.now) column 0 rows.now) }
{
    for (at, row) in rows.iter().enumerate() {
        push_row_hint(alloc, hints, machine, column, at, row)?;
    }
    Ok(())
}

/// Pushes what is said of the row's work, if it is a work's and begins to wait there.
fn push_row_hint<R: Reads>(
    alloc: Global,
    hints: &mut Vec<Hint>,
    machine: &R,
    column: usize,
    at: usize,
    row: &Row,
) -> Result<(), NoMemory>
    ensures { OnOk result (hints.new.items ≡ hints.old.items ++ row_hint (R.loaded machine.now) (R.state machine.now) column at row.now.title row.now.cells) }
{
    match row.title {
        Title::Work(work) | Title::Pending(work) => {
            push_work_hint(alloc, hints, machine, column, at, &row.cells, work)
        }
        _ => Ok(()),
    }
}

/// Pushes what is said of the work, if it begins to wait there.
fn push_work_hint<R: Reads>(
    alloc: Global,
    hints: &mut Vec<Hint>,
    machine: &R,
    column: usize,
    row: usize,
    cells: &[Cell],
    work: WorkId,
) -> Result<(), NoMemory>
    ensures { OnOk result (hints.new.items ≡ hints.old.items ++ work_hint (R.loaded machine.now) (R.state machine.now) column row cells.now work.0) }
{
    if wait_begins(cells, column) {
        let text = work_text(alloc, machine, work)?;
        hints.push(Hint { row, text })?;
    }
    Ok(())
}

/// Whether a rectangle that shows a work waiting begins in this column.
fn wait_begins(cells: &[Cell], column: usize) -> bool
    ensures { result ≡ wait_begins cells.now column }
{
    let cell = cell_at(cells, column);
    cell.is_waiting() && (column == 0 || cell_at(cells, column - 1) != cell)
}

fn cell_at(cells: &[Cell], column: usize) -> Cell
    ensures { result ≡ slice_index_or cells.now column Cell.Empty }
{
    cells.get(column).copied().unwrap_or(Cell::Empty)
}
