//! Rows, as they are cut from the columns.
ghost use Rattle.cmwq_picture.specs.Column.{cut, cut_rows, cell_shown};
ghost use Rattle.cmwq_picture.specs.ExtentContents.{picked_works};
ghost use Rattle.cmwq_picture.specs.Picture.{below, is_empty_cell, is_picked, stands_in_picture, stands_empty, titles, work_titles, worker_titles};
ghost use Rattle.cmwq_picture.specs.declared.row.Title.TheVariants as title;
ghost use Rattle.cmwq_types.specs.Setting.{IsSetting};
ghost use Rattle.std.specs.List.{filter, flat_map, list_any, range_with_len};
ghost use Rattle.std.specs.Prelude.{◌≡◌, ◌<◌, ◌+◌, ◌*◌, [], ◌∷◌, ◌++◌, IfOk, OnOk, length, map, not};

use crate::cell::Cell;
use crate::extent::is_picked;
use crate::folding::DrawnColumns;
use crate::row::{Row, Title};
use cmwq_types::{NoMemory, QueueId, Scenario, WorkId};
use std::alloc::Global;

/// The rows of these columns, from the top: works, all or these alone, CPUs, the workers of the unbound pools, rescuers, freezes,
/// memory pressure, and the actor. The row of a CPU and that of the actor always stand, each other one where a cell of it isn't empty.
pub(crate) fn rows(
    alloc: Global,
    scenario: &Scenario,
    columns: &DrawnColumns<'_>,
    works: Option<&[WorkId]>,
) -> Result<Vec<Row>, NoMemory>
    requires { IsSetting scenario.now }
    ensures { IfOk result (λ rows. rows.items ≡ cut_rows scenario.now columns.now (titles scenario.now (picked_works works.entry))) }
{
    let mut rows = Vec::new(alloc);
    push_works(alloc, scenario, columns, works, &mut rows)?;
    push_cpus(alloc, scenario, columns, &mut rows)?;
    push_workers(alloc, scenario, columns, &mut rows)?;
    push_rescuers(alloc, scenario, columns, &mut rows)?;
    push(alloc, scenario, columns, &mut rows, Title::Frozen)?;
    push(alloc, scenario, columns, &mut rows, Title::Pressed)?;
    push(alloc, scenario, columns, &mut rows, Title::Actor)?;
    Ok(rows)
}

/// Pushes the two rows of each work that has rows, as far as they stand.
fn push_works(
    alloc: Global,
    scenario: &Scenario,
    columns: &DrawnColumns<'_>,
    works: Option<&[WorkId]>,
    rows: &mut Vec<Row>,
) -> Result<(), NoMemory>
    requires { IsSetting scenario.now }
    ensures { OnOk result (rows.new.items ≡ rows.old.items ++ cut_rows scenario.now columns.now (flat_map work_titles (filter (is_picked (picked_works works.entry)) (below (length scenario.now.works))))) }
{
    for w in 0..scenario.works.len() {
        if is_picked(works, w) {
            push_work(alloc, scenario, columns, rows, WorkId(w as u16))?;
        }
    }
    Ok(())
}

/// Pushes the two rows of the work, as far as they stand.
fn push_work(
    alloc: Global,
    scenario: &Scenario,
    columns: &DrawnColumns<'_>,
    rows: &mut Vec<Row>,
    work: WorkId,
) -> Result<(), NoMemory>
    requires { IsSetting scenario.now }
    ensures { OnOk result (rows.new.items ≡ rows.old.items ++ cut_rows scenario.now columns.now (work_titles work.0)) }
{
    push(alloc, scenario, columns, rows, Title::Work(work))?;
    push(alloc, scenario, columns, rows, Title::Pending(work))
}

/// Pushes the row of each CPU.
fn push_cpus(
    alloc: Global,
    scenario: &Scenario,
    columns: &DrawnColumns<'_>,
    rows: &mut Vec<Row>,
) -> Result<(), NoMemory>
    requires { IsSetting scenario.now }
    ensures { OnOk result (rows.new.items ≡ rows.old.items ++ cut_rows scenario.now columns.now (map (λ cpu. title.Cpu cpu) (below scenario.now.cpus))) }
{
    for cpu in 0..scenario.cpus {
        push(alloc, scenario, columns, rows, Title::Cpu(cpu))?;
    }
    Ok(())
}

/// Pushes the rows of the workers of the two unbound pools, as far as they stand.
fn push_workers(
    alloc: Global,
    scenario: &Scenario,
    columns: &DrawnColumns<'_>,
    rows: &mut Vec<Row>,
) -> Result<(), NoMemory>
    requires { IsSetting scenario.now }
    ensures { OnOk result (rows.new.items ≡ rows.old.items ++ cut_rows scenario.now columns.now (flat_map (worker_titles scenario.now) (range_with_len (2 * scenario.now.cpus) 2))) }
{
    let normal = 2 * scenario.cpus;
    push_workers_of(alloc, scenario, columns, rows, normal)?;
    push_workers_of(alloc, scenario, columns, rows, normal + 1)
}

/// Pushes the rows of the workers of the pool, as far as they stand.
fn push_workers_of(
    alloc: Global,
    scenario: &Scenario,
    columns: &DrawnColumns<'_>,
    rows: &mut Vec<Row>,
    pool: u8,
) -> Result<(), NoMemory>
    requires { IsSetting scenario.now }
    ensures { OnOk result (rows.new.items ≡ rows.old.items ++ cut_rows scenario.now columns.now (worker_titles scenario.now pool)) }
{
    for worker in 0..scenario.workers {
        push(
            alloc,
            scenario,
            columns,
            rows,
            Title::Worker { pool, worker },
        )?;
    }
    Ok(())
}

/// Pushes the row of each queue's rescuer, as far as it stands.
fn push_rescuers(
    alloc: Global,
    scenario: &Scenario,
    columns: &DrawnColumns<'_>,
    rows: &mut Vec<Row>,
) -> Result<(), NoMemory>
    requires { IsSetting scenario.now }
    ensures { OnOk result (rows.new.items ≡ rows.old.items ++ cut_rows scenario.now columns.now (map (λ queue. title.Rescuer (record { 0 = queue })) (below (length scenario.now.queues)))) }
{
    for queue in 0..scenario.queues.len() {
        let queue = QueueId(queue as u8);
        push(alloc, scenario, columns, rows, Title::Rescuer(queue))?;
    }
    Ok(())
}

/// Pushes the row, if it stands.
fn push(
    alloc: Global,
    scenario: &Scenario,
    columns: &DrawnColumns<'_>,
    rows: &mut Vec<Row>,
    title: Title,
) -> Result<(), NoMemory>
    requires { IsSetting scenario.now }
    ensures { OnOk result (rows.new.items ≡ rows.old.items ++ cut_rows scenario.now columns.now (title ∷ [])) }
{
    let row = cut(alloc, scenario, columns, title)?;
    if stands_in_picture(&row) {
        rows.push(row)?;
    }
    Ok(())
}

/// The row: a cell from each column.
fn cut(
    alloc: Global,
    scenario: &Scenario,
    columns: &DrawnColumns<'_>,
    title: Title,
) -> Result<Row, NoMemory>
    requires { IsSetting scenario.now }
    ensures { IfOk result (λ row. row ≡ cut scenario.now columns.now title) }
{
    let cells = columns.cells(alloc, scenario, title)?;
    Ok(Row { title, cells })
}

/// Whether the row stands in a picture: that of a CPU or of the actor always, each other one where a cell of it isn't empty.
fn stands_in_picture(row: &Row) -> bool
    ensures { result ≡ stands_in_picture row.now }
{
    stands_empty(row.title) || has_sign(&row.cells)
}

fn stands_empty(title: Title) -> bool
    ensures { result ≡ stands_empty title }
{
    matches!(title, Title::Cpu(_) | Title::Actor)
}

/// Whether one of the cells isn't empty.
fn has_sign(cells: &[Cell]) -> bool
    ensures { result ≡ list_any (λ cell. not (is_empty_cell cell)) cells.now }
{
    cells.iter().any(|cell| !matches!(cell, Cell::Empty))
}
