//! The columns of a picture: one a tick, or one for a longer stretch in which nothing changes.
ghost use Rattle.cmwq_picture.specs.Column.{cell_shown};
ghost use Rattle.cmwq_picture.specs.Folding.{columns_drawn, edges_from, end_from, folds, is_long, is_wide, starts_from, stretches_of, ticks_drawn, ticks_each, width};
ghost use Rattle.cmwq_picture.specs.Stretches.{spread};
ghost use Rattle.cmwq_types.specs.Setting.{IsSetting};
ghost use Rattle.std.specs.Prelude.{◌≡◌, ◌<◌, ◌+◌, ◌*◌, ◌^◌, ◌++◌, IfOk, OnOk, length, map, replicate};

use crate::cell::Cell;
use crate::columns::{Columns, Stretch};
use crate::row::Title;
use crate::span::{MAX_COLUMNS, MAX_UNFOLDED, is_open};
use cmwq_drawing::Span;
use cmwq_types::{NoMemory, Scenario};
use std::alloc::Global;
use std::marker::Model;

/// Whether the stretch is folded: more than 20 ticks, at none of which the actor did anything.
fn folds(fold: bool, stretch: &Stretch) -> bool
    ensures { result ≡ folds fold stretch.now }
{
    fold && stretch.count > MAX_UNFOLDED && !stretch.column.acted
}

/// How many columns the picture has for the stretch.
fn width(fold: bool, stretch: &Stretch) -> u32
    ensures { result ≡ width fold stretch.now }
{
    if folds(fold, stretch) {
        1
    } else {
        stretch.count
    }
}

/// For how many ticks each of them stands.
fn ticks_each(fold: bool, stretch: &Stretch) -> u32
    ensures { result ≡ ticks_each fold stretch.now }
{
    if folds(fold, stretch) {
        stretch.count
    } else {
        1
    }
}

/// Columns as a picture has them: folded, where that is asked.
#[derive(Drop)]
pub(crate) struct DrawnColumns<'a> {
    stretches: &'a [Stretch],
    fold: bool,
}

impl<'a> Model for DrawnColumns<'a> {
    ghost use Rattle.cmwq_picture.specs.Column.{ColumnContents};
    ghost use Rattle.cmwq_picture.specs.Folding.{columns_drawn};
    ghost use Rattle.std.specs.Prelude.{List};

    ghost Value = { List ColumnContents };

    ghost view = { λ drawn. columns_drawn drawn.fold drawn.stretches.now };
}

impl<'a> DrawnColumns<'a> {
    /// These columns.
    pub(crate) fn of(columns: &'a Columns, fold: bool) -> DrawnColumns<'a>
        ensures { result ≡ columns_drawn fold (stretches_of columns.now) }
    {
        DrawnColumns {
            stretches: columns.stretches(),
            fold,
        }
    }

    /// Their cells in the row of this title.
    pub(crate) fn cells(
        &self,
        alloc: Global,
        scenario: &Scenario,
        title: Title,
    ) -> Result<Vec<Cell>, NoMemory>
        requires { IsSetting scenario.now }
        ensures { IfOk result (λ cells. cells.items ≡ map (cell_shown scenario.now title) self.now) }
    {
        let mut cells = Vec::new(alloc);
        push_cells(&mut cells, scenario, self.stretches, title, self.fold)?;
        Ok(cells)
    }
}

/// The cells of these columns in the row of the title, behind those that are there.
fn push_cells(
    cells: &mut Vec<Cell>,
    scenario: &Scenario,
    stretches: &[Stretch],
    title: Title,
    fold: bool,
) -> Result<(), NoMemory>
    requires { IsSetting scenario.now }
    ensures { OnOk result (cells.new.items ≡ cells.old.items ++ map (cell_shown scenario.now title) (columns_drawn fold stretches.now)) }
{
    for stretch in stretches {
        let cell = stretch.column.cell(scenario, title);
        cells.resize(cells.len() + width(fold, stretch) as usize, cell)?;
    }
    Ok(())
}

/// The times at which the picture's columns begin, the first of them at this time, and behind them that at which the last one ends.
pub(crate) fn edges(
    alloc: Global,
    columns: &Columns,
    from: u64,
    fold: bool,
) -> Result<Vec<u64>, NoMemory>
    requires { 0 < length columns.now → from + length columns.now < 2 ^ 64 }
    ensures { IfOk result (λ edges. edges.items ≡ edges_from from (ticks_drawn fold (stretches_of columns.now))) }
{
    let mut edges = Vec::new(alloc);
    let end = push_stretches(&mut edges, from, columns.stretches(), fold)?;
    edges.push(end)?;
    Ok(edges)
}

/// Pushes the times at which the columns of these stretches begin, and answers that at which the last one ends.
fn push_stretches(
    edges: &mut Vec<u64>,
    from: u64,
    stretches: &[Stretch],
    fold: bool,
) -> Result<u64, NoMemory>
    requires { 0 < length (spread stretches.now) → from + length (spread stretches.now) < 2 ^ 64 }
    ensures end { IfOk result (λ end. end ≡ end_from from (ticks_drawn fold stretches.now)) }
    ensures pushed { OnOk result (edges.new.items ≡ edges.old.items ++ starts_from from (ticks_drawn fold stretches.now)) }
{
    let mut time = from;
    for stretch in stretches {
        time = push_starts(edges, time, width(fold, stretch), ticks_each(fold, stretch))?;
    }
    Ok(time)
}

/// Pushes the times at which so many columns begin that stand for so many ticks each, and answers that at which the last one ends.
fn push_starts(edges: &mut Vec<u64>, from: u64, columns: u32, ticks: u32) -> Result<u64, NoMemory>
    requires { from + columns * ticks < 2 ^ 64 }
    ensures end { IfOk result (λ end. end ≡ end_from from (replicate columns ticks)) }
    ensures pushed { OnOk result (edges.new.items ≡ edges.old.items ++ starts_from from (replicate columns ticks)) }
{
    let mut time = from;
    for _column in 0..columns {
        edges.push(time)?;
        time += u64::from(ticks);
    }
    Ok(time)
}

/// Whether there are too many ticks for a column each, where an end of the span isn't given.
pub(crate) fn is_long(span: Span, columns: &Columns) -> bool
    ensures { result ≡ is_long span columns.now }
{
    is_open(span) && columns.len() > MAX_COLUMNS
}

/// Whether the columns are too many, even folded, where an end of the span isn't given.
pub(crate) fn is_wide(alloc: Global, span: Span, columns: &Columns) -> Result<bool, NoMemory>
    requires { length columns.now < 2 ^ 64 }
    ensures { IfOk result (λ wide. wide ≡ is_wide span columns.now) }
{
    if !is_open(span) {
        return Ok(false);
    }
    let edges = edges(alloc, columns, 0, true)?;
    Ok(edges.len() > MAX_COLUMNS + 1)
}
