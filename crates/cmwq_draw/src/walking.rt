//! A run that is gone along once more, for what `why` says where rectangles begin.
ghost use Rattle.cmwq_draw.specs.Hints.{column_hints, hints, hints_from, is_edge, next_column, row_hints};
ghost use Rattle.cmwq_table.specs.State.{start};
ghost use Rattle.cmwq_table.specs.Table.{table};
ghost use Rattle.cmwq_types.specs.Faults.{IsValid};
ghost use Rattle.cmwq_types.specs.Scenario.{expand_lines};
ghost use Rattle.std.specs.Prelude.{◌≡◌, ◌<◌, ◌+◌, ◌++◌, [], IfOk, OnOk, if◌then◌else◌, length, true};

use crate::hinting::push_row_hints;
use cmwq_picture::{Hint, Picture};
use cmwq_runs::Instructions;
use cmwq_table::Machine;
use cmwq_types::{Instr, Line, NoMemory, Scenario};
use std::alloc::Global;
use std::sync::Arc;

/// What `why` says of each work where a rectangle of a picture of the lines' run begins that shows it waiting, just before the first tick
/// of the rectangle: row by row in each column, and from left to right. The only error is want of memory.
pub fn hints<M: Machine>(
    alloc: Global,
    scenario: &Arc<Scenario>,
    lines: &[Line],
    picture: &Picture,
) -> Result<Vec<Hint>, NoMemory>
    requires { IsValid scenario.now.value }
    ensures { IfOk result (λ found. found.items ≡ hints scenario.now.value (expand_lines lines.now) picture.now) }
{
    let behind = M::begin(alloc, Arc::clone(scenario)?)?;
    let ahead = M::begin(alloc, Arc::clone(scenario)?)?;
    walk(alloc, behind, ahead, lines, picture)
}

/// What is said along these lines, of which one machine goes ahead by an instruction, so that it is known what will let a tick pass.
fn walk<M: Machine>(
    alloc: Global,
    mut behind: M,
    mut ahead: M,
    lines: &[Line],
    picture: &Picture,
) -> Result<Vec<Hint>, NoMemory>
    requires same { M.state ahead ≡ M.state behind }
    requires loaded { M.loaded ahead ≡ M.loaded behind }
    ensures { IfOk result (λ found. found.items ≡ hints_from (M.loaded behind) picture.now 0 (M.state behind) (expand_lines lines.now)) }
{
    let mut found = Vec::new(alloc);
    let mut column = 0;
    for instr in Instructions::of(lines) {
        column = step(
            alloc,
            &mut behind,
            &mut ahead,
            &mut found,
            column,
            picture,
            instr,
        )?;
    }
    Ok(found)
}

/// One instruction: where it lets the first tick of the column pass, pushes what is said there. Answers which column is next.
fn step<M: Machine>(
    alloc: Global,
    behind: &mut M,
    ahead: &mut M,
    found: &mut Vec<Hint>,
    column: usize,
    picture: &Picture,
    instr: Instr,
) -> Result<usize, NoMemory>
    requires same { M.state ahead.old ≡ M.state behind.old }
    requires loaded { M.loaded ahead.old ≡ M.loaded behind.old }
    ensures state { OnOk result (M.state behind.new ≡ (table (M.loaded behind.old) (M.state behind.old) instr).0) }
    ensures scenario { OnOk result (M.loaded behind.new ≡ M.loaded behind.old) }
    ensures same { OnOk result (M.state ahead.new ≡ M.state behind.new) }
    ensures loaded { OnOk result (M.loaded ahead.new ≡ M.loaded behind.new) }
    ensures column { IfOk result (λ next. next ≡ next_column (M.loaded behind.old) picture.now.edges column (M.state behind.old) instr) }
    ensures hints { OnOk result (found.new.items ≡ found.old.items ++ column_hints (M.loaded behind.old) picture.now column (M.state behind.old) instr) }
{
    let time = behind.now();
    ahead.exec(instr);
    let begins = time < ahead.now() && is_edge(picture.edges.get(column).copied(), time);
    let next = push_column(alloc, found, behind, column, picture, begins)?;
    behind.exec(instr);
    Ok(next)
}

/// Pushes what is said in the column, if it begins. Answers which column is next.
fn push_column<M: Machine>(
    alloc: Global,
    found: &mut Vec<Hint>,
    machine: &M,
    column: usize,
    picture: &Picture,
    begins: bool,
) -> Result<usize, NoMemory>
    requires { begins ≡ true → column < length picture.now.edges }
    ensures column { IfOk result (λ next. next ≡ (if begins then column + 1 else column)) }
    ensures hints { OnOk result (found.new.items ≡ found.old.items ++ (if begins then row_hints (M.loaded machine.now) (M.state machine.now) column 0 picture.now.rows else [])) }
{
    if begins {
        push_row_hints(alloc, found, machine, column, &picture.rows)?;
        return Ok(column + 1);
    }
    Ok(column)
}

/// Whether this is the time of the edge, if there is one.
fn is_edge(edge: Option<u64>, time: u64) -> bool
    ensures { result ≡ is_edge edge time }
{
    edge == Some(time)
}
