//! The text of a picture.
ghost use Rattle.cmwq_render.specs.Times.{padded_to};
ghost use Rattle.cmwq_render.specs.Legend.{sign_mark};
ghost use Rattle.cmwq_render.specs.Sketch.{armed_line, gap_line, gap_marks, gap_told, key, legend_line, letter_of, mark, marks_of, picture_text, row_line};
ghost use Rattle.std.specs.List.{flat_map};
ghost use Rattle.std.specs.Prelude.{◌≡◌, ◌∷◌, ◌+◌, ◌++◌, [], IfOk, OnOk, codes, if◌then◌else◌, map, nat_lt, slice_index_or};

use crate::act_lines::push_acts;
use crate::gap::{Gap, gaps, stands_for_more};
use crate::label::{label_width, push_lettered};
use crate::legend::{explained, meaning, shows_armed};
use crate::letters::letters;
use crate::times::header;
use cmwq_picture::{Cell, Picture, Row, Sign};
use cmwq_types::{NoMemory, Scenario, WorkId};
use std::alloc::Global;

/// The picture as text, in bytes: the times; a line for each row with a byte for each column between bars, in which a letter stands
/// for a work that burns, and in the row of a work for the one whose body has just set its timer; a line that marks folded columns, if
/// there are some; a line that says what the signs mean; one that explains letters in rows of works, if there are some; one for each
/// folded column; and one for each tick at which the actor did something.
///
/// The format is this project's own. The only error is want of memory.
pub fn sketch(alloc: Global, scenario: &Scenario, picture: &Picture) -> Result<Vec<u8>, NoMemory>
    ensures { IfOk result (λ text. text.items ≡ picture_text scenario.now picture.now) }
{
    let letters = letters(alloc, scenario)?;
    let width = label_width(alloc, scenario, &letters, &picture.rows)?;
    let mut text = header(alloc, &picture.edges, width)?.into_bytes();
    push_rows(alloc, &mut text, scenario, &letters, width, &picture.rows)?;
    let folded = gaps(alloc, &picture.edges)?;
    push_gap_line(alloc, &mut text, width, &picture.edges, &folded)?;
    let cells = explained(alloc, &picture.rows)?;
    push_legend(&mut text, scenario, &cells)?;
    push_armed_line(&mut text, &picture.rows)?;
    push_gaps_told(alloc, &mut text, &folded)?;
    push_acts(alloc, &mut text, scenario, &picture.acts)?;
    Ok(text)
}

/// Writes the line of each row.
fn push_rows(
    alloc: Global,
    text: &mut Vec<u8>,
    scenario: &Scenario,
    letters: &[u8],
    width: usize,
    rows: &[Row],
) -> Result<(), NoMemory>
    ensures { OnOk result (text.new.items ≡ text.old.items ++ flat_map (row_line scenario.now letters.now width) rows.now) }
{
    for row in rows {
        push_row(alloc, text, scenario, letters, width, row)?;
    }
    Ok(())
}

/// Writes the line of a row, whose left bar is `width` bytes behind its start.
fn push_row(
    alloc: Global,
    text: &mut Vec<u8>,
    scenario: &Scenario,
    letters: &[u8],
    width: usize,
    row: &Row,
) -> Result<(), NoMemory>
    ensures { OnOk result (text.new.items ≡ text.old.items ++ row_line scenario.now letters.now width row.now) }
{
    let mut line = Vec::new(alloc);
    push_lettered(alloc, &mut line, scenario, letters, row.title)?;
    push_barred(text, line, width)?;
    push_cells(text, scenario, letters, &row.cells)?;
    text.extend_from_slice(b"|\n")?;
    Ok(())
}

/// Writes the label, with spaces behind it up to `width` bytes, and a bar.
fn push_barred(text: &mut Vec<u8>, mut label: Vec<u8>, width: usize) -> Result<(), NoMemory>
    ensures { OnOk result (text.new.items ≡ text.old.items ++ padded_to width label.items ++ 124 ∷ []) }
{
    label.resize(label.len().max(width), b' ')?;
    text.extend_from_slice(&label)?;
    text.push(b'|')?;
    Ok(())
}

/// Writes the mark of each cell.
fn push_cells(
    text: &mut Vec<u8>,
    scenario: &Scenario,
    letters: &[u8],
    cells: &[Cell],
) -> Result<(), NoMemory>
    ensures { OnOk result (text.new.items ≡ text.old.items ++ map (mark scenario.now letters.now) cells.now) }
{
    for cell in cells {
        text.push(mark_of(scenario, letters, *cell))?;
    }
    Ok(())
}

/// The letter or sign that stands for a cell.
fn mark_of(scenario: &Scenario, letters: &[u8], cell: Cell) -> u8
    ensures { result ≡ mark scenario.now letters.now cell }
{
    match cell {
        Cell::Empty => b' ',
        Cell::Does(sign) => sign_mark(sign),
        Cell::Burner(work) | Cell::Armed(work) => letter_of(scenario, letters, work),
        Cell::Acts => b'^',
        Cell::Lasts => b'*',
    }
}

/// The sign that stands for what a work does.
pub(crate) fn sign_mark(sign: Sign) -> u8
    ensures { result ≡ sign_mark sign }
{
    match sign {
        Sign::Burns => b'#',
        Sign::Waits => b'=',
        Sign::Sleeps => b'.',
        Sign::Listed => b'-',
        Sign::Inactive => b'x',
        Sign::Timed => b'~',
        Sign::Deferred => b'+',
    }
}

/// The work's letter, or where there is none the first of its name, or `?` where no work has the number.
fn letter_of(scenario: &Scenario, letters: &[u8], work: WorkId) -> u8
    ensures { result ≡ letter_of scenario.now letters.now work }
{
    let w = work.0 as usize;
    match letters.get(w) {
        Some(letter) => *letter,
        None => scenario.work_name_bytes(w).first().copied().unwrap_or(b'?'),
    }
}

/// Writes the line that marks the folded columns, if there are some.
fn push_gap_line(
    alloc: Global,
    text: &mut Vec<u8>,
    width: usize,
    edges: &[u64],
    gaps: &[Gap],
) -> Result<(), NoMemory>
    ensures { OnOk result (text.new.items ≡ text.old.items ++ gap_line width edges.now gaps.now) }
{
    if gaps.is_empty() {
        return Ok(());
    }
    let mut label = Vec::new(alloc);
    label.extend_from_slice(b"gap")?;
    push_barred(text, label, width)?;
    push_gap_marks(text, edges)?;
    text.extend_from_slice(b"|\n")?;
    Ok(())
}

/// Writes the mark of each column: whether it is folded.
fn push_gap_marks(text: &mut Vec<u8>, edges: &[u64]) -> Result<(), NoMemory>
    ensures { OnOk result (text.new.items ≡ text.old.items ++ marks_of edges.now) }
{
    match edges.split_first() {
        Some((first, later)) => push_marks_from(text, *first, later),
        None => Ok(()),
    }
}

/// Writes the marks of the columns the first of which begins at this time, and which end at these.
fn push_marks_from(text: &mut Vec<u8>, first: u64, later: &[u64]) -> Result<(), NoMemory>
    ensures { OnOk result (text.new.items ≡ text.old.items ++ gap_marks first later.now) }
{
    let mut from = first;
    for to in later {
        text.push(gap_mark(from, *to))?;
        from = *to;
    }
    Ok(())
}

fn gap_mark(from: u64, to: u64) -> u8
    ensures { result ≡ if nat_lt (from + 1) to then 58 else 32 }
{
    if stands_for_more(from, to) {
        b':'
    } else {
        b' '
    }
}

/// Writes the line that explains these cells, and none where there is nothing to explain.
fn push_legend(text: &mut Vec<u8>, scenario: &Scenario, cells: &[Cell]) -> Result<(), NoMemory>
    ensures { OnOk result (text.new.items ≡ text.old.items ++ legend_line scenario.now cells.now) }
{
    let Some((first, others)) = cells.split_first() else {
        return Ok(());
    };
    push_key(text, scenario, *first)?;
    push_keys(text, scenario, others)?;
    text.push(b'\n')?;
    Ok(())
}

/// Writes the line that explains letters in the rows of works, where one stands there.
fn push_armed_line(text: &mut Vec<u8>, rows: &[Row]) -> Result<(), NoMemory>
    ensures { OnOk result (text.new.items ≡ text.old.items ++ armed_line rows.now) }
{
    if shows_armed(rows) {
        text.extend_from_slice(b"letter: on a timer set by that work\n")?;
    }
    Ok(())
}

/// Writes what the legend says of each of these cells, behind others.
fn push_keys(text: &mut Vec<u8>, scenario: &Scenario, cells: &[Cell]) -> Result<(), NoMemory>
    ensures { OnOk result (text.new.items ≡ text.old.items ++ flat_map (λ cell. codes "  " ++ key scenario.now cell) cells.now) }
{
    for cell in cells {
        text.extend_from_slice(b"  ")?;
        push_key(text, scenario, *cell)?;
    }
    Ok(())
}

/// Writes what the legend says of a cell, behind its mark.
fn push_key(text: &mut Vec<u8>, scenario: &Scenario, cell: Cell) -> Result<(), NoMemory>
    ensures { OnOk result (text.new.items ≡ text.old.items ++ key scenario.now cell) }
{
    text.push(mark_of(scenario, &[], cell))?;
    text.push(b' ')?;
    text.extend_from_slice(meaning(cell).as_bytes())?;
    Ok(())
}

/// Writes a line for each folded column.
fn push_gaps_told(alloc: Global, text: &mut Vec<u8>, gaps: &[Gap]) -> Result<(), NoMemory>
    ensures { OnOk result (text.new.items ≡ text.old.items ++ flat_map gap_told gaps.now) }
{
    for gap in gaps {
        let words = gap.words().to_string(alloc)?;
        text.extend_from_slice(b": ")?;
        text.extend_from_slice(words.as_bytes())?;
        text.push(b'\n')?;
    }
    Ok(())
}
