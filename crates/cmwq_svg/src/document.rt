//! The SVG text of a picture.
ghost use Rattle.cmwq_render.specs.Gaps.{gaps};
ghost use Rattle.cmwq_render.specs.Legend.{sampled};
ghost use Rattle.cmwq_svg.specs.Svg.{acts_end, body, is_large_svg, room_again, row_count, svg_text};
ghost use Rattle.cmwq_svg.specs.Layout.{full_width};
ghost use Rattle.cmwq_render.specs.Times.{column_count};
ghost use Rattle.std.specs.Prelude.{◌≡◌, ◌<◌, ◌^◌, IfOk, string_bytes};

use crate::frame::Frame;
use crate::layout::{Grid, full_height, full_width, is_large, wide_step, y_of};
use crate::shapes::push_head;
use cmwq_picture::{Act, Cell, Hint, Picture};
use cmwq_render::{Gap, column_count, gaps, label_width, sampled, time_step};
use cmwq_types::{NoMemory, Scenario};
use std::alloc::Global;

/// The picture as SVG, in bytes, under a name of its own, with columns of so many pixels: a row of rectangles for each row, one for
/// each run of columns in which it shows the same, between the times; a line for each thing that the actor did; a band over each
/// folded column; and a line for each sign that occurs, and each folded column.
///
/// It has no script: what a rectangle shows, its `title` tells, where it shows a work waiting behind the next line of these for its row. A reader's wish for a dark background is heeded, and each sign has a
/// pattern besides its colour. The style and the patterns are under the picture's name, so that it can stand in a page beside others.
/// Names need no escapes: they have letters, digits and `_` alone. The format is this project's own. The only error is want of memory.
pub fn svg(
    alloc: Global,
    scenario: &Scenario,
    picture: &Picture,
    hints: &[Hint],
    id: &str,
    scale: u32,
) -> Result<Vec<u8>, NoMemory>
    requires { 0 < scale }
    ensures { IfOk result (λ text. text.items ≡ svg_text scenario.now picture.now hints.now id.now scale) }
{
    let letters = label_width(alloc, scenario, &[], &picture.rows)?;
    let frame = Frame {
        scenario,
        edges: &picture.edges,
        grid: Grid { letters, scale },
        large: false,
    };
    let cells = sampled(alloc, &picture.rows)?;
    let folded = gaps(alloc, &picture.edges)?;
    let height = full_height(
        row_count(picture),
        cells.len() as u128 + folded.len() as u128,
    );
    let width = svg_width(alloc, &frame, &picture.acts)?;
    let large = is_large(width, height);
    let mut text = Vec::new(alloc);
    let id = id.as_bytes();
    push_head(
        alloc,
        &mut text,
        id,
        width + room_again(frame.grid, large),
        height,
    )?;
    let body = body(
        alloc,
        &Frame { large, ..frame },
        picture,
        hints,
        &cells,
        &folded,
    )?;
    text.extend_from_slice(body.as_bytes())?;
    Ok(text)
}

/// How wide the picture is in which the actor did this, but for labels at the right.
fn svg_width(alloc: Global, frame: &Frame<'_>, acts: &[Act]) -> Result<u128, NoMemory>
    ensures width { IfOk result (λ width. width ≡ full_width frame.now.grid (column_count frame.now.edges.now) (acts_end frame.now.scenario.now frame.now.edges.now frame.now.grid acts.now)) }
    ensures small { IfOk result (λ width. width < 2 ^ 111) }
{
    let end = frame.acts_end(alloc, acts)?;
    Ok(full_width(frame.grid, column_count(frame.edges), end))
}

/// How much room labels have at the right.
fn room_again(grid: Grid, large: bool) -> u128
    ensures room { result ≡ room_again grid large }
    ensures small { result < 2 ^ 69 }
{
    if large { grid.left_edge() } else { 0 }
}

/// How many rows it has, with those of what the actor did.
fn row_count(picture: &Picture) -> u128
    ensures rows { result ≡ row_count picture.now }
    ensures small { result < 2 ^ 66 }
{
    picture.rows.len() as u128 + picture.acts.len() as u128
}

/// The times, the rows, what the actor did, these folded columns, and the legend of these cells.
fn body(
    alloc: Global,
    frame: &Frame<'_>,
    picture: &Picture,
    hints: &[Hint],
    cells: &[Cell],
    folded: &[Gap],
) -> Result<String, NoMemory>
    requires scale { 0 < frame.now.grid.scale }
    requires edges { frame.now.edges.now ≡ picture.now.edges }
    requires large { frame.now.large ≡ is_large_svg frame.now.scenario.now picture.now frame.now.grid }
    requires cells { cells.now ≡ sampled picture.now.rows }
    requires folded { folded.now ≡ gaps picture.now.edges }
    ensures { IfOk result (λ text. string_bytes text ≡ body frame.now.scenario.now picture.now hints.now frame.now.grid) }
{
    let rows = row_count(picture);
    let bottom = y_of(rows);
    let step = wide_step(frame.grid.scale, time_step(frame.edges));
    let mut text = String::new(alloc);
    frame.push_times(alloc, &mut text, step, bottom)?;
    frame.push_rows(alloc, &mut text, hints, &picture.rows)?;
    frame.push_acts(alloc, &mut text, picture.rows.len() as u128, &picture.acts)?;
    frame.push_gaps(alloc, &mut text, y_of(picture.rows.len() as u128), folded)?;
    frame.push_legend(&mut text, rows + 1, cells)?;
    frame.push_gap_keys(alloc, &mut text, rows + 1 + cells.len() as u128, folded)?;
    text.push_str("</svg>\n")?;
    Ok(text)
}
