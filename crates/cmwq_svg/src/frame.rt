//! The parts of an SVG picture, each where it stands.
ghost use Rattle.cmwq_svg.specs.Bars.{bars, bar_ended};
ghost use Rattle.cmwq_svg.specs.Hinted.{hints_after};
ghost use Rattle.cmwq_svg.specs.Layout.{x_of, y_of};
ghost use Rattle.cmwq_svg.specs.Svg.{bar_svg, bars_svg, label_again, name_in, name_svg, row_svg, rows_svg, time_mark, time_marks};
ghost use Rattle.cmwq_render.specs.Times.{column_count, time_at, time_count};
ghost use Rattle.std.specs.Prelude.{◌≡◌, ◌≤◌, ◌<◌, ◌^◌, ◌++◌, IfOk, IfSome, OnOk, string_bytes};

use crate::bar_titles::{BarTitle, hint_for};
use crate::bars::{Bar, bar_begun, goes_on, grown};
use crate::layout::{Grid, y_of};
use crate::shapes::{Area, GridLine, PlacedText, Rectangle, class_of};
use cmwq_picture::{Cell, Hint, Row, Title};
use cmwq_render::{Label, column_count, time_at, time_count};
use cmwq_types::{NoMemory, Scenario};
use std::alloc::Global;

/// Whose names a picture has, when its columns begin and end, how labels and columns stand, and whether labels stand at the right too.
#[derive(Clone, Copy)]
pub(crate) struct Frame<'a> {
    pub(crate) scenario: &'a Scenario,
    pub(crate) edges: &'a [u64],
    pub(crate) grid: Grid,
    pub(crate) large: bool,
}

impl Frame<'_> {
    /// Writes a line for each time, with the time over it and under it, where the rows end so far down.
    pub(crate) fn push_times(
        &self,
        alloc: Global,
        text: &mut String,
        step: usize,
        bottom: u128,
    ) -> Result<(), NoMemory>
        requires step { 2 ≤ step }
        requires bottom { bottom < 2 ^ 110 }
        ensures { OnOk result (string_bytes text.new ≡ string_bytes text.old ++ time_marks self.now.edges.now self.now.grid step bottom (time_count step self.now.edges.now)) }
    {
        for number in 0..time_count(step, self.edges) {
            self.push_time_at(alloc, text, number * step, bottom)?;
        }
        Ok(())
    }

    /// Writes the line and the time of a column's left edge.
    fn push_time_at(
        &self,
        alloc: Global,
        text: &mut String,
        column: usize,
        bottom: u128,
    ) -> Result<(), NoMemory>
        requires { bottom < 2 ^ 110 }
        ensures { OnOk result (string_bytes text.new ≡ string_bytes text.old ++ time_mark (x_of self.now.grid column) bottom (time_at self.now.edges.now column)) }
    {
        let x = self.grid.x_of(column);
        let time = time_at(self.edges, column);
        push_time(alloc, text, x, bottom, time)
    }

    /// Writes each row, with these lines.
    pub(crate) fn push_rows(
        &self,
        alloc: Global,
        text: &mut String,
        hints: &[Hint],
        rows: &[Row],
    ) -> Result<(), NoMemory>
        ensures { OnOk result (string_bytes text.new ≡ string_bytes text.old ++ rows_svg self.now.scenario.now self.now.edges.now self.now.grid self.now.large hints.now 0 rows.now) }
    {
        for (at, row) in rows.iter().enumerate() {
            self.push_row(alloc, text, hints, at, row)?;
        }
        Ok(())
    }

    /// Writes a row: its label and its rectangles, and its label again where the picture is large.
    fn push_row(
        &self,
        alloc: Global,
        text: &mut String,
        hints: &[Hint],
        at: usize,
        row: &Row,
    ) -> Result<(), NoMemory>
        ensures { OnOk result (string_bytes text.new ≡ string_bytes text.old ++ row_svg self.now.scenario.now self.now.edges.now self.now.grid self.now.large hints.now at row.now) }
    {
        let label = Label {
            scenario: self.scenario,
            title: row.title,
        };
        let label = label.to_string(alloc)?;
        let y = y_of(at as u128) + 14;
        let words = PlacedText {
            class: "name",
            x: self.grid.label_edge(),
            y,
            text: label.as_str(),
        };
        write!(text, "{words}")?;
        self.push_bars(alloc, text, hints, at, row.title, &row.cells)?;
        let x = self.grid.x_of(column_count(self.edges)) + 8;
        push_label_again(text, self.large, x, y, label.as_str())
    }

    /// Writes the rectangles of a row, with these lines.
    fn push_bars(
        &self,
        alloc: Global,
        text: &mut String,
        hints: &[Hint],
        at: usize,
        row: Title,
        cells: &[Cell],
    ) -> Result<(), NoMemory>
        ensures { OnOk result (string_bytes text.new ≡ string_bytes text.old ++ bars_svg self.now.scenario.now self.now.edges.now self.now.grid at row hints.now (bars cells.now)) }
    {
        let mut last = None;
        let mut left = hints;
        for (column, cell) in cells.iter().enumerate() {
            if goes_on(last, *cell) {
                last = grown(last, column + 1);
            } else {
                left = self.push_ended(alloc, text, left, at, row, last)?;
                last = bar_begun(*cell, column);
            }
        }
        self.push_ended(alloc, text, left, at, row, last)?;
        Ok(())
    }

    /// Writes the rectangle that has come to its end, if there is one, with its line of these. Answers the lines that are left.
    fn push_ended<'h>(
        &self,
        alloc: Global,
        text: &mut String,
        hints: &'h [Hint],
        at: usize,
        row: Title,
        last: Option<Bar>,
    ) -> Result<&'h [Hint], NoMemory>
        requires { IfSome last (λ bar. bar.from ≤ bar.to) }
        ensures left { IfOk result (λ left. left.now ≡ hints_after at hints.now last) }
        ensures text { OnOk result (string_bytes text.new ≡ string_bytes text.old ++ bars_svg self.now.scenario.now self.now.edges.now self.now.grid at row hints.now (bar_ended last)) }
    {
        let Some(bar) = last else {
            return Ok(hints);
        };
        let (hint, left) = hint_for(hints, at, bar.cell);
        self.push_bar(alloc, text, at, row, hint, bar)?;
        Ok(left)
    }

    /// Writes a rectangle, what is told of it, and the name of who it is of.
    fn push_bar(
        &self,
        alloc: Global,
        text: &mut String,
        at: usize,
        row: Title,
        hint: &str,
        bar: Bar,
    ) -> Result<(), NoMemory>
        requires { bar.from ≤ bar.to }
        ensures { OnOk result (string_bytes text.new ≡ string_bytes text.old ++ bar_svg self.now.scenario.now self.now.edges.now self.now.grid at row hint.now bar) }
    {
        let title = BarTitle {
            scenario: self.scenario,
            edges: self.edges,
            row,
            hint,
            bar,
        };
        let title = title.to_string(alloc)?;
        let x = self.grid.x_of(bar.from);
        let y = y_of(at as u128);
        let wide = self.grid.wide(bar.to - bar.from);
        let rectangle = Rectangle {
            class: class_of(bar.cell),
            area: Area {
                x,
                y: y + 3,
                width: wide,
                height: 14,
            },
            title: title.as_str(),
        };
        write!(text, "{rectangle}")?;
        push_name(text, name_in(self.scenario, row, bar.cell), x, y + 14, wide)
    }
}

/// The name that stands in a rectangle: of who burns, of who set the timer, or of the work whose row it is.
fn name_in(scenario: &Scenario, row: Title, cell: Cell) -> &str
    ensures { result.now ≡ name_in scenario.now row cell }
{
    match (row, cell) {
        (_, Cell::Burner(work) | Cell::Armed(work)) => scenario.work_name(work.0 as usize),
        (Title::Work(work) | Title::Pending(work), Cell::Does(_)) => {
            scenario.work_name(work.0 as usize)
        }
        _ => "",
    }
}

/// Writes a name in the middle of so many pixels, where there is one and it has room.
fn push_name(text: &mut String, name: &str, x: u128, y: u128, wide: u128) -> Result<(), NoMemory>
    requires x { x < 2 ^ 110 }
    requires wide { wide < 2 ^ 110 }
    ensures { OnOk result (string_bytes text.new ≡ string_bytes text.old ++ name_svg name.now x y wide) }
{
    if name.is_empty() || 8 * name.len() as u128 > wide {
        return Ok(());
    }
    let words = PlacedText {
        class: "who",
        x: x + wide / 2,
        y,
        text: name,
    };
    write!(text, "{words}")?;
    Ok(())
}

/// Writes a label at the right, where the picture is large.
fn push_label_again(
    text: &mut String,
    large: bool,
    x: u128,
    y: u128,
    label: &str,
) -> Result<(), NoMemory>
    ensures { OnOk result (string_bytes text.new ≡ string_bytes text.old ++ label_again large x y label.now) }
{
    if large {
        let words = PlacedText {
            class: "again",
            x,
            y,
            text: label,
        };
        write!(text, "{words}")?;
    }
    Ok(())
}

/// Writes a time and its line, which ends so far down.
fn push_time(
    alloc: Global,
    text: &mut String,
    x: u128,
    bottom: u128,
    time: u64,
) -> Result<(), NoMemory>
    requires { bottom < 2 ^ 110 }
    ensures { OnOk result (string_bytes text.new ≡ string_bytes text.old ++ time_mark x bottom time) }
{
    let time = format!(in alloc; "{time}")?;
    let line = GridLine { x, bottom };
    let above = PlacedText {
        class: "time",
        x,
        y: 16,
        text: time.as_str(),
    };
    let below = PlacedText {
        class: "time",
        x,
        y: bottom + 16,
        text: time.as_str(),
    };
    write!(text, "{line}{above}{below}")?;
    Ok(())
}
