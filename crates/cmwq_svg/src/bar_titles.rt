//! What is told of a rectangle where a reader points at it.
ghost use Rattle.cmwq_svg.specs.BarTitles.{bar_title, deed, hint_for, hint_text, hints_behind, hints_left, subject};
ghost use Rattle.std.specs.Prelude.{◌≡◌, Some};

use crate::bars::Bar;
use cmwq_picture::{Cell, Hint, Title};
use cmwq_render::{Label, meaning, time_at};
use cmwq_types::Scenario;
use std::fmt;

/// Who does what in a rectangle of a row over columns with these edges, and from when to when.
#[derive(Clone, Copy)]
pub(crate) struct BarTitle<'a> {
    pub(crate) scenario: &'a Scenario,
    pub(crate) edges: &'a [u64],
    pub(crate) row: Title,
    /// The line that is said of it, or nothing.
    pub(crate) hint: &'a str,
    pub(crate) bar: Bar,
}

impl fmt::Display for BarTitle<'_> {
    ghost output = { λ t. Some (bar_title t.scenario.now t.edges.now t.row t.hint.now t.bar) };

    fn fmt<W: fmt::Write>(&self, f: &mut fmt::Formatter<W>) -> fmt::Result {
        let deed = Deed {
            scenario: self.scenario,
            row: self.row,
            cell: self.bar.cell,
        };
        let from = time_at(self.edges, self.bar.from);
        let to = time_at(self.edges, self.bar.to);
        let hint = self.hint;
        write!(f, "{hint}{deed}, from {from} to {to}")
    }
}

/// Who does what.
#[derive(Clone, Copy)]
struct Deed<'a> {
    scenario: &'a Scenario,
    row: Title,
    cell: Cell,
}

impl fmt::Display for Deed<'_> {
    ghost output = { λ d. Some (deed d.scenario.now d.row d.cell) };

    fn fmt<W: fmt::Write>(&self, f: &mut fmt::Formatter<W>) -> fmt::Result {
        let scenario = self.scenario;
        let subject = Subject {
            scenario,
            row: self.row,
        };
        match self.cell {
            Cell::Does(sign) => {
                let does = meaning(Cell::Does(sign));
                write!(f, "{subject} {does}")
            }
            Cell::Burner(work) => {
                let name = scenario.work_name(work.0 as usize);
                write!(f, "{name} burns on {subject}")
            }
            Cell::Acts => f.write_str(meaning(Cell::Acts)),
            Cell::Lasts => write!(f, "{subject}"),
            Cell::Armed(by) => {
                let by = scenario.work_name(by.0 as usize);
                write!(f, "{subject} on a timer, set by {by}")
            }
            Cell::Empty => f.write_str(""),
        }
    }
}

/// Whose row it is: a work's both rows are the work's.
#[derive(Clone, Copy)]
struct Subject<'a> {
    scenario: &'a Scenario,
    row: Title,
}

impl fmt::Display for Subject<'_> {
    ghost output = { λ s. Some (subject s.scenario.now s.row) };

    fn fmt<W: fmt::Write>(&self, f: &mut fmt::Formatter<W>) -> fmt::Result {
        match self.row {
            Title::Work(work) | Title::Pending(work) => {
                f.write_str(self.scenario.work_name(work.0 as usize))
            }
            title => {
                let label = Label {
                    scenario: self.scenario,
                    title,
                };
                write!(f, "{label}")
            }
        }
    }
}

/// The line that is said of a rectangle of the row with this cell, or nothing, and the lines that are left behind it.
pub(crate) fn hint_for(hints: &[Hint], at: usize, cell: Cell) -> (&str, &[Hint])
    ensures hint { result.0.now ≡ hint_for at hints.now cell }
    ensures left { result.1.now ≡ hints_left at hints.now cell }
{
    if cell.is_waiting() {
        next_hint(hints, at)
    } else {
        ("", hints)
    }
}

/// The next line of the row, or nothing, and those that are left behind it.
fn next_hint(hints: &[Hint], at: usize) -> (&str, &[Hint])
    ensures hint { result.0.now ≡ hint_text at hints.now }
    ensures left { result.1.now ≡ hints_behind at hints.now }
{
    for (number, hint) in hints.iter().enumerate() {
        if hint.row == at {
            return (hint.text.as_str(), &hints[number + 1..]);
        }
    }
    ("", &[])
}
