//! A change that no reply tells, and its line.
ghost use Rattle.cmwq_tell.specs.Hidden.{change_line, change_text, timer_cpu_text};
ghost use Rattle.cmwq_tell.specs.RunTold.{change_lines};
ghost use Rattle.std.specs.Prelude.{◌≡◌, Some};

use cmwq_table::{PlaceWords, RunWords};
use cmwq_types::{Place, Scenario, WorkId, WorkRun};
use std::fmt;

/// A change that an instruction makes, and its reply doesn't tell.
#[derive(Clone, Copy)]
pub enum Change {
    /// Time passed, and it is so many ticks now.
    Now(u64),
    /// The work starts to run here.
    Started { work: WorkId, run: WorkRun },
    /// The work was inactive, and is listed in this pool now.
    Activated { work: WorkId, pool: u8 },
    /// The work is pending from now on, here.
    Placed { work: WorkId, place: Place },
}

/// The lines of changes, for a reader of the scenario. Each begins with `#   `.
#[derive(Clone, Copy)]
pub(crate) struct ChangeLines<'a> {
    pub(crate) scenario: &'a Scenario,
    pub(crate) changes: &'a [Change],
}

impl fmt::Display for ChangeLines<'_> {
    ghost output = { λ lines. Some (change_lines lines.scenario.now lines.changes.now) };

    fn fmt<W: fmt::Write>(&self, f: &mut fmt::Formatter<W>) -> fmt::Result {
        for change in self.changes {
            let words = ChangeWords {
                scenario: self.scenario,
                change: *change,
            };
            write!(f, "#   {words}\n")?;
        }
        Ok(())
    }
}

/// What a change's line says.
#[derive(Clone, Copy)]
struct ChangeWords<'a> {
    scenario: &'a Scenario,
    change: Change,
}

impl fmt::Display for ChangeWords<'_> {
    ghost output = { λ words. Some (change_text words.scenario.now words.change) };

    fn fmt<W: fmt::Write>(&self, f: &mut fmt::Formatter<W>) -> fmt::Result {
        match self.change {
            Change::Now(now) => write!(f, "now {now}"),
            Change::Started { work, run } => {
                let work = self.scenario.work_name(work.0 as usize);
                let words = RunWords(Some(run));
                write!(f, "{work} {words}")
            }
            Change::Activated { work, pool } => {
                let work = self.scenario.work_name(work.0 as usize);
                write!(f, "{work} activated {pool}")
            }
            Change::Placed { work, place } => {
                let work = self.scenario.work_name(work.0 as usize);
                let words = PlaceWords(Some(place));
                let cpu = CpuWords(place);
                write!(f, "{work} {words}{cpu}")
            }
        }
    }
}

/// The CPU on which a timer runs, behind the words of its place.
#[derive(Clone, Copy)]
struct CpuWords(Place);

impl fmt::Display for CpuWords {
    ghost output = { λ words. Some (timer_cpu_text words.0) };

    fn fmt<W: fmt::Write>(&self, f: &mut fmt::Formatter<W>) -> fmt::Result {
        match self.0 {
            Place::Timer { cpu, .. } => write!(f, " cpu {cpu}"),
            _ => Ok(()),
        }
    }
}
