//! Rows of for whom works waited, as text or as JSON.
ghost use Rattle.cmwq_times.specs.TimesText.{other_words, rows_below, whom_of, whom_row_if, whom_rows, whom_rows_if};
ghost use Rattle.std.specs.Prelude.{◌++◌, Some, length};

use cmwq_blame::Blame;
use cmwq_reports::Format;
use cmwq_types::Scenario;
use std::fmt;

/// The rows of for whom the works of a run waited, if that is told.
#[derive(Clone, Copy)]
pub(crate) struct WhomRows<'a> {
    pub(crate) format: Format,
    pub(crate) scenario: &'a Scenario,
    pub(crate) blame: &'a Option<Blame>,
}

impl fmt::Display for WhomRows<'_> {
    ghost output = { λ rows. Some (whom_rows_if rows.format rows.scenario.now rows.blame.now) };

    fn fmt<W: fmt::Write>(&self, f: &mut fmt::Formatter<W>) -> fmt::Result {
        let WhomRows {
            format,
            scenario,
            blame,
        } = *self;
        match blame {
            Some(blame) => {
                let rows = BlameRows {
                    format,
                    scenario,
                    blame,
                };
                write!(f, "{rows}")
            }
            None => Ok(()),
        }
    }
}

/// The rows of for whom the works of a run waited.
#[derive(Clone, Copy)]
struct BlameRows<'a> {
    format: Format,
    scenario: &'a Scenario,
    blame: &'a Blame,
}

impl fmt::Display for BlameRows<'_> {
    ghost output = { λ rows. Some (whom_rows rows.format rows.scenario.now rows.blame.now) };

    fn fmt<W: fmt::Write>(&self, f: &mut fmt::Formatter<W>) -> fmt::Result {
        let scenario = self.scenario;
        for work in 0..scenario.works.len() {
            let rows = WorkRows {
                format: self.format,
                scenario,
                blame: self.blame,
                work,
            };
            write!(f, "{rows}")?;
        }
        Ok(())
    }
}

/// The rows of for whom a work waited: for nobody, then for the works by number.
#[derive(Clone, Copy)]
struct WorkRows<'a> {
    format: Format,
    scenario: &'a Scenario,
    blame: &'a Blame,
    work: usize,
}

impl fmt::Display for WorkRows<'_> {
    ghost output = { λ rows. Some (whom_of rows.format rows.scenario.now rows.blame.now rows.work) };

    fn fmt<W: fmt::Write>(&self, f: &mut fmt::Formatter<W>) -> fmt::Result {
        let nobody = self.row(None);
        write!(f, "{nobody}")?;
        let scenario = self.scenario;
        for other in 0..scenario.works.len() {
            let row = self.row(Some(other));
            write!(f, "{row}")?;
        }
        Ok(())
    }
}

impl<'a> WorkRows<'a> {
    ghost use Rattle.cmwq_blame.specs.Blame.{waited};
    ghost use Rattle.std.specs.Prelude.{◌≡◌};

    /// The row of the other work, or of nobody.
    fn row(&self, other: Option<usize>) -> WhomRow<'a>
        ensures format { result.format ≡ self.now.format }
        ensures scenario { result.scenario.now ≡ self.now.scenario.now }
        ensures work { result.work ≡ self.now.work }
        ensures other { result.other ≡ other }
        ensures waited { result.waited ≡ waited self.now.blame.now self.now.work other }
    {
        WhomRow {
            format: self.format,
            scenario: self.scenario,
            work: self.work,
            other,
            waited: self.blame.waited(self.work, other),
        }
    }
}

/// The row of for how long a work waited for another one, or for nobody; none where it didn't.
#[derive(Clone, Copy)]
struct WhomRow<'a> {
    format: Format,
    scenario: &'a Scenario,
    work: usize,
    other: Option<usize>,
    waited: u64,
}

impl fmt::Display for WhomRow<'_> {
    ghost output = { λ row. Some (whom_row_if row.format row.scenario.now row.work row.other row.waited) };

    fn fmt<W: fmt::Write>(&self, f: &mut fmt::Formatter<W>) -> fmt::Result {
        if self.waited == 0 {
            return Ok(());
        }
        let work = self.scenario.work_name(self.work);
        let waited = self.waited;
        let other = OtherWords {
            format: self.format,
            scenario: self.scenario,
            other: self.other,
        };
        match self.format {
            Format::Text => write!(f, "{work} waited {waited} for {other}\n"),
            Format::Json => {
                write!(
                    f,
                    "{{\"work\":\"{work}\",\"waited\":{waited},\"for\":{other}}}\n"
                )
            }
        }
    }
}

/// The other work, or nobody.
#[derive(Clone, Copy)]
struct OtherWords<'a> {
    format: Format,
    scenario: &'a Scenario,
    other: Option<usize>,
}

impl fmt::Display for OtherWords<'_> {
    ghost output = { λ words. Some (other_words words.format words.scenario.now words.other) };

    fn fmt<W: fmt::Write>(&self, f: &mut fmt::Formatter<W>) -> fmt::Result {
        match self.other {
            Some(other) => {
                let name = self.scenario.work_name(other);
                match self.format {
                    Format::Text => f.write_str(name),
                    Format::Json => write!(f, "\"{name}\""),
                }
            }
            None => match self.format {
                Format::Text => f.write_str("-"),
                Format::Json => f.write_str("null"),
            },
        }
    }
}
