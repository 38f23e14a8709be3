//! How the rows of a picture are named.
ghost use Rattle.cmwq_render.specs.Labels.{label, lettered, longest};
ghost use Rattle.cmwq_render.specs.Letters.{letter_before, letter_shown};
ghost use Rattle.std.specs.Prelude.{◌≡◌, ◌++◌, IfOk, OnOk, Some, max};

use crate::letters::letter_shown;
use cmwq_picture::{Row, Title};
use cmwq_types::{NoMemory, Scenario};
use std::alloc::Global;
use std::fmt;

/// Whose row it is, for a reader of the scenario: the work's name, with `+` for its pending instance, `cpu N`, `worker P/N`,
/// `rescuer QUEUE`, `frozen`, `pressure`, or `actor`. P and N are numbers.
///
/// A work or queue that the scenario doesn't have has no name. The format is this project's own.
#[derive(Clone, Copy)]
pub struct Label<'a> {
    /// The scenario whose names it has.
    pub scenario: &'a Scenario,
    /// Whose row it is.
    pub title: Title,
}

impl fmt::Display for Label<'_> {
    ghost output = { λ l. Some (label l.scenario.now l.title) };

    fn fmt<W: fmt::Write>(&self, f: &mut fmt::Formatter<W>) -> fmt::Result {
        match self.title {
            Title::Work(work) => f.write_str(self.scenario.work_name(work.0 as usize)),
            Title::Pending(work) => {
                let name = self.scenario.work_name(work.0 as usize);
                write!(f, "{name}+")
            }
            Title::Cpu(cpu) => write!(f, "cpu {cpu}"),
            Title::Worker { pool, worker } => write!(f, "worker {pool}/{worker}"),
            Title::Rescuer(queue) => {
                let name = self.scenario.queue_name(queue.0 as usize);
                write!(f, "rescuer {name}")
            }
            Title::Frozen => f.write_str("frozen"),
            Title::Pressed => f.write_str("pressure"),
            Title::Actor => f.write_str("actor"),
        }
    }
}

/// Writes the label of a row, behind the letter of its work, where works have these.
pub(crate) fn push_lettered(
    alloc: Global,
    line: &mut Vec<u8>,
    scenario: &Scenario,
    letters: &[u8],
    title: Title,
) -> Result<(), NoMemory>
    ensures { OnOk result (line.new.items ≡ line.old.items ++ lettered scenario.now letters.now title) }
{
    push_letter(line, letter_shown(scenario, letters, title))?;
    let label = Label { scenario, title };
    let text = label.to_string(alloc)?;
    line.extend_from_slice(text.as_bytes())?;
    Ok(())
}

/// Writes the letter, if there is one, and a space behind it.
fn push_letter(line: &mut Vec<u8>, letter: Option<u8>) -> Result<(), NoMemory>
    ensures { OnOk result (line.new.items ≡ line.old.items ++ letter_before letter) }
{
    if let Some(letter) = letter {
        line.push(letter)?;
        line.push(b' ')?;
    }
    Ok(())
}

/// How many bytes the longest label of the rows has, where works have these letters: 0 where there is no row. The only error is want of
/// memory.
pub fn label_width(
    alloc: Global,
    scenario: &Scenario,
    letters: &[u8],
    rows: &[Row],
) -> Result<usize, NoMemory>
    ensures { IfOk result (λ width. width ≡ longest scenario.now letters.now rows.now) }
{
    let mut width = 0;
    for row in rows {
        let mut label = Vec::new(alloc);
        push_lettered(alloc, &mut label, scenario, letters, row.title)?;
        width = width.max(label.len());
    }
    Ok(width)
}
