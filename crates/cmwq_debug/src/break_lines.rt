//! The breaks that are set, as lines.
ghost use Rattle.cmwq_debug.specs.BreakLines.{break_line, break_lines, break_words, list_text};
ghost use Rattle.std.specs.Prelude.{◌≡◌, ◌++◌, IfOk, OnOk, string_bytes};

use crate::breaks::Break;
use cmwq_types::{NoMemory, Scenario};
use std::alloc::Global;

/// The breaks that are set, by their numbers: a line each, as it was given. The only error is want of memory.
pub(crate) fn list_text(
    alloc: Global,
    scenario: &Scenario,
    breaks: &[Option<Break>],
) -> Result<String, NoMemory>
    ensures { IfOk result (λ text. string_bytes text ≡ list_text scenario.now breaks.now) }
{
    let mut text = String::new(alloc);
    push_lines(&mut text, scenario, breaks)?;
    if text.is_empty() {
        text.push_str("no breaks\n")?;
    }
    Ok(text)
}

/// Appends a line for each break.
fn push_lines(
    text: &mut String,
    scenario: &Scenario,
    breaks: &[Option<Break>],
) -> Result<(), NoMemory>
    ensures { OnOk result (string_bytes text.new ≡ string_bytes text.old ++ break_lines scenario.now 0 breaks.now) }
{
    for number in 0..breaks.len() {
        push_line(text, scenario, number, breaks[number])?;
    }
    Ok(())
}

/// Appends the line of a place for a break, if a break is there.
fn push_line(
    text: &mut String,
    scenario: &Scenario,
    number: usize,
    there: Option<Break>,
) -> Result<(), NoMemory>
    ensures { OnOk result (string_bytes text.new ≡ string_bytes text.old ++ break_line scenario.now number there) }
{
    let Some(on) = there else {
        return Ok(());
    };
    write!(text, "break {number} ")?;
    push_words(text, scenario, on)?;
    text.push_str("\n")?;
    Ok(())
}

/// Appends the break as it was given, behind the command's word.
fn push_words(text: &mut String, scenario: &Scenario, on: Break) -> Result<(), NoMemory>
    ensures { OnOk result (string_bytes text.new ≡ string_bytes text.old ++ break_words scenario.now on) }
{
    match on {
        Break::OnWork(work, kind) => {
            let name = scenario.work_name(work.0 as usize);
            let kind = kind.as_str();
            write!(text, "work {name} event {kind}")?;
        }
        Break::OnTime(time) => write!(text, "time {time}")?,
        Break::OnRefusal => text.push_str("refusal")?,
        Break::OnActivation(work) => {
            let name = scenario.work_name(work.0 as usize);
            write!(text, "activates {name}")?;
        }
    }
    Ok(())
}
