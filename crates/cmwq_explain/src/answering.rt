//! What is said of a state, to a question.
ghost use Rattle.cmwq_explain.specs.Explained.{IsUnknown, behind_first_line, has_stopped, is_unfinished, said_of, with_stop};
ghost use Rattle.cmwq_explain.specs.Changes.{words_said};
ghost use Rattle.std.specs.Prelude.{◌≡◌, ◌↔◌, IfOk, IsTrue, option_map, string_bytes};

use crate::sayer::Sayer;
use cmwq_flush_waits::flush_text;
use cmwq_question::Question;
use cmwq_reads::is_spent;
use cmwq_table::Reads;
use cmwq_types::{NoMemory, Scenario, WorkId};
use cmwq_why::waits;
use cmwq_why_text::work_text;
use std::alloc::Global;

/// Whether the question is after a work that isn't declared.
pub(crate) fn is_unknown(question: Question<'_>, scenario: &Scenario) -> bool
    ensures { IsTrue result ↔ IsUnknown question.entry scenario.now }
{
    match question {
        Question::Work(name) => scenario.work_named(name.as_bytes()).is_none(),
        Question::Flush(_) => false,
    }
}

/// Says of each state what is to be answered to the question.
#[derive(Clone, Copy)]
pub(crate) struct Asked<'a>(pub(crate) Question<'a>);

impl Sayer for Asked<'_> {
    ghost use Rattle.cmwq_explain.specs.Explained.{said_to};

    ghost says = { λ asked S is_last s. said_to asked.0 S is_last s };

    fn say<R: Reads>(
        &self,
        alloc: Global,
        machine: &R,
        is_last: bool,
    ) -> Result<Option<String>, NoMemory> {
        let said = said_of(alloc, self.0, machine)?;
        if has_stopped(alloc, self.0, machine, is_last)? {
            return with_stop(alloc, said);
        }
        Ok(said)
    }
}

/// What is said of the machine's state, wherever in the run it is.
fn said_of<R: Reads>(
    alloc: Global,
    question: Question<'_>,
    machine: &R,
) -> Result<Option<String>, NoMemory>
    ensures { IfOk result (λ said. words_said said ≡ said_of question.entry (R.loaded machine.now) (R.state machine.now)) }
{
    match question {
        Question::Work(name) => match machine.scenario().work_named(name.as_bytes()) {
            Some(w) => Ok(Some(work_text(alloc, machine, WorkId(w as u16))?)),
            None => Ok(None),
        },
        Question::Flush(flush) => flush_text(alloc, machine, flush as usize),
    }
}

/// Whether the actor has stopped before what is asked for is finished, though there are steps left.
fn has_stopped<R: Reads>(
    alloc: Global,
    question: Question<'_>,
    machine: &R,
    is_last: bool,
) -> Result<bool, NoMemory>
    ensures { IfOk result (λ has. has ≡ has_stopped question.entry (R.loaded machine.now) is_last (R.state machine.now)) }
{
    if !is_last || is_spent(machine) {
        return Ok(false);
    }
    is_unfinished(alloc, question, machine)
}

/// Whether the work is pending or runs, or the flush waits for some instance.
fn is_unfinished<R: Reads>(
    alloc: Global,
    question: Question<'_>,
    machine: &R,
) -> Result<bool, NoMemory>
    ensures { IfOk result (λ is. is ≡ is_unfinished question.entry (R.loaded machine.now) (R.state machine.now)) }
{
    match question {
        Question::Work(name) => match machine.scenario().work_named(name.as_bytes()) {
            Some(w) => Ok(machine.pending_of(w).is_some() || machine.running_of(w).is_some()),
            None => Ok(false),
        },
        Question::Flush(flush) => match machine.flush_of(flush as usize) {
            Some(target) => Ok(!waits(alloc, machine, target)?.is_empty()),
            None => Ok(false),
        },
    }
}

/// What is said, if it is something, with the words that the actor has stopped.
fn with_stop(alloc: Global, said: Option<String>) -> Result<Option<String>, NoMemory>
    ensures { IfOk result (λ longer. words_said longer ≡ option_map with_stop (words_said said)) }
{
    match said {
        Some(text) => Ok(Some(behind_first_line(alloc, "; the actor has stopped", &text)?)),
        None => Ok(None),
    }
}

/// The text with the words behind its first line.
fn behind_first_line(alloc: Global, words: &str, text: &str) -> Result<String, NoMemory>
    ensures { IfOk result (λ longer. string_bytes longer ≡ behind_first_line words.now text.now) }
{
    let (line, rest) = text.split_once('\n').unwrap_or((text, ""));
    Ok(format!(in alloc; "{line}{words}\n{rest}")?)
}
