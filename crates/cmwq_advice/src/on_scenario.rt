//! What can be done about a fault that shows in the scenario.
ghost use Rattle.cmwq_advice.specs.Advice.{IsOnScenario, actors_line, asked_work, forbidden_work, several_line, work_asked, works_asked, works_line};
ghost use Rattle.cmwq_grammar.specs.Instructions.{work_names};
ghost use Rattle.cmwq_types.specs.Faults.{IsValid};
ghost use Rattle.cmwq_types.specs.declared.limits.TheConstants.{MAX_WORKS};
ghost use Rattle.std.specs.Prelude.{◌≡◌, ◌≤◌, IfOk, length, map};

use crate::calling::names_line;
use crate::line::line_of;
use crate::past_end::past_end;
use cmwq_draw::undeclared;
use cmwq_exploration::Never;
use cmwq_question::Question;
use cmwq_request::request::Request;
use cmwq_streams::PlayError;
use cmwq_tasks::Task;
use cmwq_types::{NoMemory, Scenario};
use itoa::Buffer;
use std::alloc::Global;

/// What can be done about a fault that shows in the scenario of this file. It fails only for want of memory.
pub(crate) fn on_scenario(
    alloc: Global,
    request: &Request<'_>,
    file: &str,
    fault: PlayError,
    scenario: Scenario,
) -> Result<Vec<u8>, NoMemory>
    requires { IsValid scenario }
    ensures { IfOk result (λ told. IsOnScenario request.now file.now fault scenario told.items) }
{
    match fault {
        PlayError::Actors => actors_line(alloc, file, scenario.actors.len()),
        PlayError::NoSuchWork => {
            let word = asked_work(alloc, request, &scenario)?;
            works_line(alloc, file, &scenario, &word)
        }
        PlayError::PastEnd => past_end(alloc, request, scenario),
        _ => Ok(Vec::new(alloc)),
    }
}

const NO_ACTOR: &str = " has no actor: `actor NAME` and its instructions are missing at the end";

const MANY_ACTORS: &str =
    " actors: this command takes one; `cmwq play` and `cmwq explore` take several";

/// How many actors there are, and what takes so many.
fn actors_line(alloc: Global, file: &str, count: usize) -> Result<Vec<u8>, NoMemory>
    ensures { IfOk result (λ line. line.items ≡ actors_line file.now count) }
{
    if count == 0 {
        return line_of(alloc, &[file, NO_ACTOR]);
    }
    several_line(alloc, file, count)
}

/// That there are so many actors, and what takes them.
fn several_line(alloc: Global, file: &str, count: usize) -> Result<Vec<u8>, NoMemory>
    ensures { IfOk result (λ line. line.items ≡ several_line file.now count) }
{
    let mut line = String::from_str(alloc, "  ")?;
    line.push_str(file)?;
    line.push_str(" has ")?;
    line.push_str(Buffer::new().format(count))?;
    line.push_str(MANY_ACTORS)?;
    line.push_str("\n")?;
    Ok(line.into_bytes())
}

/// The name of the work that was asked for, or the first of the names that isn't declared; no bytes where none was asked for.
fn asked_work(
    alloc: Global,
    request: &Request<'_>,
    scenario: &Scenario,
) -> Result<Vec<u8>, NoMemory>
    requires { length scenario.now.works ≤ MAX_WORKS }
    ensures { IfOk result (λ word. word.items ≡ asked_work scenario.now request.now) }
{
    match request {
        Request::Do {
            file: _,
            task: Task::Why(inquiry),
        } => bytes_of(alloc, work_asked(inquiry.question)),
        Request::Do {
            file: _,
            task: Task::Draw(drawing),
        } => works_asked(alloc, scenario, drawing.works),
        Request::Explore {
            file: _,
            exploration,
        } => bytes_of(alloc, forbidden_work(scenario, exploration.never)),
        _ => Ok(Vec::new(alloc)),
    }
}

/// The name of the work that an exploration asks for, or the first of its two that isn't declared; no text where it asks for none.
fn forbidden_work<'a>(scenario: &Scenario, never: Never<'a>) -> &'a str
    ensures { result.now ≡ forbidden_work scenario.now never.entry }
{
    match never {
        Never::After { work, .. } | Never::Runs(work) => work,
        Never::Together(one, other) => {
            if scenario.work_named(one.as_bytes()).is_none() {
                one
            } else {
                other
            }
        }
        Never::Stuck => "",
    }
}

/// The first of the names of the works that were to be drawn that isn't declared; no bytes where there is none.
fn works_asked(alloc: Global, scenario: &Scenario, names: Option<&str>) -> Result<Vec<u8>, NoMemory>
    requires { length scenario.now.works ≤ MAX_WORKS }
    ensures { IfOk result (λ word. word.items ≡ works_asked scenario.now names.entry) }
{
    let Some(names) = names else {
        return Ok(Vec::new(alloc));
    };
    match undeclared(alloc, scenario, names)? {
        Some(name) => Ok(name),
        None => Ok(Vec::new(alloc)),
    }
}

/// The text's bytes.
pub(crate) fn bytes_of(alloc: Global, text: &str) -> Result<Vec<u8>, NoMemory>
    ensures { IfOk result (λ bytes. bytes.items ≡ text.now) }
{
    Ok(String::from_str(alloc, text)?.into_bytes())
}

/// The name of the work that the question asks for, and no text where it asks for none.
fn work_asked<'a>(question: Question<'a>) -> &'a str
    ensures { result.now ≡ work_asked question.entry }
{
    match question {
        Question::Work(name) => name,
        Question::Flush(_) => "",
    }
}

/// That no work of the file's scenario is called so, and its works, the one first whose name is most like the word.
fn works_line(
    alloc: Global,
    file: &str,
    scenario: &Scenario,
    word: &[u8],
) -> Result<Vec<u8>, NoMemory>
    ensures { IfOk result (λ line. line.items ≡ works_line file.now scenario.now word.now) }
{
    let names = work_names(alloc, scenario)?;
    names_line(alloc, file, "work item", &names, word)
}

/// The names of the works.
fn work_names(alloc: Global, scenario: &Scenario) -> Result<Vec<&[u8]>, NoMemory>
    ensures { IfOk result (λ names. map (λ name. name.now) names.items ≡ work_names scenario.now) }
{
    let mut names = Vec::new(alloc);
    for work in &scenario.works {
        names.push(work.name.as_bytes())?;
    }
    Ok(names)
}
