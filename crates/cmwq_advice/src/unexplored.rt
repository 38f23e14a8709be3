//! What follows the line that says that an exploration can't be done.
ghost use Rattle.cmwq_advice.specs.Advice.{IsOnUnexplored, actor_forbidden, actors_asked, actors_preceding, first_unknown, unexplored_lines, unknown_line};
ghost use Rattle.cmwq_grammar.specs.Instructions.{actor_names};
ghost use Rattle.std.specs.Prelude.{◌≡◌, ◌++◌, IfOk, OnOk, map, option_map};

use crate::calling::names_line;
use cmwq_asm::{AsmError, assemble};
use cmwq_exploration::{Exploration, Never, Precedence};
use cmwq_fitting::is_known;
use cmwq_request::request::Request;
use cmwq_types::{NoMemory, Scenario};
use std::alloc::Global;

/// Returns what can be done about an exploration of this text that names an actor that isn't declared: a line that lists the actors. It is empty where each is
/// declared, and for other requests. It fails only for want of memory.
pub fn on_unexplored(alloc: Global, request: &Request<'_>, text: &[u8]) -> Result<Vec<u8>, NoMemory>
    ensures { IfOk result (λ told. IsOnUnexplored request.now text.now told.items) }
{
    let Request::Explore { file, exploration } = request else {
        return Ok(Vec::new(alloc));
    };
    match assemble(alloc, text) {
        Ok(scenario) => unexplored_lines(alloc, file, &scenario, exploration),
        Err(AsmError::At { .. }) => Ok(Vec::new(alloc)),
        Err(AsmError::NoMemory) => Err(NoMemory),
    }
}

/// Returns the line that lists the scenario's actors, where the exploration names another.
fn unexplored_lines(
    alloc: Global,
    file: &str,
    scenario: &Scenario,
    exploration: &Exploration<'_>,
) -> Result<Vec<u8>, NoMemory>
    ensures { IfOk result (λ told. told.items ≡ unexplored_lines file.now scenario.now exploration.now) }
{
    let known = actor_names(alloc, scenario)?;
    let asked = actors_asked(alloc, exploration)?;
    match first_unknown(&known, &asked) {
        Some(name) => names_line(alloc, file, "actor", &known, name),
        None => Ok(Vec::new(alloc)),
    }
}

/// Returns the names of the actors.
fn actor_names(alloc: Global, scenario: &Scenario) -> Result<Vec<&[u8]>, NoMemory>
    ensures { IfOk result (λ names. map (λ name. name.now) names.items ≡ actor_names scenario.now) }
{
    let mut names = Vec::new(alloc);
    for actor in &scenario.actors {
        names.push(actor.name.as_bytes())?;
    }
    Ok(names)
}

/// Returns the actors that the exploration names, in the order in which they are looked up.
fn actors_asked<'a>(alloc: Global, exploration: &Exploration<'a>) -> Result<Vec<&'a [u8]>, NoMemory>
    ensures { IfOk result (λ names. map (λ name. name.now) names.items ≡ actors_asked exploration.now) }
{
    let mut names = actor_forbidden(alloc, exploration.never)?;
    push_preceding(&mut names, &exploration.before)?;
    Ok(names)
}

/// Returns the actor that is named by what no order may come to.
fn actor_forbidden<'a>(alloc: Global, never: Never<'a>) -> Result<Vec<&'a [u8]>, NoMemory>
    ensures { IfOk result (λ names. map (λ name. name.now) names.items ≡ actor_forbidden never.entry) }
{
    let mut names = Vec::new(alloc);
    if let Never::After { actor, .. } = never {
        names.push(actor.as_bytes())?;
    }
    Ok(names)
}

/// Adds the two actors of each pair.
fn push_preceding<'a>(names: &mut Vec<&'a [u8]>, pairs: &[Precedence<'a>]) -> Result<(), NoMemory>
    ensures { OnOk result (map (λ name. name.now) names.new.items ≡ map (λ name. name.now) names.old.items ++ actors_preceding pairs.now) }
{
    for pair in pairs {
        names.push(pair.first.as_bytes())?;
        names.push(pair.then.as_bytes())?;
    }
    Ok(())
}

/// Returns the first of the names that isn't known.
fn first_unknown<'a>(known: &[&[u8]], names: &[&'a [u8]]) -> Option<&'a [u8]>
    ensures { option_map (λ name. name.now) result ≡ first_unknown (map (λ name. name.now) known.now) (map (λ name. name.now) names.now) }
{
    for name in names {
        if !is_known(known, *name) {
            return Some(*name);
        }
    }
    None
}
