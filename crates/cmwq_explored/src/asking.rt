//! What is asked by names, by the numbers of actors and works.
ghost use Rattle.cmwq_explored.specs.Asking.{precedence_asked, precedences_asked, question_asked, with_actor, with_work};
ghost use Rattle.cmwq_types.specs.Scenario.{actor_named};
ghost use Rattle.cmwq_explored.specs.Errors.{no_memory};
ghost use Rattle.cmwq_types.specs.Faults.{IsValid};
ghost use Rattle.std.specs.Prelude.{◌≡◌, ◌<◌, ◌⊎◌, Err, IfErr, IfOk, Ok};

use crate::error::ExploreError;
use cmwq_exploration::{Never, Precedence};
use cmwq_orders::{Before, Question};
use cmwq_streams::PlayError;
use cmwq_types::{Scenario, WorkId};
use std::alloc::Global;

/// What no order may come to. The first name that isn't declared is told.
#[tactic(auto, unfolding(crate::specs::Asking::question_asked))]
pub(crate) fn question_asked(
    scenario: &Scenario,
    never: Never<'_>,
) -> Result<Question, ExploreError>
    requires valid { IsValid scenario.now }
    ensures { result ≡ question_asked scenario.now never.entry }
{
    match never {
        Never::After { actor, work } => {
            let actor = actor_asked(scenario, actor)?;
            let work = work_asked(scenario, work)?;
            Ok(Question::After { actor, work })
        }
        Never::Runs(work) => Ok(Question::Never(work_asked(scenario, work)?)),
        Never::Together(one, other) => {
            let one = work_asked(scenario, one)?;
            let other = work_asked(scenario, other)?;
            Ok(Question::Together(one, other))
        }
        Never::Stuck => Ok(Question::Stuck),
    }
}

/// Who precedes whom. The first name that isn't declared is told.
pub(crate) fn precedences_asked(
    alloc: Global,
    scenario: &Scenario,
    pairs: &[Precedence<'_>],
) -> Result<Vec<Before>, ExploreError>
    requires valid { IsValid scenario.now }
    ensures before { IfOk result (λ before. precedences_asked scenario.now pairs.entry.now ≡ Ok before.items) }
    ensures why { IfErr result (λ why. (precedences_asked scenario.now pairs.entry.now ≡ Err why) ⊎ (why ≡ no_memory)) }
{
    let mut before = Vec::with_capacity(alloc, pairs.len())?;
    for pair in pairs {
        match precedence_asked(scenario, pair) {
            Ok(one) => before.push(one)?,
            Err(why) => return Err(why),
        }
    }
    Ok(before)
}

/// Who precedes whom in this pair.
fn precedence_asked(scenario: &Scenario, pair: &Precedence<'_>) -> Result<Before, ExploreError>
    requires valid { IsValid scenario.now }
    ensures { result ≡ precedence_asked scenario.now pair.now }
{
    let first = actor_asked(scenario, pair.first)?;
    let then = actor_asked(scenario, pair.then)?;
    Ok(Before { first, then })
}

/// The number of the actor of this name.
fn actor_asked(scenario: &Scenario, name: &str) -> Result<u8, ExploreError>
    requires valid { IsValid scenario.now }
    ensures { result ≡ with_actor scenario.now name.now (λ actor. Ok actor) }
{
    match scenario.actor_named(name.as_bytes()) {
        Some(actor) => Ok(actor as u8),
        None => Err(ExploreError::NoSuchActor),
    }
}

/// The number of the work of this name.
fn work_asked(scenario: &Scenario, name: &str) -> Result<WorkId, ExploreError>
    requires valid { IsValid scenario.now }
    ensures { result ≡ with_work scenario.now name.now (λ work. Ok (record { 0 = work })) }
{
    match scenario.work_named(name.as_bytes()) {
        Some(work) => Ok(WorkId(work as u16)),
        None => Err(ExploreError::Play(PlayError::NoSuchWork)),
    }
}
