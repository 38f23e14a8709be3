//! `explore`: from a scenario's text to what is written of all orders of its actors' instructions.
ghost use Rattle.cmwq_explore.specs.Outcomes.{IsAnswer, IsShort};
ghost use Rattle.cmwq_explored.specs.Asking.{IsExplorable, fault_of};
ghost use Rattle.cmwq_explored.specs.Errors.{no_memory};
ghost use Rattle.cmwq_explored.specs.Exploring.{Explores, IsExplored, IsSaid};
ghost use Rattle.cmwq_types.specs.Faults.{IsValid};
ghost use Rattle.cmwq_types.specs.declared.limits.TheConstants.{MAX_TEXT};
ghost use Rattle.std.specs.Prelude.{◌≡◌, ◌⊎◌, ◌↔◌, ◌≤◌, ◌+◌, Err, IfErr, IfOk, IfSome, Some, false, length, true};

use crate::answers::{GaveUpLine, WholeLine, whole_outcome};
use crate::asking::{precedences_asked, question_asked};
use crate::error::ExploreError;
use crate::found::found_text;
use crate::outcome::Outcome;
use cmwq_exploration::Exploration;
use cmwq_explore::{Answer, Plan, Progress};
use cmwq_orders::Question;
use cmwq_plain::Plain;
use cmwq_play::read_text;
use cmwq_streams::{PlayError, Sink, Source, put_all};
use cmwq_table::Machine;
use cmwq_types::{NoMemory, Scenario};
use std::alloc::Global;
use std::sync::Arc;

/// Reads a scenario's text, looks through all orders of its actors' instructions for one that comes to what is never to be, and writes
/// the shortest such order as a scenario that shows it, or how many states there are to which no order comes that is of that kind, or
/// how far it went where that is open. The whole is made before its first byte is written, and at most one byte more is read than the
/// 4,194,304 that a text may have.
///
/// It answers, before anything is written, `Asm` with the text's fault exactly where the text spells no scenario; then `Actors` exactly
/// where the scenario has none; then `Full` exactly where they have more than 4,096 lines in all, a `cancel_sync` being three and an
/// `until`, a `wait` or a `quiet` one; then `Flushes` exactly where they give more flushes than the scenario's `flushes`; and then `NoSuchActor` or `NoSuchWork` exactly where
/// the first name that isn't declared is such a one, those of what is never to be before those of `before`. How far it is is told as it goes.
pub fn explore<R: Source, W: Sink, P: Progress>(
    alloc: Global,
    exploration: &Exploration<'_>,
    reader: &mut R,
    writer: &mut W,
    progress: &mut P,
) -> Result<Outcome, ExploreError>
    requires reader { R.failed reader.old ≡ false }
    requires writer { W.failed writer.old ≡ false }
    ensures read { (result ≡ Err (ExploreError.Play PlayError.Read)) ↔ (R.failed reader.new ≡ true) }
    ensures few { IfSome (R.remaining reader.old) (λ bytes. IfSome (R.remaining reader.new) (λ rest. length bytes ≤ length rest + MAX_TEXT + 1)) }
    ensures explores { Explores exploration.now (R.remaining reader.old) (W.contents writer.old) (W.contents writer.new) (W.failed writer.new) result }
{
    let scenario = read_text(alloc, reader)?;
    match explored::<Plain, P>(alloc, scenario, exploration, progress) {
        Ok((outcome, text)) => {
            put_all(writer, &text)?;
            Ok(outcome)
        }
        Err(why) => Err(why),
    }
}

/// What exploring the scenario comes to, and what is to be written of it.
fn explored<M: Machine, P: Progress>(
    alloc: Global,
    scenario: Scenario,
    exploration: &Exploration<'_>,
    progress: &mut P,
) -> Result<(Outcome, Vec<u8>), ExploreError>
    requires valid { IsValid scenario }
    ensures explored { IfOk result (λ r. IsExplored scenario exploration.now r.0 r.1.items) }
    ensures why { IfErr result (λ why. (fault_of scenario exploration.now ≡ Some why) ⊎ (why ≡ no_memory)) }
{
    let (plan, question) = planned(alloc, scenario, exploration)?;
    let answer = cmwq_explore::explore::<M, P>(
        alloc,
        &plan,
        question,
        exploration.limit,
        progress,
    )?;
    Ok(said::<M>(alloc, &plan, question, exploration.limit, &answer)?)
}

/// The plan of the scenario, and what no order may come to.
#[tactic(auto, unfolding(crate::specs::Asking::fault_of))]
fn planned(
    alloc: Global,
    scenario: Scenario,
    exploration: &Exploration<'_>,
) -> Result<(Arc<Plan>, Question), ExploreError>
    requires valid { IsValid scenario }
    ensures scenario { IfOk result (λ r. r.0.value.scenario ≡ scenario) }
    ensures explorable { IfOk result (λ r. IsExplorable scenario exploration.now r.1 r.0.value.before) }
    ensures why { IfErr result (λ why. (fault_of scenario exploration.now ≡ Some why) ⊎ (why ≡ no_memory)) }
{
    if scenario.actors.is_empty() {
        return Err(ExploreError::Play(PlayError::Actors));
    }
    let plan = Plan::new(alloc, scenario, Vec::new(alloc))?;
    let flushes = plan.flush_count();
    if flushes > plan.scenario().flushes {
        return Err(ExploreError::Flushes(flushes));
    }
    let question = question_asked(plan.scenario(), exploration.never)?;
    let before = precedences_asked(alloc, plan.scenario(), &exploration.before)?;
    Ok((Arc::new(alloc, plan.with_before(before))?, question))
}

/// What an answer comes to, and what is to be written of it.
fn said<M: Machine>(
    alloc: Global,
    plan: &Arc<Plan>,
    question: Question,
    limit: u32,
    answer: &Answer,
) -> Result<(Outcome, Vec<u8>), NoMemory>
    requires valid { IsValid plan.now.value.scenario }
    requires answers { IsAnswer plan.now.value.scenario plan.now.value.before question limit answer.now }
    requires short { IsShort answer.now }
    ensures { IfOk result (λ r. IsSaid plan.now.value.scenario question plan.now.value.before answer.now r.0 r.1.items) }
{
    match answer {
        Answer::Found(order) => Ok((
            Outcome::Found,
            found_text::<M>(alloc, plan, question, order)?,
        )),
        Answer::Whole(tally) => {
            let line = WholeLine {
                scenario: plan.scenario(),
                question,
                tally: *tally,
            };
            let text = format!(in alloc; "{line}")?;
            Ok((whole_outcome(question, *tally), text.into_bytes()))
        }
        Answer::GaveUp { states, depth } => {
            let line = GaveUpLine {
                states: *states,
                depth: *depth,
            };
            let text = format!(in alloc; "{line}")?;
            Ok((Outcome::Open, text.into_bytes()))
        }
    }
}
