//! The instructions of a scenario's actor.
ghost use Rattle.cmwq_types.specs.declared.limits.TheConstants.{MAX_HISTORY};
ghost use Rattle.std.specs.Prelude.{◌≡◌, ◌≤◌, IfOk, length};

use cmwq_play::PlayError;
use cmwq_runs::expanded;
use cmwq_types::{Instr, MAX_HISTORY, Scenario};
use std::alloc::Global;

/// The instructions of the scenario's first actor, in order. `Actors` where it has none.
pub(crate) fn actor_instrs(alloc: Global, scenario: &Scenario) -> Result<Vec<Instr>, PlayError> {
    let actor = scenario.actors.first().ok_or(PlayError::Actors)?;
    Ok(expanded(alloc, &actor.lines)?)
}

/// How many instructions these are. `Full` where they are more than 1,048,576.
pub(crate) fn count_of(instrs: &[Instr]) -> Result<u32, PlayError>
    ensures count { IfOk result (λ count. count ≡ length instrs.now) }
    ensures few { IfOk result (λ count. count ≤ MAX_HISTORY) }
{
    if instrs.len() > MAX_HISTORY as usize {
        return Err(PlayError::Full);
    }
    Ok(instrs.len() as u32)
}
