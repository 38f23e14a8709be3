//! A scenario with one actor who gives certain instructions.
ghost use Rattle.cmwq_annotated.specs.Acted.{acted, actor_of};
ghost use Rattle.cmwq_types.specs.Faults.{IsValid, names_declared};
ghost use Rattle.cmwq_types.specs.Scenario.{expand};
ghost use Rattle.cmwq_types.specs.declared.limits.TheConstants.{MAX_LINES};
ghost use Rattle.std.specs.Prelude.{◌≡◌, ◌≤◌, All, IfOk, IsTrue, length};

use cmwq_types::{Actor, Instr, Line, Name, NoMemory, Scenario};
use std::alloc::Global;

/// The same scenario with one actor of this name, who gives these instructions, a line each.
///
/// It is valid where the scenario is, and the instructions are at most 4,096 and name works and queues of the scenario. It fails
/// only for want of memory.
#[tactic(auto, using(crate::proofs::ActedLemmas::acted_valid, crate::proofs::ActedLemmas::expand_once))]
pub fn acted(
    alloc: Global,
    scenario: &Scenario,
    name: Name,
    instrs: &[Instr],
) -> Result<Scenario, NoMemory>
    ensures acted { IfOk result (λ s. s ≡ acted scenario.now name instrs.now) }
    ensures gives { expand (actor_of name instrs.now) ≡ instrs.now }
    ensures valid { IsValid scenario.now → All (λ instr. IsTrue (names_declared scenario.now instr)) instrs.now → length instrs.now ≤ MAX_LINES
        → IsValid (acted scenario.now name instrs.now) }
{
    let actors = vec![in alloc; actor_of(alloc, name, instrs)?]?;
    let mut acted = scenario.copy()?;
    acted.actors = actors;
    Ok(acted)
}

/// Who gives these instructions, a line each.
fn actor_of(alloc: Global, name: Name, instrs: &[Instr]) -> Result<Actor, NoMemory>
    ensures { IfOk result (λ actor. actor ≡ actor_of name instrs.now) }
{
    let mut lines = Vec::with_capacity(alloc, instrs.len())?;
    for instr in instrs {
        lines.push(Line {
            instr: *instr,
            times: 1,
        })?;
    }
    Ok(Actor { name, lines })
}
