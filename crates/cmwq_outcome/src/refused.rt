//! What is told of a strict run.
ghost use Rattle.cmwq_outcome.specs.Refused.{IsLineOf, IsRefusedLine, line_on, refused_line, words_between};
ghost use Rattle.cmwq_remarks.specs.Examples.{refused_twice};
ghost use Rattle.cmwq_types.specs.Faults.{IsValid};
ghost use Rattle.cmwq_types.specs.declared.reply.Refusal.TheVariants as refusal;
ghost use Rattle.cmwq_types.specs.declared.reply.Reply.TheVariants as reply;
ghost use Rattle.cmwq_table.specs.State.{start};
ghost use Rattle.cmwq_table.specs.Table.{replies};
ghost use Rattle.cmwq_types.specs.Scenario.{expand};
ghost use Rattle.cmwq_types.specs.declared.limits.TheConstants.{MAX_HISTORY};
ghost use Rattle.std.specs.Prelude.{◌≡◌, ◌≤◌, ◌∷◌, [], IfOk, None, Some, codes, length, option_map};

use cmwq_asm::{AsmError, assemble};
use cmwq_core::Core;
use cmwq_play::judge;
use cmwq_remarks::issue_lines;
use cmwq_table::Machine;
use cmwq_types::{Actor, NoMemory, Scenario};
use itoa::Buffer;
use std::alloc::Global;
use std::sync::Arc;

/// Returns the line that says how many instructions of the actor are refused in the run of the text's scenario, and at which position the
/// first of them is issued; none if no instruction is refused, or if there is no such run. It fails only for want of memory.
pub fn refused_line(alloc: Global, text: &[u8]) -> Result<Option<Vec<u8>>, NoMemory>
    ensures { IfOk result (λ told. IsRefusedLine text.now (option_map (λ line. line.items) told)) }
{
    match assemble(alloc, text) {
        Ok(scenario) => line_of_run::<Core>(alloc, scenario),
        Err(AsmError::At { .. }) => Ok(None),
        Err(AsmError::NoMemory) => Err(NoMemory),
    }
}

/// Gives worked examples: refusals are counted, and the position is the number of instructions before the first of them.
pub fn refusals_are_told_by_position()
    ensures two { line_on refused_twice ≡ Some (codes "refused 2 instructions, first at position 1\n") }
    ensures one { line_on (reply.Refused refusal.Spent ∷ reply.Yes ∷ []) ≡ Some (codes "refused 1 instruction, at position 0\n") }
    ensures none { line_on (reply.Done ∷ reply.Already ∷ []) ≡ None }
{}

/// Returns the same line on the run of this scenario.
fn line_of_run<M: Machine>(alloc: Global, scenario: Scenario) -> Result<Option<Vec<u8>>, NoMemory>
    requires { IsValid scenario }
    ensures { IfOk result (λ told. IsLineOf scenario (option_map (λ line. line.items) told)) }
{
    if judge(&scenario).is_err() {
        return Ok(None);
    }
    let scenario = Arc::new(alloc, scenario)?;
    let machine = M::begin(alloc, Arc::clone(&scenario)?)?;
    line_of_actor(alloc, &scenario.actors[0], machine)
}

/// Returns the same line on the actor's instructions, on a machine at its start.
fn line_of_actor<M: Machine>(
    alloc: Global,
    actor: &Actor,
    machine: M,
) -> Result<Option<Vec<u8>>, NoMemory>
    requires runs { length (expand actor.now) ≤ MAX_HISTORY }
    requires start { M.state machine ≡ start (M.loaded machine) }
    ensures { IfOk result (λ told. option_map (λ line. line.items) told ≡ line_on (replies (M.loaded machine) (expand actor.now))) }
{
    let mut machine = machine;
    let refusals = issue_lines(&mut machine, &actor.lines);
    match refusals.first {
        Some(position) => Ok(Some(line(alloc, refusals.count, position)?)),
        None => Ok(None),
    }
}

/// Returns what is told between the number of refusals and the position.
fn words_between(count: u32) -> &'static str
    ensures { result.now ≡ words_between count }
{
    if count == 1 {
        " instruction, at position "
    } else {
        " instructions, first at position "
    }
}

/// Returns the line on so many refusals, the first of which is at this position.
fn line(alloc: Global, count: u32, position: u32) -> Result<Vec<u8>, NoMemory>
    ensures { IfOk result (λ line. line.items ≡ refused_line count position) }
{
    let mut line = String::from_str(alloc, "refused ")?;
    line.push_str(Buffer::new().format(count))?;
    line.push_str(words_between(count))?;
    line.push_str(Buffer::new().format(position))?;
    line.push_str("\n")?;
    Ok(line.into_bytes())
}
