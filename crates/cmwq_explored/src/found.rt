//! The text of an order that was found.
ghost use Rattle.cmwq_explored.specs.Exploring.{Shows};
ghost use Rattle.cmwq_explored.specs.Found.{found, found_notes};
ghost use Rattle.cmwq_explored.specs.Names.{HasNames};
ghost use Rattle.cmwq_annotated.specs.Notes.{AreNotes, note_lines};
ghost use Rattle.cmwq_orders.specs.Orders.{Explored, reached};
ghost use Rattle.cmwq_types.specs.Faults.{IsValid};
ghost use Rattle.cmwq_types.specs.declared.limits.TheConstants.{MAX_LINES};
ghost use Rattle.std.specs.Prelude.{◌≡◌, ◌≤◌, IfOk, OnOk, Some, length, map};

use crate::steps::{Noted, names_fit, push_kind, push_rests};
use cmwq_annotated::acted;
use cmwq_annotated::laws::notes_may_follow_a_listing;
use cmwq_explore::{Plan, Retraced, retrace};
use cmwq_lines::{Block, ReplyLines};
use cmwq_list::list;
use cmwq_orders::laws::orders_are_runs;
use cmwq_orders::{Choice, Question};
use cmwq_table::Machine;
use cmwq_types::{Instr, Name, NoMemory, Scenario};
use std::alloc::Global;
use std::sync::Arc;

/// The listing of the plan's scenario with one actor, `found`, who gives the order's instructions, a line each; and behind it, as comments,
/// what the order comes to, who does what, with the line of each reply, and where the actors stand then that haven't ended.
///
/// Each choice of the order can be taken. It fails only for want of memory.
pub(crate) fn found_text<M: Machine>(
    alloc: Global,
    plan: &Arc<Plan>,
    question: Question,
    order: &[Choice],
) -> Result<Vec<u8>, NoMemory>
    requires valid { IsValid plan.now.value.scenario }
    requires reached { (e : Explored) × (reached plan.now.value.scenario plan.now.value.before order.now ≡ Some e) }
    requires few { length order.now ≤ MAX_LINES }
    ensures { IfOk result (λ text. Shows plan.now.value.scenario question plan.now.value.before order.now text.items) }
{
    orders_are_runs();
    notes_may_follow_a_listing();
    let told = retrace::<M>(alloc, plan, order)?;
    let scenario = plan.scenario();
    let found = found(alloc, scenario, &told.steps)?;
    let mut text = list(alloc, &found)?;
    names_fit(&scenario.actors);
    let notes = notes::<M>(alloc, plan, question, &told)?;
    text.extend_from_slice(notes.as_bytes())?;
    Ok(text)
}

/// The same scenario with one actor, `found`, who gives the steps' instructions, a line each.
fn found(
    alloc: Global,
    scenario: &Scenario,
    steps: &[(Choice, Instr)],
) -> Result<Scenario, NoMemory>
    ensures { IfOk result (λ s. s ≡ found scenario.now (map (λ step. step.1) steps.now)) }
{
    let Some(name) = Name::read(b"found") else {
        unreachable!()
    };
    let instrs = instrs_of(alloc, steps)?;
    acted(alloc, scenario, name, &instrs)
}

/// The steps' instructions.
fn instrs_of(alloc: Global, steps: &[(Choice, Instr)]) -> Result<Vec<Instr>, NoMemory>
    ensures { IfOk result (λ instrs. instrs.items ≡ map (λ step. step.1) steps.now) }
{
    let mut instrs = Vec::with_capacity(alloc, steps.len())?;
    for step in steps {
        instrs.push(step.1)?;
    }
    Ok(instrs)
}

/// The notes on an order that is told so.
fn notes<M: Machine>(
    alloc: Global,
    plan: &Arc<Plan>,
    question: Question,
    told: &Retraced,
) -> Result<Block, NoMemory>
    requires valid { IsValid plan.now.value.scenario }
    requires names { HasNames plan.now.value.scenario }
    ensures text { IfOk result (λ text. text ≡ note_lines (found_notes plan.now.value.scenario question told.now.steps.items told.now.rests.items)) }
    ensures notes { OnOk result (AreNotes (found_notes plan.now.value.scenario question told.now.steps.items told.now.rests.items)) }
{
    let scenario = plan.scenario();
    let mut text = Block::new(alloc);
    push_kind(&mut text, scenario, question)?;
    let mut noted = Noted {
        scenario,
        machine: M::begin(alloc, plan.shared_scenario()?)?,
        lines: ReplyLines::new(alloc, scenario)?,
    };
    noted.push_steps(&mut text, &told.steps)?;
    push_rests(&mut text, scenario, &told.rests)?;
    Ok(text)
}
