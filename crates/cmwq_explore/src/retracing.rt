//! An order told step by step, and where each actor stands at its end.
ghost use Rattle.cmwq_explore.specs.Retracing.{rest_of, rests, stands_before, steps_from, steps_of, waits_for};
ghost use Rattle.cmwq_orders.specs.Orders.{Explored, reached, reached_from};
ghost use Rattle.std.specs.Prelude.{◌≡◌, IfOk, OnOk, Some};

use crate::plan::Plan;
use crate::standing::Standing;
use cmwq_orders::Choice;
use cmwq_table::Machine;
use cmwq_types::{Instr, NoMemory};
use std::alloc::Global;
use std::sync::Arc;

/// Where an actor stands.
#[derive(Clone, Copy, PartialEq, Eq)]
pub enum Rest {
    /// It has ended.
    Ended,
    /// It waits for the flush of this number, from 0.
    Waits(u16),
    /// It waits for no flush, and this is its next line.
    IsBefore(Instr),
}

/// An order told step by step.
#[derive(Drop)]
pub struct Retraced {
    /// Its choices, each with the instruction that is carried out.
    pub steps: Vec<(Choice, Instr)>,
    /// Where each actor stands behind the last one, in the order of the actors.
    pub rests: Vec<Rest>,
}

/// Tells an order of the plan's actors, each of whose choices can be taken. It fails only for want of memory.
pub fn retrace<M: Machine>(
    alloc: Global,
    plan: &Arc<Plan>,
    order: &[Choice],
) -> Result<Retraced, NoMemory>
    requires reached { (e : Explored) × (reached plan.now.value.scenario plan.now.value.before order.now ≡ Some e) }
    ensures steps { IfOk result (λ told. told.steps.items ≡ steps_of plan.now.value.scenario plan.now.value.before order.now) }
    ensures rests { IfOk result (λ told. (e : Explored) → reached plan.now.value.scenario plan.now.value.before order.now ≡ Some e
        → told.rests.items ≡ rests plan.now.value.scenario e) }
{
    let mut standing = Standing::<M>::start(alloc, plan)?;
    standing.retrace(alloc, order)
}

impl<M: Machine> Standing<M> {
    /// Tells an order from here, each of whose choices can be taken.
    fn retrace(&mut self, alloc: Global, order: &[Choice]) -> Result<Retraced, NoMemory>
        requires reached { (e : Explored) × (reached_from self.old.plan.scenario self.old.plan.before order.now self.old.explored ≡ Some e) }
        ensures steps { IfOk result (λ told. told.steps.items ≡ steps_from self.old.plan.scenario self.old.plan.before order.now self.old.explored) }
        ensures rests { IfOk result (λ told. (e : Explored) → reached_from self.old.plan.scenario self.old.plan.before order.now self.old.explored ≡ Some e
            → told.rests.items ≡ rests self.old.plan.scenario e) }
    {
        let steps = self.take_all(alloc, order)?;
        Ok(Retraced {
            steps,
            rests: self.rests(alloc)?,
        })
    }

    /// Takes the choices of the order, each of which can be taken, and tells them, each with its instruction.
    fn take_all(
        &mut self,
        alloc: Global,
        order: &[Choice],
    ) -> Result<Vec<(Choice, Instr)>, NoMemory>
        requires reached { (e : Explored) × (reached_from self.old.plan.scenario self.old.plan.before order.now self.old.explored ≡ Some e) }
        ensures plan { self.new.plan ≡ self.old.plan }
        ensures steps { IfOk result (λ steps. steps.items ≡ steps_from self.old.plan.scenario self.old.plan.before order.now self.old.explored) }
        ensures reached { OnOk result (reached_from self.old.plan.scenario self.old.plan.before order.now self.old.explored ≡ Some self.new.explored) }
    {
        let mut steps = Vec::with_capacity(alloc, order.len())?;
        for choice in order {
            let Some(instr) = self.take(*choice) else {
                unreachable!()
            };
            steps.push((*choice, instr))?;
        }
        Ok(steps)
    }

    /// Where each actor stands, in order.
    fn rests(&self, alloc: Global) -> Result<Vec<Rest>, NoMemory>
        ensures { IfOk result (λ told. told.items ≡ rests self.now.plan.scenario self.now.explored) }
    {
        let mut rests = Vec::new(alloc);
        for actor in 0..self.plan().actor_count() {
            rests.push(self.rest_of(actor))?;
        }
        Ok(rests)
    }

    /// Where the actor stands.
    fn rest_of(&self, actor: u8) -> Rest
        ensures { result ≡ rest_of self.now.plan.scenario self.now.explored actor }
    {
        if self.is_waiting(actor) {
            waits_for(self.waits_of(actor))
        } else {
            stands_before(self.next_line(actor))
        }
    }
}

/// Of an actor that waits for the flush that its last line gave.
fn waits_for(flush: Option<u16>) -> Rest
    ensures { result ≡ waits_for flush }
{
    match flush {
        Some(flush) => Rest::Waits(flush),
        None => Rest::Ended,
    }
}

/// Of an actor that waits for no flush.
fn stands_before(line: Option<Instr>) -> Rest
    ensures { result ≡ stands_before line }
{
    match line {
        Some(instr) => Rest::IsBefore(instr),
        None => Rest::Ended,
    }
}
