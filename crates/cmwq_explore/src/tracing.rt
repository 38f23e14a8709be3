//! From a state that was seen back to the start, and from there to it again.
ghost use Rattle.cmwq_explore.specs.Searching.{IsGrown};
ghost use Rattle.cmwq_explore.specs.Tracing.{IsOrderTo, IsSeenAt};
ghost use Rattle.cmwq_explore.specs.Waiting.{AreWaiting};
ghost use Rattle.cmwq_orders.specs.Orders.{Explored, reached, reached_from};
ghost use Rattle.cmwq_orders.specs.Sizes.{IsWhole};
ghost use Rattle.std.specs.Prelude.{◌≡◌, ◌<◌, IfOk, Some, length, reverse};

use crate::plan::Plan;
use crate::seen::Seen;
use crate::standing::Standing;
use crate::waiting::Waiting;
use cmwq_orders::{Choice, Question};
use cmwq_table::Machine;
use cmwq_types::NoMemory;
use std::alloc::Global;
use std::sync::Arc;

/// The order by which the state at this place was come to.
pub(crate) fn order_to(
    alloc: Global,
    plan: &Plan,
    question: Question,
    seen: &Seen,
    place: usize,
) -> Result<Vec<Choice>, NoMemory>
    requires grown { IsGrown plan.now.scenario plan.now.before question seen.now }
    requires there { place < length seen.now }
    ensures { IfOk result (λ order. IsOrderTo plan.now.scenario plan.now.before seen.now place order.items) }
{
    let mut order = choices_back(alloc, plan, question, seen, place)?;
    order.reverse();
    Ok(order)
}

/// The choices by which the state at this place was come to, last first.
fn choices_back(
    alloc: Global,
    plan: &Plan,
    question: Question,
    seen: &Seen,
    place: usize,
) -> Result<Vec<Choice>, NoMemory>
    requires grown { IsGrown plan.now.scenario plan.now.before question seen.now }
    requires there { place < length seen.now }
    ensures { IfOk result (λ back. IsOrderTo plan.now.scenario plan.now.before seen.now place (reverse back.items)) }
{
    let mut back = Vec::new(alloc);
    let mut at = place;
    'steps: while at > 0 {
        let mark = seen.mark_at(at);
        back.push(mark.choice)?;
        at = mark.from as usize;
    }
    Ok(back)
}

/// A machine and the actors, where the state at this place has them: one that waits, or else a new one.
pub(crate) fn come_to<M: Machine>(
    alloc: Global,
    plan: &Arc<Plan>,
    question: Question,
    seen: &Seen,
    waiting: &mut Waiting<M>,
    place: usize,
) -> Result<Standing<M>, NoMemory>
    requires waiting { AreWaiting plan.now.value seen.now waiting.old }
    requires grown { IsGrown plan.now.value.scenario plan.now.value.before question seen.now }
    requires there { place < length seen.now }
    ensures plan { IfOk result (λ standing. standing.plan ≡ plan.now.value) }
    ensures there { IfOk result (λ standing. IsSeenAt seen.now place standing.explored) }
    ensures whole { IfOk result (λ standing. IsWhole plan.now.value.scenario standing.explored) }
    ensures waiting { AreWaiting plan.now.value seen.now waiting.new }
{
    match waiting.take(place) {
        Some(standing) => Ok(standing),
        None => standing_at(alloc, plan, question, seen, place),
    }
}

/// A new machine and the actors, where the state at this place has them.
fn standing_at<M: Machine>(
    alloc: Global,
    plan: &Arc<Plan>,
    question: Question,
    seen: &Seen,
    place: usize,
) -> Result<Standing<M>, NoMemory>
    requires grown { IsGrown plan.now.value.scenario plan.now.value.before question seen.now }
    requires there { place < length seen.now }
    ensures plan { IfOk result (λ standing. standing.plan ≡ plan.now.value) }
    ensures there { IfOk result (λ standing. IsSeenAt seen.now place standing.explored) }
    ensures whole { IfOk result (λ standing. IsWhole plan.now.value.scenario standing.explored) }
{
    let order = order_to(alloc, plan, question, seen, place)?;
    replayed(alloc, plan, &order)
}

/// What the order comes to.
fn replayed<M: Machine>(
    alloc: Global,
    plan: &Arc<Plan>,
    order: &[Choice],
) -> Result<Standing<M>, NoMemory>
    ensures plan { IfOk result (λ standing. standing.plan ≡ plan.now.value) }
    ensures reached { IfOk result (λ standing. (e : Explored) → reached plan.now.value.scenario plan.now.value.before order.now ≡ Some e → standing.explored ≡ e) }
{
    let mut standing = Standing::<M>::start(alloc, plan)?;
    standing.replay(order);
    Ok(standing)
}

impl<M: Machine> Standing<M> {
    /// Takes the choices of the order.
    fn replay(&mut self, order: &[Choice])
        ensures plan { self.new.plan ≡ self.old.plan }
        ensures reached { (e : Explored) → reached_from self.old.plan.scenario self.old.plan.before order.now self.old.explored ≡ Some e → self.new.explored ≡ e }
    {
        for choice in order {
            let _ = self.take(*choice);
        }
    }
}
