//! What each choice of a state leads to, added to what was seen.
ghost use Rattle.cmwq_explore.specs.Plans.{IsLed};
ghost use Rattle.cmwq_explore.specs.Searching.{HasNext, IsFull, IsMarked, IsReady, Progress, knows};
ghost use Rattle.cmwq_explore.specs.Waiting.{AreWaiting};
ghost use Rattle.cmwq_orders.specs.Orders.{taken};
ghost use Rattle.cmwq_orders.specs.declared.choice.Choice.TheVariants as choice;
ghost use Rattle.cmwq_types.specs.Scenario.{pool_count};
ghost use Rattle.cmwq_types.specs.declared.instr.Instr.TheVariants as instr;
ghost use Rattle.std.specs.Prelude.{◌≡◌, ◌+◌, ◌<◌, ℕ, IfOk, Ok, Some, length};

use crate::seen::{Mark, Seen};
use crate::standing::Standing;
use crate::waiting::Waiting;
use cmwq_orders::{Choice, Question};
use cmwq_table::Machine;
use cmwq_types::{Instr, MAX_LINES, NoMemory};

/// What is asked of all orders, and from where a search goes on.
#[derive(Clone, Copy)]
pub(crate) struct Asked {
    /// The kind of state that is looked for.
    pub(crate) question: Question,
    /// How many states are seen at most.
    pub(crate) limit: u32,
    /// The place of the state whose choices are tried.
    pub(crate) from: u32,
    /// How many choices brought that about.
    pub(crate) depth: u16,
}

/// What trying a choice came to.
#[derive(Clone, Copy)]
pub(crate) enum Tried {
    /// The search goes on.
    Going,
    /// The state that was added last is of the kind that is asked for.
    Failing,
    /// There is a state for which there is no room, or no line in a scenario that would show it.
    Full,
}

impl<M: Machine> Standing<M> {
    /// What the choice leads to; `None` where it can't be taken.
    fn led(&self, choice: Choice) -> Result<Option<Standing<M>>, NoMemory>
        ensures { IfOk result (IsLed self.now choice) }
    {
        if !self.may_take(choice) {
            return Ok(None);
        }
        Ok(self.copy()?.taken(choice))
    }

    /// The same, where the choice was taken.
    fn taken(self, choice: Choice) -> Option<Standing<M>>
        ensures { IsLed self choice result }
    {
        let mut next = self;
        match next.take(choice) {
            Some(_) => Some(next),
            None => None,
        }
    }

    /// What is noted of it as what the choice leads to, so deep.
    pub(crate) fn marked(&self, asked: Asked, choice: Choice, depth: u16) -> Result<Mark, NoMemory>
        ensures noted { IfOk result (λ mark. IsMarked self.now.plan.scenario self.now.plan.before asked.question self.now.explored mark) }
        ensures from { IfOk result (λ mark. mark.from ≡ asked.from) }
        ensures choice { IfOk result (λ mark. mark.choice ≡ choice) }
        ensures depth { IfOk result (λ mark. mark.depth ≡ depth) }
    {
        let fails = self.fails(asked.question)?;
        Ok(Mark {
            from: asked.from,
            choice,
            depth,
            fails,
            first: self.counts_first(asked.question),
            second: self.counts_second(asked.question),
            spent: self.is_spent(),
        })
    }
}

/// Adds what the choices of this state lead to: the lines by rising number of the actor, a fire, the steps by rising number of the pool,
/// and a tick. It stops where one is of the kind that is asked for, and where there is no room for one.
pub(crate) fn expand<M: Machine>(
    seen: &mut Seen,
    waiting: &mut Waiting<M>,
    standing: &Standing<M>,
    asked: Asked,
) -> Result<Tried, NoMemory>
    requires waiting { AreWaiting standing.now.plan seen.old waiting.old }
    requires ready { IsReady standing.now.plan.scenario standing.now.plan.before asked.question seen.old standing.now.explored asked.from asked.depth }
    ensures progress { IfOk result (Progress standing.now.plan asked.question seen.old seen.new standing.now.explored asked.from asked.depth
        ((c : Choice) → HasNext standing.now.plan.scenario standing.now.plan.before seen.new standing.now.explored asked.depth c)) }
    ensures full { result ≡ Ok Tried.Full → IsFull asked.limit seen.new asked.depth }
    ensures waiting { result ≡ Ok Tried.Going → AreWaiting standing.now.plan seen.new waiting.new }
{
    match try_lines(seen, waiting, standing, asked)? {
        Tried::Going => {}
        other => return Ok(other),
    }
    match try_choice(seen, waiting, standing, asked, Choice::Own(Instr::Fire))? {
        Tried::Going => {}
        other => return Ok(other),
    }
    match try_steps(seen, waiting, standing, asked)? {
        Tried::Going => {}
        other => return Ok(other),
    }
    try_choice(seen, waiting, standing, asked, Choice::Own(Instr::Tick))
}

/// Adds what the actors' lines lead to.
fn try_lines<M: Machine>(
    seen: &mut Seen,
    waiting: &mut Waiting<M>,
    standing: &Standing<M>,
    asked: Asked,
) -> Result<Tried, NoMemory>
    requires waiting { AreWaiting standing.now.plan seen.old waiting.old }
    requires ready { IsReady standing.now.plan.scenario standing.now.plan.before asked.question seen.old standing.now.explored asked.from asked.depth }
    ensures progress { IfOk result (Progress standing.now.plan asked.question seen.old seen.new standing.now.explored asked.from asked.depth
        ((actor : ℕ) → actor < length standing.now.plan.scenario.actors → HasNext standing.now.plan.scenario standing.now.plan.before seen.new standing.now.explored asked.depth (choice.Line actor))) }
    ensures full { result ≡ Ok Tried.Full → IsFull asked.limit seen.new asked.depth }
    ensures waiting { result ≡ Ok Tried.Going → AreWaiting standing.now.plan seen.new waiting.new }
{
    for actor in 0..standing.plan().actor_count() {
        match try_choice(seen, waiting, standing, asked, Choice::Line(actor))? {
            Tried::Going => {}
            other => return Ok(other),
        }
    }
    Ok(Tried::Going)
}

/// Adds what the pools' moves lead to.
fn try_steps<M: Machine>(
    seen: &mut Seen,
    waiting: &mut Waiting<M>,
    standing: &Standing<M>,
    asked: Asked,
) -> Result<Tried, NoMemory>
    requires waiting { AreWaiting standing.now.plan seen.old waiting.old }
    requires ready { IsReady standing.now.plan.scenario standing.now.plan.before asked.question seen.old standing.now.explored asked.from asked.depth }
    ensures progress { IfOk result (Progress standing.now.plan asked.question seen.old seen.new standing.now.explored asked.from asked.depth
        ((pool : ℕ) → pool < pool_count standing.now.plan.scenario → HasNext standing.now.plan.scenario standing.now.plan.before seen.new standing.now.explored asked.depth (choice.Own (instr.Step pool)))) }
    ensures full { result ≡ Ok Tried.Full → IsFull asked.limit seen.new asked.depth }
    ensures waiting { result ≡ Ok Tried.Going → AreWaiting standing.now.plan seen.new waiting.new }
{
    for pool in 0..standing.plan().pool_count() {
        match try_choice(
            seen,
            waiting,
            standing,
            asked,
            Choice::Own(Instr::Step(pool)),
        )? {
            Tried::Going => {}
            other => return Ok(other),
        }
    }
    Ok(Tried::Going)
}

/// Adds what the choice leads to, if it can be taken and that wasn't seen.
fn try_choice<M: Machine>(
    seen: &mut Seen,
    waiting: &mut Waiting<M>,
    standing: &Standing<M>,
    asked: Asked,
    choice: Choice,
) -> Result<Tried, NoMemory>
    requires waiting { AreWaiting standing.now.plan seen.old waiting.old }
    requires ready { IsReady standing.now.plan.scenario standing.now.plan.before asked.question seen.old standing.now.explored asked.from asked.depth }
    ensures progress { IfOk result (Progress standing.now.plan asked.question seen.old seen.new standing.now.explored asked.from asked.depth
        (HasNext standing.now.plan.scenario standing.now.plan.before seen.new standing.now.explored asked.depth choice)) }
    ensures full { result ≡ Ok Tried.Full → IsFull asked.limit seen.new asked.depth }
    ensures waiting { result ≡ Ok Tried.Going → AreWaiting standing.now.plan seen.new waiting.new }
{
    match standing.led(choice)? {
        Some(next) => add_next(seen, waiting, standing, next, asked, choice),
        None => Ok(Tried::Going),
    }
}

/// Adds what the choice leads to, if that wasn't seen.
fn add_next<M: Machine>(
    seen: &mut Seen,
    waiting: &mut Waiting<M>,
    standing: &Standing<M>,
    next: Standing<M>,
    asked: Asked,
    choice: Choice,
) -> Result<Tried, NoMemory>
    requires waiting { AreWaiting standing.now.plan seen.old waiting.old }
    requires ready { IsReady standing.now.plan.scenario standing.now.plan.before asked.question seen.old standing.now.explored asked.from asked.depth }
    requires plan { next.plan ≡ standing.now.plan }
    requires taken { taken standing.now.plan.scenario standing.now.plan.before standing.now.explored choice ≡ Some next.explored }
    ensures progress { IfOk result (Progress standing.now.plan asked.question seen.old seen.new standing.now.explored asked.from asked.depth
        (HasNext standing.now.plan.scenario standing.now.plan.before seen.new standing.now.explored asked.depth choice)) }
    ensures full { result ≡ Ok Tried.Full → IsFull asked.limit seen.new asked.depth }
    ensures waiting { result ≡ Ok Tried.Going → AreWaiting standing.now.plan seen.new waiting.new }
{
    let stored = next.stored()?;
    if seen.knows(&stored) {
        return Ok(Tried::Going);
    }
    if seen.len() >= asked.limit as usize || asked.depth as usize >= MAX_LINES {
        return Ok(Tried::Full);
    }
    let mark = next.marked(asked, choice, asked.depth + 1)?;
    let place = seen.len();
    seen.add(&stored, mark)?;
    if mark.fails {
        return Ok(Tried::Failing);
    }
    waiting.keep(place, next)?;
    Ok(Tried::Going)
}
