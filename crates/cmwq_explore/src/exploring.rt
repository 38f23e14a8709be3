//! The search through all orders, and its answer.
ghost use Rattle.cmwq_explore.specs.Outcomes.{IsAnswer, IsCounted, IsFoundWithin, IsShort};
ghost use Rattle.cmwq_explore.specs.declared.exploring.Ending.TheVariants as ending;
ghost use Rattle.cmwq_explore.specs.Searching.{Begins, Comes, Handles, IsAhead, IsFull};
ghost use Rattle.cmwq_explore.specs.Waiting.{AreWaiting};
ghost use Rattle.std.specs.Prelude.{◌≡◌, ℕ, [], IfOk, Ok, false};

use crate::expanding::{Asked, Tried, expand};
use crate::plan::Plan;
use crate::progress::Progress;
use crate::seen::{Counted, Seen};
use crate::standing::Standing;
use crate::tracing::{come_to, order_to};
use crate::waiting::Waiting;
use cmwq_orders::{Choice, Question};
use cmwq_table::Machine;
use cmwq_types::{Instr, MAX_LINES, NoMemory};
use std::alloc::Global;
use std::sync::Arc;

/// How many states there are, and in how many of them what is counted holds.
#[derive(Clone, Copy, PartialEq, Eq)]
pub struct Tally {
    /// All states.
    pub states: usize,
    /// Those in which what is asked for holds in its first part.
    pub first: usize,
    /// Those in which it holds in its second part.
    pub second: usize,
    /// Those in which the scenario's steps are spent.
    pub spent: usize,
}

/// What is found of all orders.
#[derive(Drop)]
pub enum Answer {
    /// This order comes to a state of the kind, and no shorter one does.
    Found(Vec<Choice>),
    /// None does; these are all states.
    Whole(Tally),
    /// So many states were seen, and no order of at most so many instructions comes to one of the kind.
    GaveUp {
        /// How many states were seen.
        states: usize,
        /// How many instructions an order had at most.
        depth: u16,
    },
}

/// What a search came to.
#[derive(Clone, Copy)]
pub(crate) enum Ending {
    /// No choice leads out of what was seen.
    Closed,
    /// The state that was added last is of the kind that is asked for.
    Failed,
    /// There was no room for a state behind one that lies so deep.
    Deep(u16),
}

/// Looks through all orders of the plan's actors for one that comes to a state of the kind, and sees at most so many states. How far it is
/// is told before the choices of each state are tried.
///
/// The only error is want of memory.
pub fn explore<M: Machine, P: Progress>(
    alloc: Global,
    plan: &Arc<Plan>,
    question: Question,
    limit: u32,
    progress: &mut P,
) -> Result<Answer, NoMemory>
    ensures answer { IfOk result (IsAnswer plan.now.value.scenario plan.now.value.before question limit) }
    ensures short { IfOk result IsShort }
{
    let mut seen = Seen::new(alloc);
    explore_into::<M, P>(alloc, plan, question, limit, &mut seen, progress)
}

/// The same, adding to nothing what is seen.
fn explore_into<M: Machine, P: Progress>(
    alloc: Global,
    plan: &Arc<Plan>,
    question: Question,
    limit: u32,
    seen: &mut Seen,
    progress: &mut P,
) -> Result<Answer, NoMemory>
    requires none { seen.old ≡ [] }
    ensures answer { IfOk result (IsAnswer plan.now.value.scenario plan.now.value.before question limit) }
    ensures short { IfOk result IsShort }
{
    if begin::<M>(alloc, plan, question, seen)? {
        return Ok(Answer::Found(Vec::new(alloc)));
    }
    match search::<M, P>(alloc, plan, question, limit, seen, progress)? {
        Ending::Closed => Ok(Answer::Whole(tally_of(seen))),
        Ending::Failed => found_last(alloc, plan, question, seen),
        Ending::Deep(depth) => Ok(Answer::GaveUp {
            states: seen.len(),
            depth,
        }),
    }
}

/// The order to the state that was added last, which is the first of the kind.
fn found_last(
    alloc: Global,
    plan: &Arc<Plan>,
    question: Question,
    seen: &Seen,
) -> Result<Answer, NoMemory>
    requires { Comes plan.now.value question seen.now ending.Failed }
    ensures answer { (limit : ℕ) → IfOk result (IsAnswer plan.now.value.scenario plan.now.value.before question limit) }
    ensures short { IfOk result IsShort }
{
    let order = order_to(alloc, plan, question, seen, seen.len() - 1)?;
    Ok(found(order, seen.len()))
}

/// This order, where an actor may have as many lines; else it is open, and no order of so many instructions comes to a state of the kind.
fn found(order: Vec<Choice>, states: usize) -> Answer
    ensures { IsFoundWithin order.items result }
{
    if order.len() <= MAX_LINES {
        Answer::Found(order)
    } else {
        Answer::GaveUp {
            states,
            depth: MAX_LINES as u16,
        }
    }
}

/// Adds the start to nothing, and tells whether that is of the kind.
fn begin<M: Machine>(
    alloc: Global,
    plan: &Arc<Plan>,
    question: Question,
    seen: &mut Seen,
) -> Result<bool, NoMemory>
    requires none { seen.old ≡ [] }
    ensures { IfOk result (λ fails. Begins plan.now.value question seen.new fails) }
{
    let start = Standing::<M>::start(alloc, plan)?;
    let asked = Asked {
        question,
        limit: 1,
        from: 0,
        depth: 0,
    };
    let mark = start.marked(asked, Choice::Own(Instr::Tick), 0)?;
    let stored = start.stored()?;
    seen.add(&stored, mark)?;
    Ok(mark.fails)
}

/// Adds what the choices of each state lead to, in the order in which they were seen.
fn search<M: Machine, P: Progress>(
    alloc: Global,
    plan: &Arc<Plan>,
    question: Question,
    limit: u32,
    seen: &mut Seen,
    progress: &mut P,
) -> Result<Ending, NoMemory>
    requires { Begins plan.now.value question seen.old false }
    ensures comes { IfOk result (Comes plan.now.value question seen.new) }
    ensures full { (depth : ℕ) → result ≡ Ok (Ending.Deep depth) → IsFull limit seen.new depth }
{
    let mut waiting: Waiting<M> = Waiting::new(alloc);
    handle_all(alloc, plan, question, limit, seen, &mut waiting, progress)
}

/// The same, with the machines that wait to be gone on with.
fn handle_all<M: Machine, P: Progress>(
    alloc: Global,
    plan: &Arc<Plan>,
    question: Question,
    limit: u32,
    seen: &mut Seen,
    waiting: &mut Waiting<M>,
    progress: &mut P,
) -> Result<Ending, NoMemory>
    requires begins { Begins plan.now.value question seen.old false }
    requires waiting { AreWaiting plan.now.value seen.old waiting.old }
    ensures comes { IfOk result (Comes plan.now.value question seen.new) }
    ensures full { (depth : ℕ) → result ≡ Ok (Ending.Deep depth) → IsFull limit seen.new depth }
{
    for place in 0..limit as usize + 1 {
        let Some(mark) = seen.mark(place) else {
            return Ok(Ending::Closed);
        };
        let asked = Asked {
            question,
            limit,
            from: place as u32,
            depth: mark.depth,
        };
        progress.tell(seen.len(), mark.depth);
        match handle::<M>(alloc, plan, asked, seen, waiting)? {
            Tried::Going => {}
            Tried::Failing => return Ok(Ending::Failed),
            Tried::Full => return Ok(Ending::Deep(mark.depth)),
        }
    }
    Ok(Ending::Deep(0))
}

/// Adds what the choices of one state lead to.
fn handle<M: Machine>(
    alloc: Global,
    plan: &Arc<Plan>,
    asked: Asked,
    seen: &mut Seen,
    waiting: &mut Waiting<M>,
) -> Result<Tried, NoMemory>
    requires waiting { AreWaiting plan.now.value seen.old waiting.old }
    requires ahead { IsAhead plan.now.value asked.question seen.old asked.from asked.depth }
    ensures handles { IfOk result (Handles plan.now.value asked.question seen.old seen.new asked.from asked.depth) }
    ensures full { result ≡ Ok Tried.Full → IsFull asked.limit seen.new asked.depth }
    ensures waiting { result ≡ Ok Tried.Going → AreWaiting plan.now.value seen.new waiting.new }
{
    let place = asked.from as usize;
    let standing = come_to::<M>(alloc, plan, asked.question, seen, waiting, place)?;
    expand(seen, waiting, &standing, asked)
}

/// How many states were seen, and in how many of them what is counted holds.
fn tally_of(seen: &Seen) -> Tally
    ensures { IsCounted seen.now result }
{
    Tally {
        states: seen.len(),
        first: seen.count(Counted::First),
        second: seen.count(Counted::Second),
        spent: seen.count(Counted::Spent),
    }
}
