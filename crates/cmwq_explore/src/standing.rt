//! A machine and the actors, somewhere in an order.
ghost use Rattle.cmwq_explore.specs.Plans.{PlanContents, Stood, TakenAs};
ghost use Rattle.cmwq_stored.specs.Stored.{stored_of};
ghost use Rattle.cmwq_orders.specs.Orders.{awaits_time, cannot_come, comes, comes_later, flush_given, has_ended, instr_taken, is_astir, is_own, is_time_awaited, is_timed, is_waiting, may_begin, may_go, next_line, start, taken, taken_line, taken_own};
ghost use Rattle.cmwq_table.specs.Counts.{pends};
ghost use Rattle.cmwq_table.specs.State as states;
ghost use Rattle.cmwq_table.specs.State.{pending_at};
ghost use Rattle.cmwq_table.specs.Table.{table};
ghost use Rattle.cmwq_types.specs.declared.limits.TheConstants.{MAX_LINES};
ghost use Rattle.std.specs.Prelude.{◌≡◌, ◌+◌, ◌<◌, IfOk, IfSome, None, Some, false, length, replicate, slice_index_or, slice_set};

use crate::plan::{Plan, goes_on};
use cmwq_orders::Choice;
use cmwq_reads::{flush_target, is_done, is_met, next_move, operands};
use cmwq_stored::Stored;
use cmwq_table::Machine;
use cmwq_types::{Instr, NoMemory, Place, Refusal, Reply, filled};
use std::alloc::Global;
use std::marker::Model;
use std::sync::Arc;

/// A machine and the actors, somewhere in an order of a plan.
#[derive(Drop)]
pub(crate) struct Standing<M: Machine> {
    plan: Arc<Plan>,
    machine: M,
    at: Vec<u16>,
    waits: Vec<Option<u16>>,
}

impl<M: Machine> Model for Standing<M> {
    ghost use Rattle.cmwq_explore.specs.Plans.{IsStanding, Stood, stood_at};

    ghost Value = { Stood };

    ghost view = { λ s. stood_at s.plan.value (M.state s.machine) s.at.items s.waits.items };

    ghost invariant = { λ s. IsStanding (M.loaded s.machine) (stood_at s.plan.value (M.state s.machine) s.at.items s.waits.items) };
}

/// Where the actors stand, each by how many lines it has carried out and by the flush that the last one gave.
#[derive(Drop)]
struct Actors {
    at: Vec<u16>,
    waits: Vec<Option<u16>>,
}

impl Actors {
    /// So many, none of which has begun.
    fn at_start(alloc: Global, count: usize) -> Result<Actors, NoMemory>
        ensures { IfOk result (λ actors. (actors.at.items ≡ replicate count 0) × (actors.waits.items ≡ replicate count None)) }
    {
        let at = filled(alloc, 0, count)?;
        Ok(Actors {
            at,
            waits: filled(alloc, None, count)?,
        })
    }

    /// The same as these.
    fn copy(alloc: Global, at: &[u16], waits: &[Option<u16>]) -> Result<Actors, NoMemory>
        ensures { IfOk result (λ actors. (actors.at.items ≡ at.now) × (actors.waits.items ≡ waits.now)) }
    {
        let places = Vec::from_slice(alloc, at)?;
        Ok(Actors {
            at: places,
            waits: Vec::from_slice(alloc, waits)?,
        })
    }
}

/// A machine that has carried out nothing of the plan's scenario.
fn begun<M: Machine>(alloc: Global, plan: &Plan) -> Result<M, NoMemory>
    ensures loaded { IfOk result (λ machine. M.loaded machine ≡ plan.now.scenario) }
    ensures state { IfOk result (λ machine. M.state machine ≡ states.start plan.now.scenario) }
{
    M::begin(alloc, plan.shared_scenario()?)
}

impl<M: Machine> Standing<M> {
    /// Where nobody has begun.
    #[tactic(auto, using(crate::proofs::PlanLemmas::begins_whole))]
    pub(crate) fn start(alloc: Global, plan: &Arc<Plan>) -> Result<Standing<M>, NoMemory>
        ensures plan { IfOk result (λ s. s.plan ≡ plan.now.value) }
        ensures start { IfOk result (λ s. s.explored ≡ start plan.now.value.scenario) }
    {
        let actors = Actors::at_start(alloc, plan.scenario().actors.len())?;
        Ok(Standing {
            machine: begun(alloc, plan)?,
            plan: Arc::clone(plan)?,
            at: actors.at,
            waits: actors.waits,
        })
    }

    /// The same, to be changed alone.
    pub(crate) fn copy(&self) -> Result<Standing<M>, NoMemory>
        ensures { IfOk result (λ copy. copy ≡ self.now) }
    {
        let actors = Actors::copy(*self.at.allocator(), &self.at, &self.waits)?;
        Ok(Standing {
            machine: self.machine.copy()?,
            plan: Arc::clone(&self.plan)?,
            at: actors.at,
            waits: actors.waits,
        })
    }

    /// Every part of it, to be looked up.
    #[tactic(auto, unfolding(cmwq_stored::specs::Stored::stored_of))]
    pub(crate) fn stored(&self) -> Result<Stored, NoMemory>
        ensures { IfOk result (λ stored. stored ≡ stored_of self.now.explored) }
    {
        let alloc = *self.at.allocator();
        Stored::of(alloc, &self.machine.look()?, &self.at, &self.waits)
    }

    /// The plan.
    pub(crate) fn plan(&self) -> &Plan
        ensures { result.now ≡ self.now.plan }
    {
        &self.plan
    }

    /// The machine.
    pub(crate) fn machine(&self) -> &M
        ensures state { M.state result.now ≡ self.now.explored.machine }
        ensures loaded { M.loaded result.now ≡ self.now.plan.scenario }
    {
        &self.machine
    }

    /// How many lines the actor has carried out, and 0 where there is no such actor.
    fn place(&self, actor: u8) -> u16
        ensures { result ≡ slice_index_or self.now.explored.at actor 0 }
    {
        self.at.get(actor as usize).copied().unwrap_or(0)
    }

    /// The flush that the actor's last line gave, if it gave one.
    pub(crate) fn waits_of(&self, actor: u8) -> Option<u16>
        ensures { result ≡ slice_index_or self.now.explored.waits actor None }
    {
        self.waits.get(actor as usize).copied().unwrap_or(None)
    }

    /// The line that the actor carries out next.
    pub(crate) fn next_line(&self, actor: u8) -> Option<Instr>
        ensures line { result ≡ next_line self.now.plan.scenario self.now.explored actor }
        ensures there { IfSome result (λ _. actor < length self.now.plan.scenario.actors) }
        ensures early { IfSome result (λ _. slice_index_or self.now.explored.at actor 0 < MAX_LINES) }
    {
        self.plan.line(actor, self.place(actor))
    }

    /// Whether the flush that the actor's last line gave isn't done.
    pub(crate) fn is_waiting(&self, actor: u8) -> bool
        ensures { result ≡ is_waiting self.now.plan.scenario self.now.explored actor }
    {
        match self.waits.get(actor as usize) {
            Some(Some(flush)) => {
                !is_done(&self.machine, flush_target(&self.machine, *flush as usize))
            }
            _ => false,
        }
    }

    /// Whether the actor has carried out its lines, and waits for nothing.
    pub(crate) fn has_ended(&self, actor: u8) -> bool
        ensures { result ≡ has_ended self.now.plan.scenario self.now.explored actor }
    {
        self.next_line(actor).is_none() && !self.is_waiting(actor)
    }

    /// Whether all that precede the actor have ended.
    fn may_begin(&self, actor: u8) -> bool
        ensures { result ≡ may_begin self.now.plan.scenario self.now.plan.before self.now.explored actor }
    {
        let mut may = true;
        let pairs = self.plan.before();
        for pair in pairs {
            may = may && (pair.then != actor || self.has_ended(pair.first));
        }
        may
    }

    /// Whether the actor waits for nobody.
    fn may_go(&self, actor: u8) -> bool
        ensures { result ≡ may_go self.now.plan.scenario self.now.plan.before self.now.explored actor }
    {
        self.may_begin(actor) && !self.is_waiting(actor)
    }

    /// Whether the choice may be taken, as far as is told with no change: where not, it can't be.
    #[tactic(auto, using(crate::proofs::NeverLemmas::line_never, crate::proofs::NeverLemmas::step_never, crate::proofs::NeverLemmas::tick_never))]
    pub(crate) fn may_take(&self, choice: Choice) -> bool
        ensures { result ≡ false → taken self.now.plan.scenario self.now.plan.before self.now.explored choice ≡ None }
    {
        match choice {
            Choice::Line(actor) => self.may_go(actor),
            Choice::Own(Instr::Step(pool)) => next_move(&self.machine, pool).is_some(),
            Choice::Own(Instr::Tick) => self.machine.is_settled(),
            Choice::Own(_) => true,
        }
    }

    /// Takes the choice, and tells its instruction; `None` where it can't be taken now, and then nothing is known of what it left.
    #[tactic(auto, unfolding(cmwq_orders::specs::Orders::taken))]
    pub(crate) fn take(&mut self, choice: Choice) -> Option<Instr>
        ensures taken { TakenAs (taken self.old.plan.scenario self.old.plan.before self.old.explored choice) (instr_taken self.old.plan.scenario self.old.explored choice) self.new.explored result }
        ensures plan { self.new.plan ≡ self.old.plan }
    {
        match choice {
            Choice::Line(actor) => self.take_line(actor),
            Choice::Own(instr) => self.take_own(instr),
        }
    }

    /// Carries out the actor's next line, if that can come now.
    fn take_line(&mut self, actor: u8) -> Option<Instr>
        ensures taken { TakenAs (taken_line self.old.plan.scenario self.old.plan.before self.old.explored actor) (next_line self.old.plan.scenario self.old.explored actor) self.new.explored result }
        ensures plan { self.new.plan ≡ self.old.plan }
    {
        if !self.may_go(actor) {
            return None;
        }
        let instr = self.next_line(actor)?;
        if !self.comes(instr) {
            return None;
        }
        let reply = self.exec(instr);
        if cannot_come(reply) {
            return None;
        }
        self.go_on(actor, flush_given(reply));
        Some(instr)
    }

    /// Does what the machine may do by itself, if it may and that can come now.
    fn take_own(&mut self, instr: Instr) -> Option<Instr>
        ensures taken { TakenAs (taken_own self.old.plan.scenario self.old.plan.before self.old.explored instr) (Some instr) self.new.explored result }
        ensures plan { self.new.plan ≡ self.old.plan }
    {
        if !self.is_own(instr) {
            return None;
        }
        if cannot_come(self.exec(instr)) {
            return None;
        }
        Some(instr)
    }

    /// Carries out an instruction.
    fn exec(&mut self, instr: Instr) -> Reply
        ensures plan { self.new.plan ≡ self.old.plan }
        ensures reply { result ≡ (table self.old.plan.scenario self.old.explored.machine instr).1 }
        ensures state { self.new.explored ≡ record self.old.explored { machine = (table self.old.plan.scenario self.old.explored.machine instr).0 } }
    {
        let Standing { machine, .. } = self;
        machine.exec(instr)
    }

    /// The actor has carried out one line more, and it gave this flush, or none.
    fn go_on(&mut self, actor: u8, flush: Option<u16>)
        requires there { actor < length self.old.plan.scenario.actors }
        requires early { slice_index_or self.old.explored.at actor 0 < MAX_LINES }
        ensures plan { self.new.plan ≡ self.old.plan }
        ensures actor { self.new.explored ≡ record self.old.explored {
          at = slice_set self.old.explored.at actor (slice_index_or self.old.explored.at actor 0 + 1);
          waits = slice_set self.old.explored.waits actor flush;
        } }
    {
        let at = self.place(actor) + 1;
        let Standing {
            at: places,
            waits,
            ..
        } = self;
        places[actor as usize] = at;
        waits[actor as usize] = flush;
    }

    /// Whether the line can come now: until, wait and quiet can once what they go on for has come, and a wait once its flush was given.
    fn comes(&self, instr: Instr) -> bool
        ensures { result ≡ comes self.now.plan.scenario self.now.explored.machine instr }
    {
        !goes_on(instr)
            || (is_met(&self.machine, instr) && operands(&self.machine, instr).is_none())
    }

    /// Whether the machine may do this by itself.
    fn is_own(&self, instr: Instr) -> bool
        ensures { result ≡ is_own self.now.plan.scenario self.now.plan.before self.now.explored instr }
    {
        match instr {
            Instr::Fire => true,
            Instr::Step(pool) => pool < self.plan.pool_count(),
            Instr::Tick => is_astir(&self.machine) || self.is_time_awaited(),
            _ => false,
        }
    }

    /// Whether an actor that waits for nobody stands at an until of a time that hasn't come.
    fn is_time_awaited(&self) -> bool
        ensures { result ≡ is_time_awaited self.now.plan.scenario self.now.plan.before self.now.explored }
    {
        let mut awaited = false;
        for actor in 0..self.plan.actor_count() {
            awaited = awaited || (self.may_go(actor) && self.awaits_time(actor));
        }
        awaited
    }

    /// Whether the actor's next line is an until of a time that hasn't come.
    fn awaits_time(&self, actor: u8) -> bool
        ensures { result ≡ awaits_time self.now.explored.machine (next_line self.now.plan.scenario self.now.explored actor) }
    {
        match self.next_line(actor) {
            Some(Instr::Until(time)) => self.machine.now() < u64::from(time),
            _ => false,
        }
    }
}

/// Whether a timer is set, or a work runs.
fn is_astir<M: Machine>(machine: &M) -> bool
    ensures { result ≡ is_astir (M.loaded machine.now) (M.state machine.now) }
{
    let mut astir = false;
    for w in 0..machine.scenario().works.len() {
        astir = astir || is_timed(machine, w) || machine.running_of(w).is_some();
    }
    astir
}

/// Whether the work's timer is set.
fn is_timed<M: Machine>(machine: &M, w: usize) -> bool
    ensures { result ≡ pends is_timed (pending_at (M.state machine.now) w) }
{
    match machine.pending_of(w) {
        Some(pending) => waits_for_timer(pending.place),
        None => false,
    }
}

fn waits_for_timer(place: Place) -> bool
    ensures { result ≡ is_timed place }
{
    matches!(place, Place::Timer { .. })
}

/// Whether the reply says that its line can't come now.
fn cannot_come(reply: Reply) -> bool
    ensures { result ≡ cannot_come reply }
{
    match reply {
        Reply::Refused(why) => comes_later(why),
        _ => false,
    }
}

fn comes_later(why: Refusal) -> bool
    ensures { result ≡ comes_later why }
{
    matches!(
        why,
        Refusal::NothingToDo | Refusal::Unsettled(_) | Refusal::Spent
    )
}

/// The flush that the reply gives, if it gives one.
fn flush_given(reply: Reply) -> Option<u16>
    ensures { result ≡ flush_given reply }
{
    match reply {
        Reply::Flush(flush) => Some(flush),
        Reply::Sync { flush, .. } => Some(flush),
        _ => None,
    }
}
