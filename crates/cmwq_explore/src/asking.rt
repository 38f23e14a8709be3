//! Whether a state is of the kind that is asked for, and what is counted beside.
ghost use Rattle.cmwq_orders.specs.Orders.{any_below};
ghost use Rattle.cmwq_orders.specs.Questions.{can_go_on, can_move, can_take, counts_first, counts_second, fails, have_ended, is_spent, is_stuck, pends_or_runs, runs};
ghost use Rattle.cmwq_orders.specs.declared.choice.Choice.TheVariants as choice;
ghost use Rattle.cmwq_types.specs.declared.instr.Instr.TheVariants as instr;
ghost use Rattle.cmwq_types.specs.Scenario.{pool_count};
ghost use Rattle.std.specs.Prelude.{◌≡◌, IfOk, length};
ghost use Rattle.cmwq_table.specs.State.{pending_at};
ghost use Rattle.std.specs.Prelude.{is_some};

use crate::standing::Standing;
use cmwq_orders::{Choice, Question};
use cmwq_reads::is_spent as machine_is_spent;
use cmwq_table::Machine;
use cmwq_types::{Instr, NoMemory, WorkId};

impl<M: Machine> Standing<M> {
    /// Whether the state is of the kind that is asked for.
    #[tactic(auto, unfolding(cmwq_orders::specs::Questions::fails))]
    pub(crate) fn fails(&self, question: Question) -> Result<bool, NoMemory>
        ensures { IfOk result (λ is. is ≡ fails self.now.plan.scenario self.now.plan.before question self.now.explored) }
    {
        match question {
            Question::After { actor, work } => {
                Ok(self.has_ended(actor) && (self.pends(work) || self.runs(work)))
            }
            Question::Never(work) => Ok(self.runs(work)),
            Question::Together(v, w) => Ok(self.runs(v) && self.runs(w)),
            Question::Stuck => self.is_stuck(),
        }
    }

    /// Whether it counts for the first number of an answer.
    #[tactic(auto, unfolding(cmwq_orders::specs::Questions::counts_first))]
    pub(crate) fn counts_first(&self, question: Question) -> bool
        ensures { result ≡ counts_first self.now.plan.scenario question self.now.explored }
    {
        match question {
            Question::After { actor, .. } => self.has_ended(actor),
            Question::Never(work) => self.pends(work),
            Question::Together(v, _) => self.runs(v),
            Question::Stuck => self.have_ended(),
        }
    }

    /// Whether it counts for the second number of an answer.
    #[tactic(auto, unfolding(cmwq_orders::specs::Questions::counts_second))]
    pub(crate) fn counts_second(&self, question: Question) -> bool
        ensures { result ≡ counts_second question self.now.explored }
    {
        match question {
            Question::Together(_, w) => self.runs(w),
            _ => false,
        }
    }

    /// Whether the machine has spent the scenario's steps.
    pub(crate) fn is_spent(&self) -> bool
        ensures { result ≡ is_spent self.now.plan.scenario self.now.explored }
    {
        machine_is_spent(self.machine())
    }

    fn runs(&self, work: WorkId) -> bool
        ensures { result ≡ runs self.now.explored work }
    {
        self.machine().running_of(work.0 as usize).is_some()
    }

    fn pends(&self, work: WorkId) -> bool
        ensures { result ≡ is_some (pending_at self.now.explored.machine work.0) }
    {
        self.machine().pending_of(work.0 as usize).is_some()
    }

    /// Whether each actor has ended.
    fn have_ended(&self) -> bool
        ensures { result ≡ have_ended self.now.plan.scenario self.now.explored }
    {
        let mut all = true;
        for actor in 0..self.plan().actor_count() {
            all = all && self.has_ended(actor);
        }
        all
    }

    /// Whether steps are left, some actor hasn't ended, and no choice can be taken.
    fn is_stuck(&self) -> Result<bool, NoMemory>
        ensures { IfOk result (λ is. is ≡ is_stuck self.now.plan.scenario self.now.plan.before self.now.explored) }
    {
        if self.is_spent() || self.have_ended() {
            return Ok(false);
        }
        Ok(!self.can_go_on()?)
    }

    /// Whether some choice can be taken.
    fn can_go_on(&self) -> Result<bool, NoMemory>
        ensures { IfOk result (λ can. can ≡ can_go_on self.now.plan.scenario self.now.plan.before self.now.explored) }
    {
        let mut can = false;
        for actor in 0..self.plan().actor_count() {
            can = can || self.can_take(Choice::Line(actor))?;
        }
        if can {
            return Ok(true);
        }
        self.can_move()
    }

    /// Whether the machine can do something by itself.
    fn can_move(&self) -> Result<bool, NoMemory>
        ensures { IfOk result (λ can. can ≡ can_move self.now.plan.scenario self.now.plan.before self.now.explored) }
    {
        if self.can_take(Choice::Own(Instr::Fire))? || self.can_step()? {
            return Ok(true);
        }
        self.can_take(Choice::Own(Instr::Tick))
    }

    /// Whether some pool can make a move.
    fn can_step(&self) -> Result<bool, NoMemory>
        ensures { IfOk result (λ can. can ≡ any_below (λ pool. can_take self.now.plan.scenario self.now.plan.before self.now.explored (choice.Own (instr.Step pool))) (pool_count self.now.plan.scenario)) }
    {
        let mut can = false;
        for pool in 0..self.plan().pool_count() {
            can = can || self.can_take(Choice::Own(Instr::Step(pool)))?;
        }
        Ok(can)
    }

    /// Whether the choice can be taken.
    fn can_take(&self, choice: Choice) -> Result<bool, NoMemory>
        ensures { IfOk result (λ can. can ≡ can_take self.now.plan.scenario self.now.plan.before self.now.explored choice) }
    {
        if !self.may_take(choice) {
            return Ok(false);
        }
        let mut copy = self.copy()?;
        Ok(copy.take(choice).is_some())
    }
}
