//! What is kept along a run that is traced in JSON.
ghost use Rattle.cmwq_slices.specs.Executions.{execution_ended, executions_after, executions_to};
ghost use Rattle.cmwq_slices.specs.Slices.{AreDone, Follows, phases_after, phases_ended, slices_to};
ghost use Rattle.cmwq_table.specs.State.{State};
ghost use Rattle.cmwq_trace.specs.Json.{named_by, named_then, run_begun};
ghost use Rattle.cmwq_trace.specs.JsonParts.{all_marked, marked};
ghost use Rattle.cmwq_types.specs.declared.limits.TheConstants.{MAX_WORKS};
ghost use Rattle.std.specs.Prelude.{◌≡◌, ◌<◌, ◌≤◌, ◌∷◌, ◌++◌, [], IfOk, OnOk, length, option_to_list};

use crate::json_line::{MarkedExecution, task_of};
use crate::json_threads::{JsonThread, JsonThreads};
use cmwq_slices::{Execution, Executions, PhaseSlice, Phases};
use cmwq_table::Reads;
use cmwq_types::{NoMemory, Reply, Scenario};
use std::alloc::Global;

/// The open phases and executions along a run, and the threads of workers that have their names.
#[derive(Drop)]
pub(crate) struct JsonRun {
    pub(crate) phases: Phases,
    pub(crate) executions: Executions,
    pub(crate) named: JsonThreads,
}

/// Executions and phases that have ended.
#[derive(Drop)]
pub(crate) struct Ended {
    pub(crate) executions: Vec<MarkedExecution>,
    pub(crate) slices: Vec<PhaseSlice>,
}

impl JsonRun {
    /// At the start of a run of the scenario.
    pub(crate) fn begin(alloc: Global, scenario: &Scenario) -> Result<JsonRun, NoMemory>
        ensures { IfOk result (λ run. run ≡ run_begun scenario.now) }
    {
        let works = scenario.works.len();
        Ok(JsonRun {
            phases: Phases::none(alloc, works)?,
            executions: Executions::none(alloc, works)?,
            named: JsonThreads::none(alloc),
        })
    }

    /// Follows an instruction that led from a state of this time to the machine's, and was given this reply; in that state, where the phases
    /// are steady, each was what its work's instance did. Answers what has ended.
    pub(crate) fn follow<R: Reads>(
        &mut self,
        alloc: Global,
        time: u64,
        machine: &R,
        reply: Reply,
        is_steady: bool,
    ) -> Result<Ended, NoMemory>
        requires { length self.old.phases ≡ length (R.loaded machine.now).works }
        ensures executions { IfOk result (λ ended. ended.executions.items ≡ all_marked (R.loaded machine.now) self.old.named (option_to_list (execution_ended (R.state machine.now) reply self.old.executions))) }
        ensures slices { IfOk result (λ ended. (s : State) → Follows (R.loaded machine.now) s time is_steady self.old.phases (R.state machine.now)
            → ended.slices.items ≡ phases_ended (R.loaded machine.now) s (R.state machine.now).time self.old.phases) }
        ensures begun { OnOk result (self.new.executions ≡ executions_after (R.state machine.now) reply self.old.executions) }
        ensures named { OnOk result (self.new.named ≡ named_by (R.loaded machine.now) self.old.named (option_to_list (execution_ended (R.state machine.now) reply self.old.executions))) }
        ensures phases { OnOk result ((s : State) → Follows (R.loaded machine.now) s time is_steady self.old.phases (R.state machine.now)
            → self.new.phases ≡ phases_after (R.loaded machine.now) s (R.state machine.now).time self.old.phases) }
        ensures done { OnOk result ((s : State) → Follows (R.loaded machine.now) s time is_steady self.old.phases (R.state machine.now)
            → s.time < (R.state machine.now).time → AreDone (R.loaded machine.now) (R.state machine.now) 0 self.new.phases) }
    {
        let ended = self.executions.follow(machine, reply);
        let executions = self.named.mark_one(alloc, machine.scenario(), ended)?;
        let slices = self.phases.follow(alloc, time, machine, is_steady)?;
        Ok(Ended { executions, slices })
    }

    /// What has ended at the end of the run, at this time.
    pub(crate) fn end(
        &mut self,
        alloc: Global,
        scenario: &Scenario,
        time: u64,
    ) -> Result<Ended, NoMemory>
        requires phases { length self.old.phases ≤ MAX_WORKS }
        requires executions { length self.old.executions ≤ MAX_WORKS }
        ensures executions { IfOk result (λ ended. ended.executions.items ≡ all_marked scenario.now self.old.named (executions_to time 0 self.old.executions)) }
        ensures slices { IfOk result (λ ended. ended.slices.items ≡ slices_to time 0 self.old.phases) }
    {
        let mut open = Vec::new(alloc);
        self.executions.push_executions(time, &mut open)?;
        let executions = self.named.mark_all(alloc, scenario, &open)?;
        let mut slices = Vec::new(alloc);
        self.phases.push_slices(time, &mut slices)?;
        Ok(Ended { executions, slices })
    }
}

impl JsonThreads {
    /// Marks the execution, if there is one.
    fn mark_one(
        &mut self,
        alloc: Global,
        scenario: &Scenario,
        ended: Option<Execution>,
    ) -> Result<Vec<MarkedExecution>, NoMemory>
        ensures marked { IfOk result (λ marked. marked.items ≡ all_marked scenario.now self.old (option_to_list ended)) }
        ensures named { OnOk result (self.new ≡ named_by scenario.now self.old (option_to_list ended)) }
    {
        let mut executions = Vec::new(alloc);
        if let Some(execution) = ended {
            self.mark(scenario, execution, &mut executions)?;
        }
        Ok(executions)
    }

    /// Marks the executions, one after another.
    fn mark_all(
        &mut self,
        alloc: Global,
        scenario: &Scenario,
        ended: &[Execution],
    ) -> Result<Vec<MarkedExecution>, NoMemory>
        ensures marked { IfOk result (λ marked. marked.items ≡ all_marked scenario.now self.old ended.now) }
    {
        let mut executions = Vec::new(alloc);
        for execution in ended {
            self.mark(scenario, *execution, &mut executions)?;
        }
        Ok(executions)
    }

    /// Pushes the execution with the mark whether it is the first on its thread, which has its name then.
    fn mark(
        &mut self,
        scenario: &Scenario,
        execution: Execution,
        executions: &mut Vec<MarkedExecution>,
    ) -> Result<(), NoMemory>
        ensures marked { OnOk result (executions.new.items ≡ executions.old.items ++ marked scenario.now self.old execution ∷ []) }
        ensures named { OnOk result (self.new ≡ named_then scenario.now self.old execution) }
    {
        let thread = JsonThread::of(scenario, task_of(scenario, execution));
        let is_first = self.note(thread)?;
        executions.push(MarkedExecution {
            execution,
            is_first,
        })?;
        Ok(())
    }
}
