//! The calls of machines, of either body: once all instructions of a scenario's actor have been carried out.

use crate::showing::show_bytes;
use crate::trying::{Tried, try_call};
use crate::views::{show_machine, show_view};
use cmwq_asm::assemble;
use cmwq_dump::dump_text;
use cmwq_play::PlayError;
use cmwq_runs::issue_all;
use cmwq_table::{Machine, View};
use cmwq_types::Scenario;
use std::alloc::Global;

/// A call of a machine, or of one that is to be.
#[derive(Clone, Copy)]
pub(crate) enum MachineCall {
    Load,
    Copy,
    Look,
    Dump,
}

/// What such a call answers.
#[derive(Drop)]
enum Answer<M> {
    Machine(M),
    View(View),
    Text(Vec<u8>),
}

/// A machine that has carried out the instructions of its scenario's actor.
#[derive(Drop)]
struct OnMachine<'s, M> {
    scenario: &'s Scenario,
    machine: M,
    call: MachineCall,
}

impl<M: Machine> Tried for OnMachine<'_, M> {
    type Answer = Answer<M>;

    fn show_held<R: Print>(&mut self, rt: &R) -> Result<(), PlayError> {
        show_machine(rt, &self.machine)
    }

    fn call(&mut self, alloc: Global) -> Result<Answer<M>, PlayError> {
        match self.call {
            MachineCall::Load => Ok(Answer::Machine(loaded(alloc, self.scenario)?)),
            MachineCall::Copy => Ok(Answer::Machine(self.machine.copy()?)),
            MachineCall::Look => Ok(Answer::View(self.machine.look()?)),
            MachineCall::Dump => Ok(Answer::Text(dump_text(alloc, &self.machine)?)),
        }
    }

    /// A machine is shown as it is, and once it has carried out the instructions.
    fn show_answer<R: Print>(
        &mut self,
        rt: &R,
        _alloc: Global,
        answer: Answer<M>,
    ) -> Result<(), PlayError> {
        match answer {
            Answer::Machine(mut machine) => {
                show_machine(rt, &machine)?;
                carry_out(&mut machine, self.scenario);
                show_machine(rt, &machine)
            }
            Answer::View(view) => show_view(rt, &view),
            Answer::Text(text) => show_bytes(rt, &text),
        }
    }
}

/// A machine of a scenario that was read, and so is valid.
pub(crate) fn loaded<M: Machine>(alloc: Global, scenario: &Scenario) -> Result<M, PlayError> {
    M::load(alloc, scenario).map_err(|_want| PlayError::NoMemory)
}

/// Has the machine carry out the instructions of the scenario's first actor.
fn carry_out<M: Machine>(machine: &mut M, scenario: &Scenario) {
    if let Some(actor) = scenario.actors.first() {
        issue_all(machine, &actor.lines);
    }
}

/// Makes a call of a machine of the scenario of this text.
pub(crate) fn try_machine<M: Machine, R: Print>(
    rt: &R,
    alloc: Global,
    call: MachineCall,
    text: &[u8],
) -> Result<(), PlayError> {
    let scenario = assemble(alloc, text)?;
    let mut machine: M = loaded(alloc, &scenario)?;
    carry_out(&mut machine, &scenario);
    let mut tried = OnMachine {
        scenario: &scenario,
        machine,
        call,
    };
    try_call(rt, alloc, &mut tried)
}
