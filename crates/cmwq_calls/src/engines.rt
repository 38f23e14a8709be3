//! Engines: opened, alone and behind a lock. Each that is opened then takes all instructions of its scenario's actor.

use crate::entries;
use crate::instructions::{actor_instrs, count_of};
use crate::timing::{issue_timed, opened};
use crate::trying::{Tried, try_call};
use crate::views::show_machine;
use cmwq_asm::assemble;
use cmwq_engine::{Engine, Shared};
use cmwq_lock::TicketLock;
use cmwq_play::PlayError;
use cmwq_table::Machine;
use cmwq_types::{Instr, Scenario};
use std::alloc::Global;

/// A call that opens an engine, or a lock over one.
#[derive(Clone, Copy)]
pub(crate) enum EngineCall {
    Open,
    OpenShared,
    OpenLock,
}

/// A scenario, of which an engine is opened, and the engine that the next lock is opened over.
#[derive(Drop)]
struct Opening<'s, M: Machine> {
    scenario: &'s Scenario,
    instrs: &'s [Instr],
    call: EngineCall,
    given: Option<Engine<M>>,
}

impl<M: Machine> Tried for Opening<'_, M> {
    type Answer = Engine<M>;

    fn prepare(&mut self, alloc: Global) -> Result<(), PlayError> {
        if matches!(self.call, EngineCall::OpenLock) {
            self.given = Some(opened(alloc, self.scenario, self.instrs)?);
        }
        Ok(())
    }

    /// A lock is taken apart at once, which takes no memory.
    fn call(&mut self, alloc: Global) -> Result<Engine<M>, PlayError> {
        match self.call {
            EngineCall::Open => opened(alloc, self.scenario, self.instrs),
            EngineCall::OpenShared => shared(alloc, self.scenario, self.instrs),
            EngineCall::OpenLock => locked(alloc, self.given.take().ok_or(PlayError::Full)?),
        }
    }

    fn show_answer<R: Print>(
        &mut self,
        rt: &R,
        alloc: Global,
        mut answer: Engine<M>,
    ) -> Result<(), PlayError> {
        show_engine(rt, alloc, &mut answer, self.scenario, self.instrs)
    }
}

/// Prints an engine's machine, its entries once it has taken the instructions, and its machine then.
fn show_engine<M: Machine, R: Print>(
    rt: &R,
    alloc: Global,
    engine: &mut Engine<M>,
    scenario: &Scenario,
    instrs: &[Instr],
) -> Result<(), PlayError> {
    show_machine(rt, engine.machine())?;
    let times = issue_timed(alloc, engine, instrs)?;
    entries::print(rt, scenario, engine.history(), &times)?;
    show_machine(rt, engine.machine())
}

/// The engine of a shared one of the scenario.
fn shared<M: Machine>(
    alloc: Global,
    scenario: &Scenario,
    instrs: &[Instr],
) -> Result<Engine<M>, PlayError> {
    let room = count_of(instrs)?;
    let Ok((shared, opener)) = Shared::open(alloc, scenario, room) else {
        return Err(PlayError::NoMemory);
    };
    match shared.close(opener) {
        Ok(engine) => Ok(engine),
        Err(_out) => Err(PlayError::Tickets),
    }
}

/// The engine, once a lock has kept it.
fn locked<M: Machine>(alloc: Global, engine: Engine<M>) -> Result<Engine<M>, PlayError> {
    if !engine.history().is_empty() {
        return Err(PlayError::Full);
    }
    let (lock, opener) = TicketLock::open(alloc, engine)?;
    match lock.close(opener) {
        Ok(engine) => Ok(engine),
        Err(_out) => Err(PlayError::Tickets),
    }
}

/// Opens an engine, as it is called, of the scenario of this text.
pub(crate) fn try_engine<M: Machine, R: Print>(
    rt: &R,
    alloc: Global,
    call: EngineCall,
    text: &[u8],
) -> Result<(), PlayError> {
    let scenario = assemble(alloc, text)?;
    let instrs = actor_instrs(alloc, &scenario)?;
    let mut tried = Opening::<M> {
        scenario: &scenario,
        instrs: &instrs,
        call,
        given: None,
    };
    try_call(rt, alloc, &mut tried)
}
