//! The engine: a machine with its history.
ghost use Rattle.cmwq_engine.specs.Engine.{IsSound, Opens, entered, entry, opening, engine_reply};
ghost use Rattle.cmwq_table.specs.State.{start};
ghost use Rattle.cmwq_types.specs.Faults.{IsValid};
ghost use Rattle.cmwq_types.specs.declared.limits.TheConstants.{MAX_HISTORY};
ghost use Rattle.std.specs.Prelude.{◌≡◌, ◌<◌, ◌≤◌, ◌↔◌, All, IfErr, IfOk, IsErr, length};

use crate::history::{Entry, Full};
use cmwq_table::{LoadError, Machine};
use cmwq_types::{Instr, NoMemory, Reply, Scenario};
use std::alloc::Global;
use std::marker::Model;
use std::sync::Arc;

/// A machine, with the history of all that was issued on it.
///
/// Of every engine it holds that the scenario is valid, the history legal, and the machine in the state that
/// the instruction table gives from the scenario over the history. `history` and `machine` say so.
#[derive(Drop)]
pub struct Engine<M: Machine> {
    machine: M,
    capacity: u32,
    history: Vec<Entry>,
}

impl<M: Machine> Model for Engine<M> {
    ghost use Rattle.cmwq_engine.specs.Engine.{Contents, IsEngine, contents_of};
    ghost use Rattle.std.specs.Prelude.{vec_capacity};

    ghost Value = { Contents };

    ghost view = { λ e. contents_of (M.loaded e.machine) e.capacity (M.state e.machine) e.history.items };

    ghost invariant = { λ e. IsEngine (contents_of (M.loaded e.machine) e.capacity (M.state e.machine) e.history.items) (vec_capacity e.history) };
}

impl<M: Machine> Engine<M> {
    /// A machine in the scenario's start state, with no history yet and room for so many entries, at most
    /// 1,048,576. No other call of the engine takes memory.
    ///
    /// Answers `Fault` exactly where the scenario has one, and else may answer `NoMemory`.
    pub fn open(alloc: Global, scenario: &Scenario, capacity: u32) -> Result<Engine<M>, LoadError>
        requires { capacity ≤ MAX_HISTORY }
        ensures engine { Opens scenario.now capacity result }
        ensures sound { IfOk result (λ engine. IsSound engine) }
    {
        let machine = M::load(alloc, scenario)?;
        Engine::over(alloc, machine, capacity).map_err(|_| LoadError::NoMemory)
    }

    /// A machine in the start state of a scenario that is known to be valid, with no history yet and room for so many
    /// entries, at most 1,048,576. The scenario is shared, and isn't judged again. No other call of the engine takes memory.
    pub fn begin(
        alloc: Global,
        scenario: Arc<Scenario>,
        capacity: u32,
    ) -> Result<Engine<M>, NoMemory>
        requires valid { IsValid scenario.value }
        requires few { capacity ≤ MAX_HISTORY }
        ensures engine { IfOk result (λ engine. engine ≡ opening scenario.value capacity) }
        ensures sound { IfOk result (λ engine. IsSound engine) }
    {
        let machine = M::begin(alloc, scenario)?;
        Engine::over(alloc, machine, capacity)
    }

    /// A machine at its start, with room for so many entries.
    fn over(alloc: Global, machine: M, capacity: u32) -> Result<Engine<M>, NoMemory>
        requires valid { IsValid (M.loaded machine) }
        requires start { M.state machine ≡ start (M.loaded machine) }
        requires few { capacity ≤ MAX_HISTORY }
        ensures engine { IfOk result (λ engine. engine ≡ opening (M.loaded machine) capacity) }
        ensures sound { IfOk result (λ engine. IsSound engine) }
    {
        let history = Vec::with_capacity(alloc, capacity as usize)?;
        Ok(Engine {
            machine,
            capacity,
            history,
        })
    }

    /// Carries out one instruction, enters it with its ticket, its caller and the reply, and answers the reply.
    /// Refused instructions and questions are entered too. The ticket has to be above all those in the history.
    ///
    /// `Full` exactly where the history has as many entries as there is room for; then nothing has changed.
    pub fn issue(&mut self, ticket: u64, caller: u32, instr: Instr) -> Result<Reply, Full>
        requires later { All (λ e. e.ticket < ticket) self.old.history }
        ensures reply { IfOk result (λ reply. reply ≡ engine_reply self.old instr) }
        ensures entered { IfOk result (λ reply. self.new ≡ entered self.old (entry ticket caller instr reply)) }
        ensures full { IsErr result ↔ length self.old.history ≡ self.old.setting.capacity }
        ensures same { IfErr result (λ _. self.new ≡ self.old) }
        ensures sound { IsSound self.new }
    {
        if self.history.len() >= self.capacity as usize {
            return Err(Full);
        }
        let reply = self.machine.exec(instr);
        self.history.push_reserved(Entry {
            ticket,
            caller,
            instr,
            reply,
        });
        Ok(reply)
    }

    /// What was issued so far, in order.
    pub fn history(&self) -> &[Entry]
        ensures entries { result.now ≡ self.now.history }
        ensures few { length result.now ≤ MAX_HISTORY }
        ensures sound { IsSound self.now }
    {
        &self.history
    }

    /// The machine, in the state that the history has brought it to.
    pub fn machine(&self) -> &M
        ensures scenario { M.loaded result.now ≡ self.now.setting.scenario }
        ensures state { M.state result.now ≡ self.now.state }
        ensures sound { IsSound self.now }
    {
        &self.machine
    }
}
