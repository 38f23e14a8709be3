//! A scenario's instructions, issued on an engine by one caller.
ghost use Rattle.cmwq_engine.specs.declared.history.Entry.{Entry};
ghost use Rattle.std.specs.List.{All};
ghost use Rattle.std.specs.Prelude.{◌<◌, IfOk};

use crate::instructions::count_of;
use cmwq_engine::Engine;
use cmwq_play::PlayError;
use cmwq_table::Machine;
use cmwq_types::{Instr, Scenario};
use std::alloc::Global;

/// An engine of a scenario that was read, and so is valid, with room for these instructions. `Full` where they are more than 1,048,576.
pub(crate) fn opened<M: Machine>(
    alloc: Global,
    scenario: &Scenario,
    instrs: &[Instr],
) -> Result<Engine<M>, PlayError> {
    let room = count_of(instrs)?;
    Engine::open(alloc, scenario, room).map_err(|_want| PlayError::NoMemory)
}

/// Has caller 0 issue the instructions under the tickets 0, 1 and so on, on an engine without a history, and gives the time behind each,
/// in ticks. `Full` where there is a history.
pub(crate) fn issue_timed<M: Machine>(
    alloc: Global,
    engine: &mut Engine<M>,
    instrs: &[Instr],
) -> Result<Vec<u64>, PlayError> {
    if !engine.history().is_empty() {
        return Err(PlayError::Full);
    }
    let mut times = Vec::new(alloc);
    let mut ticket = 0u64;
    for instr in instrs {
        ticket = issue_next(engine, ticket, *instr)?;
        times.push(engine.machine().now())?;
    }
    Ok(times)
}

/// Has caller 0 issue the instruction under the ticket, which is above all that were entered, and gives the next one.
fn issue_next<M: Machine>(
    engine: &mut Engine<M>,
    ticket: u64,
    instr: Instr,
) -> Result<u64, PlayError>
    requires { All (λ (e : Entry). e.ticket < ticket) engine.old.history }
    ensures { IfOk result (λ next. All (λ (e : Entry). e.ticket < next) engine.new.history) }
{
    let next = ticket.checked_add(1).ok_or(PlayError::Tickets)?;
    match engine.issue(ticket, 0, instr) {
        Ok(_reply) => Ok(next),
        Err(_full) => Err(PlayError::Full),
    }
}
