//! The events of a run, recorded as a machine carries it out.
ghost use Rattle.cmwq_kernel_trace.specs.Recording.{IsAt, goes_on};
ghost use Rattle.cmwq_events.specs.KernelEvents.{kernel_events, kernel_events_from};
ghost use Rattle.cmwq_table.specs.State.{start};
ghost use Rattle.cmwq_types.specs.Scenario.{expand_lines};
ghost use Rattle.cmwq_types.specs.declared.instr.Instr.{Instr};
ghost use Rattle.std.specs.Prelude.{◌≡◌, ◌∷◌, ◌++◌, IfOk, List, OnOk, replicate};

use cmwq_events::KernelEvents;
use cmwq_table::Machine;
use cmwq_types::{Instr, Line, NoMemory};
use std::alloc::Global;

/// Carries out the lines' instructions on a machine at its start, and answers the events of this run.
pub(crate) fn record<M: Machine>(
    alloc: Global,
    machine: M,
    lines: &[Line],
) -> Result<KernelEvents, NoMemory>
    requires { M.state machine ≡ start (M.loaded machine) }
    ensures { IfOk result (λ events. events.events ≡ kernel_events (M.loaded machine) (expand_lines lines.now)) }
{
    let mut machine = machine;
    let mut events = KernelEvents::none(alloc, machine.scenario().works.len())?;
    for line in lines {
        record_times(alloc, &mut machine, &mut events, line.instr, line.times)?;
    }
    Ok(events)
}

/// Carries out the instruction so often, and records what comes of it.
fn record_times<M: Machine>(
    alloc: Global,
    machine: &mut M,
    events: &mut KernelEvents,
    instr: Instr,
    times: u32,
) -> Result<(), NoMemory>
    requires { IsAt (M.loaded machine.old) events.old (M.state machine.old) }
    ensures scenario { M.loaded machine.new ≡ M.loaded machine.old }
    ensures at { OnOk result (IsAt (M.loaded machine.old) events.new (M.state machine.new)) }
    ensures events { OnOk result ((more : List Instr) → goes_on (M.loaded machine.old) events.new.events (M.state machine.new) more
        ≡ goes_on (M.loaded machine.old) events.old.events (M.state machine.old) (replicate times instr ++ more)) }
{
    for _turn in 0..times {
        record_one(alloc, machine, events, instr)?;
    }
    Ok(())
}

/// Carries out the instruction, and records what comes of it.
fn record_one<M: Machine>(
    alloc: Global,
    machine: &mut M,
    events: &mut KernelEvents,
    instr: Instr,
) -> Result<(), NoMemory>
    requires { IsAt (M.loaded machine.old) events.old (M.state machine.old) }
    ensures scenario { M.loaded machine.new ≡ M.loaded machine.old }
    ensures at { OnOk result (IsAt (M.loaded machine.old) events.new (M.state machine.new)) }
    ensures events { OnOk result ((more : List Instr) → goes_on (M.loaded machine.old) events.new.events (M.state machine.new) more
        ≡ goes_on (M.loaded machine.old) events.old.events (M.state machine.old) (instr ∷ more)) }
{
    let reply = machine.exec(instr);
    events.follow(alloc, instr, machine, reply)
}
