//! The history of a scenario's instructions on an engine.

use crate::instructions::actor_instrs;
use crate::{comparing, entries, timing};
use cmwq_asm::assemble;
use cmwq_engine::Engine;
use cmwq_play::PlayError;
use cmwq_table::Machine;
use cmwq_types::{Instr, Scenario};
use std::alloc::Global;

/// Issues the instructions of the scenario of this text on an engine, and prints the history, and where the other body goes another way.
pub(crate) fn show_history<M: Machine, Other: Machine, R: Print>(
    rt: &R,
    alloc: Global,
    text: &[u8],
) -> Result<(), PlayError> {
    let scenario = assemble(alloc, text)?;
    let instrs = actor_instrs(alloc, &scenario)?;
    show_difference::<M, Other, R>(rt, alloc, &scenario, &instrs)?;
    let mut engine: Engine<M> = timing::opened(alloc, &scenario, &instrs)?;
    show_issued(rt, alloc, &mut engine, &scenario, &instrs)
}

/// Prints where the two bodies part, if they do.
fn show_difference<M: Machine, Other: Machine, R: Print>(
    rt: &R,
    alloc: Global,
    scenario: &Scenario,
    instrs: &[Instr],
) -> Result<(), PlayError> {
    let Some(number) = comparing::first_difference::<M, Other>(alloc, scenario, instrs)? else {
        return Ok(());
    };
    println!(rt; "both bodies differ at instruction {number}").map_err(|_| PlayError::Write)
}

/// Issues the instructions on a new engine, and prints its history.
fn show_issued<M: Machine, R: Print>(
    rt: &R,
    alloc: Global,
    engine: &mut Engine<M>,
    scenario: &Scenario,
    instrs: &[Instr],
) -> Result<(), PlayError> {
    let times = timing::issue_timed(alloc, engine, instrs)?;
    entries::print(rt, scenario, engine.history(), &times)
}
