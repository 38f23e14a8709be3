//! Two bodies of the machine, side by side.

use crate::machines::loaded;
use cmwq_play::PlayError;
use cmwq_table::{Machine, View};
use cmwq_types::{Instr, Scenario};
use std::alloc::Global;

/// The number, from 0, of the first instruction after which the two bodies don't show the same, or which they answer differently.
pub(crate) fn first_difference<A: Machine, B: Machine>(
    alloc: Global,
    scenario: &Scenario,
    instrs: &[Instr],
) -> Result<Option<usize>, PlayError> {
    let mut one: A = loaded(alloc, scenario)?;
    let mut other: B = loaded(alloc, scenario)?;
    first_parting(&mut one, &mut other, instrs)
}

/// The number of the instruction at which the two part.
fn first_parting<A: Machine, B: Machine>(
    one: &mut A,
    other: &mut B,
    instrs: &[Instr],
) -> Result<Option<usize>, PlayError> {
    for (number, instr) in instrs.iter().enumerate() {
        if !go_alike(one, other, *instr)? {
            return Ok(Some(number));
        }
    }
    Ok(None)
}

/// Has both carry out the instruction, and answers whether they reply and then show the same.
fn go_alike<A: Machine, B: Machine>(
    one: &mut A,
    other: &mut B,
    instr: Instr,
) -> Result<bool, PlayError> {
    if one.exec(instr) != other.exec(instr) {
        return Ok(false);
    }
    shows(other, &one.look()?)
}

/// Whether the machine shows this state.
fn shows<M: Machine>(machine: &M, view: &View) -> Result<bool, PlayError> {
    let shown = machine.look()?;
    Ok(shown == *view)
}
