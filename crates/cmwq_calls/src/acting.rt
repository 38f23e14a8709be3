//! A play. It is no `Tried`: in the kit's logic only a function with bounds of its own can lend the runtime to threads.

use crate::showing::{Printer, say};
use crate::trying::show_outcome;
use cmwq_actors::OpenGate;
use cmwq_asm::assemble;
use cmwq_interleaving::play;
use cmwq_play::{Marked, PlayError};
use cmwq_types::Scenario;
use std::alloc::Global;
use std::sync::Wait;
use std::thread::Threads;
use std::time::Clock;

/// How many instructions a play takes.
const CAPACITY: u32 = 1000;

/// Plays the scenario of this text, and once more where memory was refused, as `try_call` does.
pub(crate) fn try_play<R: Print + Threads + Wait + Clock + Sync>(
    rt: &R,
    alloc: Global,
    text: &[u8],
) -> Result<(), PlayError> {
    let scenario = assemble(alloc, text)?;
    if is_refused(rt, alloc, &scenario)? && is_refused(rt, alloc, &scenario)? {
        return Err(PlayError::NoMemory);
    }
    say(rt, "= held")
}

/// Plays a scenario that was read, and so is valid, and answers whether memory was refused.
fn is_refused<R: Print + Threads + Wait + Clock + Sync>(
    rt: &R,
    alloc: Global,
    scenario: &Scenario,
) -> Result<bool, PlayError> {
    let given = scenario.copy()?;
    if given.check().is_err() {
        return Err(PlayError::Actors);
    }
    say(rt, "= held\n= call")?;
    let writer = &mut Marked::new(Printer { rt });
    let outcome = play(rt, alloc, given, CAPACITY, &OpenGate, writer);
    show_outcome(rt, &outcome)
}
