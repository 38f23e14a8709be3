//! A debugger's session.

use crate::showing::Printer;
use crate::trying::{Tried, try_call};
use cmwq_asm::assemble;
use cmwq_debug_session::{Manner, debug};
use cmwq_play::{Marked, PlayError};
use cmwq_types::Scenario;
use std::alloc::Global;

/// What is said in the session.
const SESSION: &[u8] = b"break work a event starts
break time 3
run
goto 20
dump
why b
why flush 0
back 3
next event
clear 0
run
";

/// The scenario of a session, and its copy that the next session takes.
#[derive(Drop)]
struct Debugged<'x, X> {
    rt: &'x X,
    scenario: Scenario,
    given: Option<Scenario>,
}

impl<X: Print> Tried for Debugged<'_, X> {
    type Answer = ();

    fn prepare(&mut self, _alloc: Global) -> Result<(), PlayError> {
        self.given = Some(self.scenario.copy()?);
        Ok(())
    }

    /// The scenario was read, and so is valid. Reader and writer are new for each call.
    fn call(&mut self, alloc: Global) -> Result<(), PlayError> {
        let given = self.given.take().ok_or(PlayError::Actors)?;
        if given.check().is_err() {
            return Err(PlayError::Actors);
        }
        let writer = &mut Marked::new(Printer { rt: self.rt });
        debug(
            alloc,
            Manner::Prompted,
            given,
            &mut Marked::new(SESSION),
            writer,
        )
    }
}

/// Has a session over the scenario of this text.
pub(crate) fn try_debug<R: Print>(rt: &R, alloc: Global, text: &[u8]) -> Result<(), PlayError> {
    let scenario = assemble(alloc, text)?;
    let given = None;
    try_call(
        rt,
        alloc,
        &mut Debugged {
            rt,
            scenario,
            given,
        },
    )
}
