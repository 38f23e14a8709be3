//! Scenarios, their texts and their images: copied, read and written.

use crate::showing::{show_bytes, show_scenario};
use crate::trying::{Tried, try_call};
use cmwq_asm::assemble;
use cmwq_image::{read, write};
use cmwq_list::list;
use cmwq_play::{Marked, PlayError, read_text};
use cmwq_types::Scenario;
use std::alloc::Global;

/// A call on a scenario, its text or its image.
#[derive(Clone, Copy)]
pub(crate) enum TextCall {
    Copy,
    Assemble,
    ReadText,
    List,
    Read,
    Write,
}

/// What such a call answers.
#[derive(Drop)]
enum Answer {
    Scenario(Scenario),
    /// A text or an image.
    Bytes(Vec<u8>),
}

/// A scenario with its text and its image.
#[derive(Drop)]
struct OnText<'t> {
    text: &'t [u8],
    scenario: Scenario,
    image: Vec<u8>,
    call: TextCall,
    alloc: Global,
}

impl Tried for OnText<'_> {
    type Answer = Answer;

    fn show_held<R: Print>(&mut self, rt: &R) -> Result<(), PlayError> {
        show_scenario(rt, self.alloc, &self.scenario)
    }

    fn call(&mut self, alloc: Global) -> Result<Answer, PlayError> {
        match self.call {
            TextCall::Copy => Ok(Answer::Scenario(self.scenario.copy()?)),
            TextCall::Assemble => Ok(Answer::Scenario(assemble(alloc, self.text)?)),
            TextCall::ReadText => {
                let reader = &mut Marked::new(self.text);
                Ok(Answer::Scenario(read_text(alloc, reader)?))
            }
            TextCall::List => Ok(Answer::Bytes(list(alloc, &self.scenario)?)),
            TextCall::Read => Ok(Answer::Scenario(read(alloc, &self.image)?)),
            TextCall::Write => Ok(Answer::Bytes(written(alloc, &self.scenario)?)),
        }
    }

    fn show_answer<R: Print>(
        &mut self,
        rt: &R,
        alloc: Global,
        answer: Answer,
    ) -> Result<(), PlayError> {
        match answer {
            Answer::Scenario(scenario) => show_scenario(rt, alloc, &scenario),
            Answer::Bytes(bytes) => show_bytes(rt, &bytes),
        }
    }
}

/// The image of a scenario that was read, and so is valid.
pub(crate) fn written(alloc: Global, scenario: &Scenario) -> Result<Vec<u8>, PlayError> {
    match scenario.check() {
        Ok(()) => Ok(write(alloc, scenario)?),
        Err(_fault) => Err(PlayError::NoMemory),
    }
}

/// Makes a call on the scenario of this text.
pub(crate) fn try_text<R: Print>(
    rt: &R,
    alloc: Global,
    call: TextCall,
    text: &[u8],
) -> Result<(), PlayError> {
    let scenario = assemble(alloc, text)?;
    let image = written(alloc, &scenario)?;
    let mut tried = OnText {
        text,
        scenario,
        image,
        call,
        alloc,
    };
    try_call(rt, alloc, &mut tried)
}
