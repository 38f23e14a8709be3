//! How far a text has come.
ghost use Rattle.cmwq_asm.specs.LineAnswers.{Gives};
ghost use Rattle.cmwq_scan.specs.Words.{words_left};
ghost use Rattle.cmwq_asm.specs.TextStages.{stage_of};
ghost use Rattle.cmwq_grammar.specs.LineReasons.{at_end, step};
ghost use Rattle.cmwq_asm.specs.Texts.{LeadsOn};
ghost use Rattle.cmwq_types.specs.declared.limits.TheConstants.{MAX_TEXT};
ghost use Rattle.std.specs.Prelude.{◌∷◌, ◌≤◌, IfOk, IsTrue, length};
ghost use Rattle.std.specs.Str.{is_utf8};

use crate::actors::{close_actor, read_instructions};
use crate::comments::skip_comments;
use crate::fault::LineError;
use crate::line_steps::{between_bodies, in_actor, in_body, in_queues, in_works, read_head_number};
use crate::open::{OpenActor, OpenBody};
use crate::operations::read_operations;
use cmwq_draft::{Bodies, Draft};
use cmwq_grammar::Why;
use cmwq_types::{Fault, MAX_CPUS, MAX_FLUSHES, MAX_STEPS, MAX_WORKERS, NoMemory, Scenario};
use std::alloc::Global;

/// What a text's lines so far have told.
pub(crate) enum Stage<'t> {
    /// Nothing yet.
    Start,
    /// `cpus`.
    Cpus(u8),
    /// `cpus` and `workers`.
    Workers(u8, u8),
    /// `cpus`, `workers` and `steps`.
    Steps(u8, u8, u32),
    /// The head, and these queues.
    Queues(Draft<'t>),
    /// At least one work too; none has its body.
    Works(Draft<'t>),
    /// No body is open.
    Bodies(Bodies<'t>),
    /// The next work's body is open.
    Body(Box<OpenBody<'t>>),
    /// Each work has its body, and an actor is open.
    Actor(Box<OpenActor<'t>>),
}

/// A stage is dropped by one call, wherever that is.
impl<'t> Drop for Stage<'t> {
    fn drop(self) {
        match self {
            Stage::Start | Stage::Cpus(_) | Stage::Workers(_, _) | Stage::Steps(_, _, _) => {}
            Stage::Queues(_draft) | Stage::Works(_draft) => {}
            Stage::Bodies(_bodies) => {}
            Stage::Body(_body) => {}
            Stage::Actor(_actor) => {}
        }
    }
}

impl<'t> Stage<'t> {
    /// The stage after a line that begins with this word.
    #[tactic(auto, using(crate::proofs::HeaderLemmas::head_steps), unfolding(cmwq_grammar::specs::LineReasons::step))]
    pub(crate) fn after(
        self,
        alloc: Global,
        word: &[u8],
        rest: &'t [u8],
    ) -> Result<Stage<'t>, LineError>
        ensures { Gives stage_of result (step (stage_of self.entry) (word.now ∷ words_left rest.now)) }
    {
        match self {
            Stage::Start => {
                let cpus = read_head_number(b"cpus", 1, u32::from(MAX_CPUS), word, rest)?;
                Ok(Stage::Cpus(cpus as u8))
            }
            Stage::Cpus(cpus) => {
                let workers = read_head_number(b"workers", 1, u32::from(MAX_WORKERS), word, rest)?;
                Ok(Stage::Workers(cpus, workers as u8))
            }
            Stage::Workers(cpus, workers) => {
                let steps = read_head_number(b"steps", 1, MAX_STEPS, word, rest)?;
                Ok(Stage::Steps(cpus, workers, steps))
            }
            Stage::Steps(cpus, workers, steps) => {
                let flushes = read_head_number(b"flushes", 0, u32::from(MAX_FLUSHES), word, rest)?;
                let draft = Draft::new(alloc, cpus, workers, steps, flushes as u16)?;
                Ok(Stage::Queues(draft))
            }
            Stage::Queues(draft) => in_queues(alloc, draft, word, rest),
            Stage::Works(draft) => in_works(alloc, draft, word, rest),
            Stage::Bodies(bodies) => between_bodies(alloc, bodies, word, rest),
            Stage::Body(body) => in_body(body, word, rest),
            Stage::Actor(actor) => in_actor(alloc, actor, word, rest),
        }
    }

    /// Goes on over the lines at the front of the text that are read in one go, where the text is known to be text: of an actor its
    /// instructions, of a body its operations, else comments. Tells the stage after them, what is left, and how many lines they are.
    pub(crate) fn read_on(
        self,
        text: &'t [u8],
        is_known_text: bool,
    ) -> Result<(Stage<'t>, &'t [u8], u32), NoMemory>
        requires text { IsTrue is_known_text → IsTrue (is_utf8 text.now) }
        requires few { length text.now ≤ MAX_TEXT }
        ensures lines { IfOk result (λ read. LeadsOn text.now (stage_of self.entry) read.1.now read.2 (stage_of read.0)) }
        ensures text { IfOk result (λ read. IsTrue is_known_text → IsTrue (is_utf8 read.1.now)) }
    {
        if !is_known_text {
            return Ok((self, text, 0));
        }
        match self {
            Stage::Actor(mut actor) => {
                let (rest, count) = read_instructions(&mut actor, text)?;
                Ok((Stage::Actor(actor), rest, count))
            }
            Stage::Body(mut body) => {
                let (rest, count) = read_operations(&mut body, text)?;
                Ok((Stage::Body(body), rest, count))
            }
            other => {
                let (rest, count) = skip_comments(text);
                Ok((other, rest, count))
            }
        }
    }

    /// The scenario of a text that ends at this stage, or why it may not.
    #[tactic(auto, unfolding(cmwq_grammar::specs::LineReasons::at_end))]
    pub(crate) fn at_end(self) -> Result<Scenario, LineError>
        ensures { Gives (λ scenario. scenario) result (at_end (stage_of self.entry)) }
    {
        match self {
            Stage::Queues(draft) => Ok(draft.into_scenario()),
            Stage::Bodies(bodies) if bodies.are_complete() => Ok(
                bodies.into_draft().into_scenario(),
            ),
            Stage::Body(_) => Err(LineError::Why(Why::Fault(Fault::BadBody))),
            Stage::Actor(actor) => Ok(close_actor(actor)?.into_scenario()),
            _ => Err(LineError::Why(Why::MissingWord)),
        }
    }
}
