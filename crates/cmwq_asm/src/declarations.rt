//! The lines that declare queues and works: `queue NAME max N FLAG..` and `work NAME QUEUE`.
ghost use Rattle.cmwq_asm.specs.LineAnswers.{Gives};
ghost use Rattle.cmwq_asm.specs.TextStages.{stage_of};
ghost use Rattle.cmwq_asm.specs.LineSteps.{declared_queue, declared_work};
ghost use Rattle.cmwq_draft.specs.Declarations.{queue_of_line, work_of_line};
ghost use Rattle.cmwq_grammar.specs.Instructions.{queue_names, work_names};
ghost use Rattle.cmwq_grammar.specs.LineReasons.{add_queue, add_work};
ghost use Rattle.cmwq_scan.specs.Words.{words_left};
ghost use Rattle.std.specs.List.{list_any};
ghost use Rattle.std.specs.Prelude.{◌≡◌, false};
ghost use Rattle.std.specs.Str.{bytes_eq};

use crate::fault::LineError;
use crate::stage::Stage;
use cmwq_draft::{Draft, QueueLine, WorkLine, fits_flags, read_queue_line, read_work_line};
use cmwq_grammar::Why;
use cmwq_types::{Fault, MAX_QUEUES, MAX_WORKS};
use std::alloc::Global;

/// Declares the queue that is behind the word `queue`.
pub(crate) fn declare_queue<'t>(draft: Draft<'t>, rest: &'t [u8]) -> Result<Stage<'t>, LineError>
    ensures { Gives stage_of result (declared_queue draft.entry (words_left rest.now)) }
{
    let queue = read_queue_line(&draft, rest)?;
    add_queue(draft, queue)
}

/// Declares the queue.
#[tactic(auto, unfolding(cmwq_grammar::specs::LineReasons::add_queue))]
fn add_queue<'t>(draft: Draft<'t>, queue: QueueLine<'t>) -> Result<Stage<'t>, LineError>
    requires { list_any (λ other. bytes_eq other queue.name) (queue_names draft) ≡ false }
    ensures { Gives stage_of result (add_queue draft.entry (queue_of_line queue.entry)) }
{
    if !fits_flags(&queue) {
        return Err(Why::Fault(Fault::BadFlags).into());
    }
    if draft.queues().len() >= MAX_QUEUES {
        return Err(Why::Fault(Fault::TooMany).into());
    }
    let draft = draft.with_queue(&queue.name, queue.max as u16, queue.flags)?;
    Ok(Stage::Queues(draft))
}

/// Declares the work that is behind the word `work`.
pub(crate) fn declare_work<'t>(
    alloc: Global,
    draft: Draft<'t>,
    rest: &'t [u8],
) -> Result<Stage<'t>, LineError>
    ensures { Gives stage_of result (declared_work draft.entry (words_left rest.now)) }
{
    let work = read_work_line(&draft, rest)?;
    add_work(alloc, draft, work)
}

/// Declares the work.
#[tactic(auto, unfolding(cmwq_grammar::specs::LineReasons::add_work))]
fn add_work<'t>(alloc: Global, draft: Draft<'t>, work: WorkLine<'t>) -> Result<Stage<'t>, LineError>
    requires { list_any (λ other. bytes_eq other work.name) (work_names draft) ≡ false }
    ensures { Gives stage_of result (add_work draft.entry (work_of_line work.entry)) }
{
    if draft.works().len() >= MAX_WORKS {
        return Err(Why::Fault(Fault::TooMany).into());
    }
    let draft = draft.with_work(alloc, &work.name, work.queue)?;
    Ok(Stage::Works(draft))
}
