//! What can be done about a fault by itself.
ghost use Rattle.cmwq_advice.specs.Advice.{actor_words, full_words, image_words, is_settled, memory_words, plain_words};
ghost use Rattle.std.specs.Prelude.{◌≡◌};

use cmwq_asm::AsmError;
use cmwq_image::ImageError;
use cmwq_request::request::Request;
use cmwq_streams::PlayError;
use cmwq_tasks::{RunKind, Task};

/// What can be done about a fault, where neither a file nor its scenario has to be looked at for that; else no text.
pub(crate) fn plain_words(request: &Request<'_>, fault: PlayError) -> &'static str
    ensures { result.now ≡ plain_words request.now fault }
{
    match fault {
        PlayError::Full => full_words(request),
        PlayError::NeverQuiet =>
            "  a work item is still pending or running after all steps or 1048576 instructions: it needs more steps, a thaw or relief, or never ends\n",
        PlayError::NoSuchFlush => {
            "  flushes are numbered from 0, as they are given: cmwq run prints each with its number\n"
        }
        PlayError::TooLong => {
            "  a text has at most 4194304 bytes, and so have the commands of a debugger\n"
        }
        PlayError::Tickets => "  the lock has no ticket left\n",
        PlayError::Image(error) => image_words(error),
        PlayError::NoMemory | PlayError::Asm(AsmError::NoMemory) => memory_words(request),
        _ => "",
    }
}

/// What takes less memory.
fn memory_words(request: &Request<'_>) -> &'static str
    ensures { result.now ≡ memory_words request.now }
{
    match request {
        Request::Explore { .. } => "  a lower --limit takes less memory\n",
        _ => "  a shorter run, or a picture of fewer ticks (--from, --to), takes less memory\n",
    }
}

/// What there is too much of, and how much there may be.
fn full_words(request: &Request<'_>) -> &'static str
    ensures { result.now ≡ full_words request.now }
{
    match request {
        Request::Play { .. } => "  --capacity says how many instructions fit: 4096 at most\n",
        Request::Explore { .. } => {
            "  the actors have more than 4096 lines in all, each cancel_sync being three\n"
        }
        Request::Do { file: _, task } => actor_words(is_settled(task)),
        Request::Strict { file: _, kind } => actor_words(is_settled(&Task::Run(*kind))),
        Request::Debug { file: _, settle } => actor_words(*settle),
        _ => actor_words(false),
    }
}

/// Whether the run goes on until the machine is quiet.
fn is_settled(task: &Task<'_>) -> bool
    ensures { result ≡ is_settled task.now }
{
    match task {
        Task::Settle | Task::Run(RunKind::Settled) | Task::Run(RunKind::ToldSettled) => true,
        Task::Draw(drawing) => drawing.settle,
        Task::Why(inquiry) => inquiry.settle,
        _ => false,
    }
}

/// What an actor has too much of, or would have, settled.
fn actor_words(is_settled: bool) -> &'static str
    ensures { result.now ≡ actor_words is_settled }
{
    if is_settled {
        "  settled, the actor would have more than 4096 lines, or 1048576 instructions\n"
    } else {
        "  the actor has more than 1048576 instructions\n"
    }
}

/// What is wrong with an image.
fn image_words(error: ImageError) -> &'static str
    ensures { result.now ≡ image_words error }
{
    match error {
        ImageError::Magic => "  an image begins with CMWQ; cmwq asm didn't make this file\n",
        ImageError::Version => "  the image is of a version that this program doesn't know\n",
        ImageError::Truncated => "  the image ends too early: a part of it is lost\n",
        ImageError::Extra => "  bytes follow after the image's end\n",
        ImageError::BadField(_) =>
            "  at this offset, in bytes from 0, the image has a value that isn't allowed\n",
        ImageError::Fault(_) => "  the image's scenario isn't valid\n",
        ImageError::NoMemory => "",
    }
}
