//! What follows the line that tells a fault.
ghost use Rattle.cmwq_advice.specs.Advice.{IsAdvice, IsOnText, file_made, file_read, trouble_lines, wants_text};
ghost use Rattle.std.specs.Prelude.{◌≡◌, IfOk, option_map};

use crate::on_scenario::on_scenario;
use crate::plain::plain_words;
use crate::trouble::Trouble;
use cmwq_asm::{AsmError, assemble};
use cmwq_request::request::Request;
use cmwq_streams::PlayError;
use cmwq_types::NoMemory;
use cmwq_verdict::{Look, explained_verdict};
use std::alloc::Global;

/// What was found out about the files of a request, once its command had ended with a fault.
#[derive(Clone, Copy)]
pub struct Found<'a> {
    /// Why the file in question can't be read or made, where it can't.
    pub trouble: Option<Trouble>,
    /// The text of the file that was read, where it was looked at.
    pub text: Option<&'a [u8]>,
}

/// What a person can do about the fault that the request's command ended with: lines, each behind two blanks, or none where there is
/// nothing to say. Of a faulty text it is the verdict, as `check` tells it, and a sentence on the reason. It fails only for want of memory.
pub fn advice(
    alloc: Global,
    look: Look,
    request: &Request<'_>,
    fault: PlayError,
    found: Found<'_>,
) -> Result<Vec<u8>, NoMemory>
    ensures { IfOk result (λ told. IsAdvice look request.now found.entry fault told.items) }
{
    match fault {
        PlayError::Read => trouble_lines(alloc, file_read(request), found.trouble),
        PlayError::Write => trouble_lines(alloc, file_made(request), found.trouble),
        _ => match (wants_text(fault), found.text) {
            (true, Some(text)) => on_text(alloc, look, request, fault, text),
            _ => Ok(Vec::from_slice(alloc, plain_words(request, fault).as_bytes())?),
        },
    }
}

/// Whether the text of the file that was read has to be looked at.
pub fn wants_text(fault: PlayError) -> bool
    ensures { result ≡ wants_text fault }
{
    matches!(
        fault,
        PlayError::Asm(AsmError::At { .. })
            | PlayError::Actors
            | PlayError::NoSuchWork
            | PlayError::PastEnd
    )
}

/// The file that the request's command reads, if it reads one alone.
pub fn file_read<'a>(request: &Request<'a>) -> Option<&'a str>
    ensures { option_map (λ file. file.now) result ≡ file_read request.now }
{
    match request {
        Request::Do { file, .. }
        | Request::Strict { file, .. }
        | Request::Sweep { file, .. }
        | Request::TraceData { file, .. }
        | Request::Asm { file, .. }
        | Request::Debug { file, .. }
        | Request::Play { file, .. }
        | Request::Explore { file, .. } => Some(*file),
        Request::New { .. } | Request::Check { .. } | Request::Language | Request::Version => None,
    }
}

/// The file that the request's command makes, if it makes one.
pub fn file_made<'a>(request: &Request<'a>) -> Option<&'a str>
    ensures { option_map (λ file. file.now) result ≡ file_made request.now }
{
    match request {
        Request::New { file } => *file,
        Request::Asm { out, .. } | Request::TraceData { out, .. } => Some(*out),
        _ => None,
    }
}

/// The line of the trouble with the file, or none.
fn trouble_lines(
    alloc: Global,
    file: Option<&str>,
    trouble: Option<Trouble>,
) -> Result<Vec<u8>, NoMemory>
    ensures { IfOk result (λ told. told.items ≡ trouble_lines (option_map (λ file. file.now) file.entry) trouble) }
{
    match (file, trouble) {
        (Some(file), Some(trouble)) => trouble.line(alloc, file),
        _ => Ok(Vec::new(alloc)),
    }
}

/// What can be done about a fault that shows in the text of the file that was read: its verdict where it is faulty, with what mends it, and
/// else what its scenario says.
fn on_text(
    alloc: Global,
    look: Look,
    request: &Request<'_>,
    fault: PlayError,
    text: &[u8],
) -> Result<Vec<u8>, NoMemory>
    ensures { IfOk result (λ told. IsOnText look request.now fault text.now told.items) }
{
    let file = file_read(request).unwrap_or("");
    if let Some(told) = explained_verdict(alloc, look, file, text)? {
        return Ok(told);
    }
    match assemble(alloc, text) {
        Ok(scenario) => on_scenario(alloc, request, file, fault, scenario),
        Err(_) => Err(NoMemory),
    }
}
