//! Which words ask for standard input as a file.
ghost use Rattle.clap.specs.Words.{Text};
ghost use Rattle.cmwq_command.specs.Opening.{is_input, names_input};
ghost use Rattle.cmwq_request.specs.Request.{IsAskedBy, request_words};
ghost use Rattle.cmwq_request.specs.declared.request.Request.{Request};
ghost use Rattle.std.specs.List.{list_any};
ghost use Rattle.std.specs.Prelude.{◌≡◌, ◌∷◌, IfErr, IfOk, List, map, string_bytes};

use clap::error::ErrorKind;
use cmwq_play::PlayError;
use cmwq_request::request::{Request, STANDARD_INPUT, parse};
use std::alloc::Global;

/// Whether the words ask for a command that reads standard input as a file, `-`. The error is want of memory.
pub fn reads_input(alloc: Global, words: &[String]) -> Result<bool, PlayError>
    ensures reads { (name : Text) (given asked : List Text) → map string_bytes words.now ≡ name ∷ given → IsAskedBy given asked
        → IfOk result (λ reads. (request : Request) × (request_words request ≡ asked) × (reads ≡ names_input request)) }
    ensures why { IfErr result (λ error. error ≡ PlayError.NoMemory) }
{
    match parse(alloc, words) {
        Ok(request) => Ok(names_input(&request)),
        Err(error) if error.kind() == ErrorKind::OutOfMemory => Err(PlayError::NoMemory),
        Err(_) => Ok(false),
    }
}

/// Whether a file that is read for the request is standard input.
fn names_input(request: &Request<'_>) -> bool
    ensures { result ≡ names_input request.now }
{
    match request {
        Request::Do { file, .. }
        | Request::Strict { file, .. }
        | Request::Sweep { file, .. }
        | Request::TraceData { file, .. }
        | Request::Asm { file, .. }
        | Request::Play { file, .. }
        | Request::Explore { file, .. } => is_input(file),
        Request::Check { files } => has_input(files),
        Request::New { .. } | Request::Debug { .. } | Request::Language | Request::Version => false,
    }
}

/// Whether one of the files is standard input.
fn has_input(files: &[&str]) -> bool
    ensures { result ≡ list_any (λ file. is_input file.now) files.now }
{
    files.iter().any(|file| is_input(file))
}

/// Whether the file is standard input.
fn is_input(file: &str) -> bool
    ensures { result ≡ is_input file.now }
{
    file == STANDARD_INPUT
}
