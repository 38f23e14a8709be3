//! What a person can do about an exploration that couldn't be done though its text is good.
ghost use Rattle.clap.specs.Words.{Text};
ghost use Rattle.cmwq_command.specs.Undone.{IsOnFile, IsOnUndone, IsOnUndoneWords};
ghost use Rattle.cmwq_play.specs.Commands.{Writes};
ghost use Rattle.cmwq_request.specs.Request.{IsAskedBy};
ghost use Rattle.cmwq_streams.specs.Sending.{IsSendError};
ghost use Rattle.std.specs.Prelude.{◌≡◌, ◌∷◌, List, IfErr, IfOk, Err, false, map, string_bytes};

use crate::advising::text_of;
use crate::file_store::FileStore;
use cmwq_advice::on_unexplored;
use cmwq_request::request::{Request, parse};
use cmwq_streams::{PlayError, Sink, put_all};
use std::alloc::Global;

/// Tells what a person can do about the words' exploration, which ended with status 1 and its line: it lists the actors where one was named that isn't declared.
/// For that it looks again at the file that the words name, as `advise` does. Of other commands it tells nothing.
///
/// The error is `Write` exactly where the writer failed, which has a front of the lines then, and else `NoMemory`, and then nothing was written.
pub fn advise_undone<F: FileStore, E: Sink>(
    alloc: Global,
    files: &F,
    words: &[String],
    errors: &mut E,
) -> Result<(), PlayError>
    requires { E.failed errors.old ≡ false }
    ensures advised { (name : Text) (given asked : List Text) → map string_bytes words.now ≡ name ∷ given → IsAskedBy given asked
        → Writes (IsOnUndoneWords (F.bytes files.now) asked) (E.contents errors.old) (E.contents errors.new) (E.failed errors.new) result }
    ensures silent { result ≡ Err PlayError.NoMemory → errors.new ≡ errors.old }
    ensures why { IfErr result (λ error. IsSendError error) }
{
    match parse(alloc, words) {
        Ok(request) => advise_undone_on(alloc, files, &request, errors),
        Err(_) => Err(PlayError::NoMemory),
    }
}

/// The same of what the words ask for.
fn advise_undone_on<F: FileStore, E: Sink>(
    alloc: Global,
    files: &F,
    request: &Request<'_>,
    errors: &mut E,
) -> Result<(), PlayError>
    requires { E.failed errors.old ≡ false }
    ensures advised { Writes (IsOnUndone (F.bytes files.now) request.now) (E.contents errors.old) (E.contents errors.new) (E.failed errors.new) result }
    ensures silent { result ≡ Err PlayError.NoMemory → errors.new ≡ errors.old }
    ensures why { IfErr result (λ error. IsSendError error) }
{
    let told = lines_for(alloc, files, request)?;
    put_all(errors, &told)
}

/// Returns what can be done about the request's exploration. The only error is want of memory.
fn lines_for<F: FileStore>(
    alloc: Global,
    files: &F,
    request: &Request<'_>,
) -> Result<Vec<u8>, PlayError>
    ensures lines { IfOk result (λ told. IsOnUndone (F.bytes files.now) request.now told.items) }
    ensures why { IfErr result (λ error. error ≡ PlayError.NoMemory) }
{
    match request {
        Request::Explore { file, .. } => lines_on_file(alloc, files, request, file),
        _ => Ok(Vec::new(alloc)),
    }
}

/// Returns what can be done about what was asked of the file; nothing where it can't be read. The only error is want of memory.
fn lines_on_file<F: FileStore>(
    alloc: Global,
    files: &F,
    request: &Request<'_>,
    file: &str,
) -> Result<Vec<u8>, PlayError>
    ensures lines { IfOk result (λ told. IsOnFile (F.bytes files.now) request.now file.now told.items) }
    ensures why { IfErr result (λ error. error ≡ PlayError.NoMemory) }
{
    match text_of(alloc, files, file)? {
        Some(text) => Ok(on_unexplored(alloc, request, &text)?),
        None => Ok(Vec::new(alloc)),
    }
}
