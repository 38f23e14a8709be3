//! What a person can do about a fault, told behind the line that tells it, and what should be known of a run that ended well.
ghost use Rattle.clap.specs.Words.{Text};
ghost use Rattle.cmwq_advice.specs.Advice.{file_made, file_read, wants_text};
ghost use Rattle.cmwq_command.specs.Advised.{AreRemarksOnFile, AreRemarksOnRequest, AreRemarksOnWords, IsAdviceOn, IsAdviceOnWords, IsTextIn, IsTextShown, IsTroubleWith};
ghost use Rattle.cmwq_play.specs.Commands.{Writes};
ghost use Rattle.cmwq_request.specs.Request.{IsAskedBy};
ghost use Rattle.cmwq_streams.specs.Sending.{IsSendError};
ghost use Rattle.std.specs.Prelude.{◌≡◌, ◌∷◌, Err, List, IfErr, IfOk, false, is_some, map, option_map, string_bytes};

use crate::file_store::FileStore;
use cmwq_advice::{Found, Trouble, advice, file_read, wants_text};
use cmwq_outcome::Look;
use cmwq_play::read_whole;
use cmwq_remarks::remarks;
use cmwq_request::request::{Request, parse};
use cmwq_streams::{PlayError, Sink, put_all};
use cmwq_tasks::Task;
use std::alloc::Global;

/// Tells what a person can do about the fault that the words' command ended with, if there is anything to say: lines to follow the one
/// that tells the fault. For that it looks again at the files that the words name: at what is kept of one, and else at the file itself,
/// of which no contract knows what it has, or whether it can be read.
///
/// The error is `Write` exactly where the writer failed, which has a front of the lines then, and else `NoMemory`, and then nothing was written.
pub fn advise<F: FileStore, E: Sink>(
    alloc: Global,
    files: &F,
    look: Look,
    words: &[String],
    fault: PlayError,
    errors: &mut E,
) -> Result<(), PlayError>
    requires { E.failed errors.old ≡ false }
    ensures advised { (name : Text) (given asked : List Text) → map string_bytes words.now ≡ name ∷ given → IsAskedBy given asked
        → Writes (IsAdviceOnWords (F.bytes files.now) look fault asked) (E.contents errors.old) (E.contents errors.new) (E.failed errors.new) result }
    ensures silent { result ≡ Err PlayError.NoMemory → errors.new ≡ errors.old }
    ensures why { IfErr result (λ error. IsSendError error) }
{
    match parse(alloc, words) {
        Ok(request) => advise_on(alloc, files, look, &request, fault, errors),
        Err(_) => Err(PlayError::NoMemory),
    }
}

/// The same of what the words ask for.
fn advise_on<F: FileStore, E: Sink>(
    alloc: Global,
    files: &F,
    look: Look,
    request: &Request<'_>,
    fault: PlayError,
    errors: &mut E,
) -> Result<(), PlayError>
    requires { E.failed errors.old ≡ false }
    ensures advised { Writes (IsAdviceOn (F.bytes files.now) look fault request.now) (E.contents errors.old) (E.contents errors.new) (E.failed errors.new) result }
    ensures silent { result ≡ Err PlayError.NoMemory → errors.new ≡ errors.old }
    ensures why { IfErr result (λ error. IsSendError error) }
{
    let told = advice_on(alloc, files, look, request, fault)?;
    put_all(errors, &told)
}

/// What a person can do about the fault that the request's command ended with. The only error is want of memory.
fn advice_on<F: FileStore>(
    alloc: Global,
    files: &F,
    look: Look,
    request: &Request<'_>,
    fault: PlayError,
) -> Result<Vec<u8>, PlayError>
    ensures advice { IfOk result (λ told. IsAdviceOn (F.bytes files.now) look fault request.now told.items) }
    ensures why { IfErr result (λ error. error ≡ PlayError.NoMemory) }
{
    let text = text_to_show(alloc, files, request, fault)?;
    let found = Found {
        trouble: trouble_of(files, request, fault),
        text: text.as_deref(),
    };
    Ok(advice(alloc, look, request, fault, found)?)
}

/// Tells what should be known of the run that the words' command made, and that ended well: refused instructions, and works that are
/// pending where the actor never let the machine move. For that it looks again at the file that the words name, as `advise` does: nothing is
/// told where it can't be read, and where it is known what the file has, just the remarks on that are.
///
/// The error is `Write` exactly where the writer failed, which has a front of the lines then, and else `NoMemory`, and then nothing was written.
pub fn remark<F: FileStore, E: Sink>(
    alloc: Global,
    files: &F,
    words: &[String],
    errors: &mut E,
) -> Result<(), PlayError>
    requires { E.failed errors.old ≡ false }
    ensures remarked { (name : Text) (given asked : List Text) → map string_bytes words.now ≡ name ∷ given → IsAskedBy given asked
        → Writes (AreRemarksOnWords (F.bytes files.now) asked) (E.contents errors.old) (E.contents errors.new) (E.failed errors.new) result }
    ensures silent { result ≡ Err PlayError.NoMemory → errors.new ≡ errors.old }
    ensures why { IfErr result (λ error. IsSendError error) }
{
    match parse(alloc, words) {
        Ok(request) => remark_on(alloc, files, &request, errors),
        Err(_) => Err(PlayError::NoMemory),
    }
}

/// The same of what the words ask for.
fn remark_on<F: FileStore, E: Sink>(
    alloc: Global,
    files: &F,
    request: &Request<'_>,
    errors: &mut E,
) -> Result<(), PlayError>
    requires { E.failed errors.old ≡ false }
    ensures remarked { Writes (AreRemarksOnRequest (F.bytes files.now) request.now) (E.contents errors.old) (E.contents errors.new) (E.failed errors.new) result }
    ensures silent { result ≡ Err PlayError.NoMemory → errors.new ≡ errors.old }
    ensures why { IfErr result (λ error. IsSendError error) }
{
    let told = remarks_for(alloc, files, request)?;
    put_all(errors, &told)
}

/// What should be known of the run that was asked for. The only error is want of memory.
fn remarks_for<F: FileStore>(
    alloc: Global,
    files: &F,
    request: &Request<'_>,
) -> Result<Vec<u8>, PlayError>
    ensures remarks { IfOk result (λ told. AreRemarksOnRequest (F.bytes files.now) request.now told.items) }
    ensures why { IfErr result (λ error. error ≡ PlayError.NoMemory) }
{
    match request {
        Request::Do { file, task } => remarks_on_file(alloc, files, *task, file),
        Request::Strict { file, kind } => remarks_on_file(alloc, files, Task::Run(*kind), file),
        _ => Ok(Vec::new(alloc)),
    }
}

/// What should be known of what was done with the file; nothing where it can't be read. The only error is want of memory.
fn remarks_on_file<F: FileStore>(
    alloc: Global,
    files: &F,
    task: Task<'_>,
    file: &str,
) -> Result<Vec<u8>, PlayError>
    ensures remarks { IfOk result (λ told. AreRemarksOnFile (F.bytes files.now) task.entry file.now told.items) }
    ensures why { IfErr result (λ error. error ≡ PlayError.NoMemory) }
{
    match text_of(alloc, files, file)? {
        Some(text) => Ok(remarks(alloc, task, &text)?),
        None => Ok(Vec::new(alloc)),
    }
}

/// The text of the file: what is kept of it, and else what can be read. The only error is want of memory.
pub(crate) fn text_of<F: FileStore>(
    alloc: Global,
    files: &F,
    file: &str,
) -> Result<Option<Vec<u8>>, PlayError>
    ensures text { IfOk result (λ text. IsTextIn (F.bytes files.now) file.now (option_map (λ bytes. bytes.items) text)) }
    ensures why { IfErr result (λ error. error ≡ PlayError.NoMemory) }
{
    match files.kept(file) {
        Some(bytes) => Ok(Some(Vec::from_slice(alloc, bytes)?)),
        None => text_read(alloc, files, file),
    }
}

/// The text of the file, where it can be read. The only error is want of memory.
fn text_read<F: FileStore>(
    alloc: Global,
    files: &F,
    file: &str,
) -> Result<Option<Vec<u8>>, PlayError>
    ensures why { IfErr result (λ error. error ≡ PlayError.NoMemory) }
{
    let Ok(mut reader) = files.open(file) else {
        return Ok(None);
    };
    match read_whole(alloc, &mut reader) {
        Ok(text) => Ok(Some(text)),
        Err(PlayError::Read) => Ok(None),
        Err(_) => Err(PlayError::NoMemory),
    }
}

/// The text of the file that was read, where the fault shows in it and it can be read again. The only error is want of memory.
fn text_to_show<F: FileStore>(
    alloc: Global,
    files: &F,
    request: &Request<'_>,
    fault: PlayError,
) -> Result<Option<Vec<u8>>, PlayError>
    ensures text { IfOk result (λ text. IsTextShown (F.bytes files.now) request.now (wants_text fault) (option_map (λ bytes. bytes.items) text)) }
    ensures why { IfErr result (λ error. error ≡ PlayError.NoMemory) }
{
    if !wants_text(fault) {
        return Ok(None);
    }
    match file_read(request) {
        Some(file) => text_of(alloc, files, file),
        None => Ok(None),
    }
}

/// Why the file that was to be read or made can't be.
fn trouble_of<F: FileStore>(files: &F, request: &Request<'_>, fault: PlayError) -> Option<Trouble>
    ensures { IsTroubleWith request.now fault result }
{
    match fault {
        PlayError::Read => trouble_with_reading(files, request),
        PlayError::Write => trouble_with_making(files, request),
        _ => None,
    }
}

/// Why the file that was to be read can't be.
fn trouble_with_reading<F: FileStore>(files: &F, request: &Request<'_>) -> Option<Trouble>
    ensures { is_some result ≡ is_some (file_read request.now) }
{
    match file_read(request) {
        Some(file) => Some(files.trouble_with_reading(file)),
        None => None,
    }
}

/// Why the file that was to be made can't be.
fn trouble_with_making<F: FileStore>(files: &F, request: &Request<'_>) -> Option<Trouble>
    ensures { is_some result ≡ is_some (file_made request.now) }
{
    match request {
        Request::New { file } => Some(files.trouble_with_making((*file)?, true)),
        Request::Asm { file, out } => {
            Some(trouble_with_output(files, file, out, Trouble::IsInput))
        }
        Request::TraceData { file, out } => {
            Some(trouble_with_output(files, file, out, Trouble::IsTraceInput))
        }
        _ => None,
    }
}

/// Returns why the file that is made of another one can't be: `overwrites` if both are one file.
fn trouble_with_output<F: FileStore>(
    files: &F,
    file: &str,
    out: &str,
    overwrites: Trouble,
) -> Trouble {
    if files.is_one_file(file, out) {
        return overwrites;
    }
    files.trouble_with_making(out, false)
}
