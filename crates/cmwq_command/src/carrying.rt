//! What the words ask for, carried out on files.
ghost use Rattle.clap.specs.Words.{Text};
ghost use Rattle.cmwq_command.specs.Carried.{HasCarriedOut, HasCarriedOutWords, HasChecked, HasDebugged, HasDone, HasLeft, HasStarted, HasToldLanguage, IsJudged, UnlessUnopened, graded};
ghost use Rattle.cmwq_command_line.specs.CommandLine.{version_line};
ghost use Rattle.cmwq_kernel_trace.specs.DataTrace.{dat_of_run};
ghost use Rattle.cmwq_play.specs.Framing.{IsTextOfRun};
ghost use Rattle.cmwq_outcome.specs.FaultsTold.{Prints};
ghost use Rattle.cmwq_image.specs.Image.{image};
ghost use Rattle.cmwq_image.specs.declared.version.TheConstants.{VERSION};
ghost use Rattle.cmwq_outcome.specs.declared.telling.TheConstants.{USAGE};
ghost use Rattle.cmwq_play.specs.Commands.{Answers};
ghost use Rattle.cmwq_play.specs.PlayTexts.{IsOutput, IsRunFault, IsTextFault};
ghost use Rattle.cmwq_request.specs.Request.{IsAskedBy, IsCapacity, IsMisusedBy, IsVersionWord, IsWithin};
ghost use Rattle.cmwq_streams.specs.Sending.{IsSendError};
ghost use Rattle.std.specs.Prelude.{◌≡◌, ◌∷◌, [], List, IfErr, IfOk, IfSome, None, OnOk, Some, false, length, map, string_bytes};

use crate::exploring::explore_file;
use crate::file_store::FileStore;
use crate::strict::run_strictly;
use crate::sweeping::sweep_file;
use crate::tasks_done::do_task;
use cmwq_actors::OpenGate;
use cmwq_debug_session::Manner;
use cmwq_explore::Progress;
use cmwq_kernel_trace::trace_dat;
use cmwq_language::language_page;
use cmwq_outcome::{GOOD, Judged, Look, check_text, tell, tell_unread, write_first, write_version};
use cmwq_play::{Marked, PlayError, Sink};
use cmwq_request::request::{Request, parse};
use cmwq_settle::settled_if;
use cmwq_streams::put_all;
use cmwq_tasks::Task;
use std::alloc::Global;
use std::io::Read;
use std::sync::Wait;
use std::thread::Threads;
use std::time::Clock;

/// What `main` knows of the program that runs.
#[derive(Clone, Copy)]
pub struct ProgramSetting<'a> {
    /// The logic that its proofs rest on, as `rt version` names it.
    pub logic: &'a str,
    /// How verdicts look on standard error.
    pub look: Look,
    /// How a debugging session is held.
    pub manner: Manner,
}

/// Does what the words ask, of which the first is the program's name, and gives the exit status. Commands of a
/// debugger come from `input`. Events, listings, pictures, what a debugger says, what a play leaves, what a search of all orders comes to, verdicts of good files, the version and
/// help go to `output`, and other verdicts, which look as they are to, and usage faults to `errors`. `progress` is told how far a search is.
/// A play may wait forever.
pub fn carry_out<R, F: FileStore, I: Read + Drop, O: Sink, E: Sink, P: Progress>(
    rt: &R,
    files: &F,
    setting: ProgramSetting<'_>,
    words: &[String],
    input: I,
    output: &mut O,
    errors: &mut E,
    progress: &mut P,
) -> Result<u8, PlayError>
where
    R: AllocGlobal + Threads + Wait + Clock + Sync,
    requires output { O.failed output.old ≡ false }
    requires errors { E.failed errors.old ≡ false }
    // `--version` and `-V` print the version's line.
    ensures version { (name word : Text) → map string_bytes words.now ≡ name ∷ word ∷ [] → IsVersionWord word
        → Prints (version_line setting.entry.logic.now) (O.contents output.old) (O.contents output.new) result }
    // Each command's words carry it out, unless memory runs out before.
    ensures done { (name : Text) (given asked : List Text) → map string_bytes words.now ≡ name ∷ given → IsAskedBy given asked
        → HasCarriedOutWords (F.bytes files.now) setting.entry.look setting.entry.manner setting.entry.logic.now (I.remaining input) (O.contents output.old) (O.contents output.new)
        (E.contents errors.old) (E.contents errors.new) (O.failed output.new) asked result }
    // Words that ask for nothing are told on the writer for faults alone.
    ensures misuse { (name : Text) (given : List Text) → map string_bytes words.now ≡ name ∷ given → IsMisusedBy given
        → (output.new ≡ output.old) × IfOk result (λ status. status ≡ USAGE) }
{
    match parse(rt.alloc(), words) {
        Ok(request) => {
            answer_request(rt, files, setting, input, output, errors, request, progress)
        }
        Err(error) => tell(rt.alloc(), output, errors, error.kind(), &error),
    }
}

/// Does what is asked, and gives the exit status. Commands of a debugger come from the input. Events, listings, pictures, what a debugger
/// says, what a play leaves, verdicts of good files and the version go to `output`, and other verdicts to `errors`.
pub fn answer_request<R, F: FileStore, I: Read + Drop, O: Sink, E: Sink, P: Progress>(
    rt: &R,
    files: &F,
    setting: ProgramSetting<'_>,
    input: I,
    output: &mut O,
    errors: &mut E,
    request: Request<'_>,
    progress: &mut P,
) -> Result<u8, PlayError>
where
    R: AllocGlobal + Threads + Wait + Clock + Sync,
    requires within { IsWithin request }
    requires output { O.failed output.old ≡ false }
    requires errors { E.failed errors.old ≡ false }
    ensures done { HasCarriedOut (F.bytes files.now) setting.entry.look setting.entry.manner setting.entry.logic.now (I.remaining input) (O.contents output.old) (O.contents output.new)
        (E.contents errors.old) (E.contents errors.new) (O.failed output.new) request.entry result }
{
    match request {
        Request::New { file } => good(new(files, output, file)),
        Request::Do { file, task } => good(do_on_file(rt.alloc(), files, output, file, task)),
        Request::Strict { file, kind } => {
            run_strictly(rt.alloc(), files, output, errors, file, kind)
        }
        Request::Sweep { file, sweep } => {
            sweep_file(rt.alloc(), files, output, errors, file, sweep)
        }
        Request::TraceData { file, out } => good(record(rt.alloc(), files, file, out)),
        Request::Asm { file, out } => good(asm(rt.alloc(), files, file, out)),
        Request::Debug { file, settle } => good(debug_file(
            rt.alloc(),
            files,
            setting.manner,
            input,
            output,
            file,
            settle,
        )),
        Request::Play { file, capacity } => good(play_file(rt, files, output, file, capacity)),
        Request::Explore { file, exploration } => explore_file(
            rt.alloc(),
            files,
            output,
            errors,
            file,
            &exploration,
            progress,
        ),
        Request::Check { files: paths } => check(
            rt.alloc(),
            files,
            setting.look,
            output,
            errors,
            &paths,
        ),
        Request::Language => good(write_language(rt.alloc(), output)),
        Request::Version => good(write_version(rt.alloc(), setting.logic, output)),
    }
}

/// The exit status of what was done.
fn good(outcome: Result<(), PlayError>) -> Result<u8, PlayError>
    ensures { result ≡ graded outcome }
{
    match outcome {
        Ok(()) => Ok(GOOD),
        Err(error) => Err(error),
    }
}

/// Tells the verdict of each of these files, one after another, and gives the highest of their statuses. The error is `Write` or
/// `NoMemory`.
fn check<F: FileStore, O: Sink, E: Sink>(
    alloc: Global,
    files: &F,
    look: Look,
    output: &mut O,
    errors: &mut E,
    paths: &[&str],
) -> Result<u8, PlayError>
    requires output { O.failed output.old ≡ false }
    requires errors { E.failed errors.old ≡ false }
    ensures checked { IfOk result (λ status. HasChecked (F.bytes files.now) look (map (λ path. path.now) paths.now) (length paths.now)
        (O.contents output.old) (O.contents output.new) (E.contents errors.old) (E.contents errors.new) status) }
    ensures why { IfErr result (λ error. IsSendError error) }
{
    let mut status = GOOD;
    for path in paths {
        let judged = check_file(alloc, files, look, output, errors, path)?;
        status = status.max(judged.status());
    }
    Ok(status)
}

/// Tells the verdict of the file. The error is `Write` or `NoMemory`.
fn check_file<F: FileStore, O: Sink, E: Sink>(
    alloc: Global,
    files: &F,
    look: Look,
    output: &mut O,
    errors: &mut E,
    path: &str,
) -> Result<Judged, PlayError>
    requires output { O.failed output.old ≡ false }
    requires errors { E.failed errors.old ≡ false }
    ensures judged { IfOk result (λ judged. IfSome (F.bytes files.now path.now) (λ bytes. IsJudged look path.now bytes
        (O.contents output.old) (O.contents output.new) (E.contents errors.old) (E.contents errors.new) judged)) }
    ensures output { OnOk result (O.failed output.new ≡ false) }
    ensures errors { OnOk result (E.failed errors.new ≡ false) }
    ensures why { IfErr result (λ error. IsSendError error) }
{
    match files.open(path) {
        Ok(mut reader) => check_text(alloc, look, path, &mut reader, output, errors),
        Err(_) => tell_unread(alloc, path, errors),
    }
}

/// Writes a scenario to start from, to a file that isn't there yet, or to the writer where no file is named.
fn new<F: FileStore, W: Sink>(
    files: &F,
    writer: &mut W,
    file: Option<&str>,
) -> Result<(), PlayError>
    requires { W.failed writer.old ≡ false }
    ensures first { file.entry ≡ None → HasStarted (W.contents writer.old) (W.contents writer.new) (W.failed writer.new) result }
    ensures same { IfSome file.entry (λ _. writer.new ≡ writer.old) }
    ensures why { IfErr result (λ error. error ≡ PlayError.Write) }
{
    match file {
        Some(path) => write_first(&mut files.make_new(path)?),
        None => write_first(writer),
    }
}

/// Carries the task out on the file, and writes what comes of it.
fn do_on_file<F: FileStore, W: Sink>(
    alloc: Global,
    files: &F,
    writer: &mut W,
    file: &str,
    task: Task<'_>,
) -> Result<(), PlayError>
    requires { W.failed writer.old ≡ false }
    ensures done { IfSome (F.bytes files.now file.now) (λ bytes. UnlessUnopened (W.contents writer.old) (W.contents writer.new) result
        (HasDone task.entry bytes (W.contents writer.old) (W.contents writer.new) (W.failed writer.new) result)) }
{
    let mut reader = files.open(file)?;
    do_task(task, alloc, &mut reader, writer)
}

/// Makes the image file of the scenario whose text is in the file. The image file is made anew
/// first, and it stays empty where there is a fault before the image is written. One file can't be both: that is `Write`, and nothing is lost.
fn asm<F: FileStore>(alloc: Global, files: &F, file: &str, out: &str) -> Result<(), PlayError>
    ensures answers { IfSome (F.bytes files.now file.now) (λ bytes. Answers (IsOutput (image VERSION)) IsTextFault (Some bytes) result) }
{
    if files.is_one_file(file, out) {
        return Err(PlayError::Write);
    }
    let mut writer = files.make(out)?;
    let mut reader = files.open(file)?;
    cmwq_play::to_image(alloc, &mut reader, &mut writer)
}

/// Makes the `trace.dat` of the run of the scenario whose text is in the file, as `asm` makes an image.
fn record<F: FileStore>(alloc: Global, files: &F, file: &str, out: &str) -> Result<(), PlayError>
    ensures answers { IfSome (F.bytes files.now file.now) (λ bytes. Answers (IsTextOfRun dat_of_run) IsRunFault (Some bytes) result) }
{
    if files.is_one_file(file, out) {
        return Err(PlayError::Write);
    }
    let mut writer = files.make(out)?;
    let mut reader = files.open(file)?;
    trace_dat(alloc, &mut reader, &mut writer)
}

/// Writes what a scenario's text may say.
fn write_language<W: Sink>(alloc: Global, writer: &mut W) -> Result<(), PlayError>
    requires { W.failed writer.old ≡ false }
    ensures { HasToldLanguage (W.contents writer.old) (W.contents writer.new) (W.failed writer.new) result }
{
    let page = language_page(alloc)?;
    put_all(writer, &page)
}

/// Debugs the scenario whose text is in the file, settled where that is asked, by the commands of the input, and writes what is said to each.
fn debug_file<F: FileStore, I: Read + Drop, W: Sink>(
    alloc: Global,
    files: &F,
    manner: Manner,
    input: I,
    writer: &mut W,
    file: &str,
    settle: bool,
) -> Result<(), PlayError>
    requires { W.failed writer.old ≡ false }
    ensures debugged { IfSome (F.bytes files.now file.now) (λ bytes. HasDebugged manner settle bytes (I.remaining input) (W.contents writer.old) (W.contents writer.new) (W.failed writer.new) result) }
{
    let mut reader = files.open(file)?;
    let scenario = cmwq_play::read_text(alloc, &mut reader)?;
    let run = settled_if(alloc, settle, scenario)?;
    let mut commands = Marked::new(input);
    cmwq_debug_session::debug(alloc, manner, run, &mut commands, writer)
}

/// Carries out all actors of the scenario whose text is in the file at once, and writes the text that is left.
fn play_file<R: AllocGlobal + Threads + Wait + Clock + Sync, F: FileStore, W: Sink>(
    rt: &R,
    files: &F,
    writer: &mut W,
    file: &str,
    capacity: u32,
) -> Result<(), PlayError>
    requires capacity { IsCapacity capacity }
    requires writer { W.failed writer.old ≡ false }
    ensures left { IfSome (F.bytes files.now file.now) (λ bytes. HasLeft capacity bytes (W.contents writer.old) (W.contents writer.new) (W.failed writer.new) result) }
{
    let mut reader = files.open(file)?;
    let scenario = cmwq_play::read_text(rt.alloc(), &mut reader)?;
    cmwq_interleaving::play(rt, rt.alloc(), scenario, capacity, &OpenGate, writer)
}
