//! Running a file's scenario strictly: with a status that says whether an instruction was refused.
ghost use Rattle.cmwq_command.specs.StrictRuns.{EndsWith, HasRunStrictly, IsToldStrictly};
ghost use Rattle.cmwq_command.specs.Tasks.{HasDone};
ghost use Rattle.cmwq_tasks.specs.declared.task.Task.TheVariants.{Run as run};
ghost use Rattle.std.specs.Prelude.{◌≡◌, IfSome, Ok, false, option_map};

use crate::exploring::tell_line;
use crate::file_store::FileStore;
use crate::tasks_done::do_task;
use cmwq_outcome::{GOOD, refused_line};
use cmwq_play::{Marked, read_whole};
use cmwq_streams::{PlayError, Sink};
use cmwq_tasks::{RunKind, Task};
use std::alloc::Global;

/// Runs the scenario whose text is in the file, and writes what a usual run of this kind writes. Then it writes to `errors` how many
/// instructions of the actor were refused, if one was, and returns the exit status: 1 if one was, and else 0. The text is read once, so
/// the file can be a pipe.
pub(crate) fn run_strictly<F: FileStore, O: Sink, E: Sink>(
    alloc: Global,
    files: &F,
    output: &mut O,
    errors: &mut E,
    file: &str,
    kind: RunKind,
) -> Result<u8, PlayError>
    requires output { O.failed output.old ≡ false }
    requires errors { E.failed errors.old ≡ false }
    ensures strict { IfSome (F.bytes files.now file.now) (λ bytes. HasRunStrictly kind bytes (O.contents output.old) (O.contents output.new) (O.failed output.new)
        (E.contents errors.old) (E.contents errors.new) result) }
{
    let mut reader = files.open(file)?;
    let text = read_whole(alloc, &mut reader)?;
    let ran = run_text(alloc, &text, kind, output);
    told_strictly(alloc, &text, errors, ran)
}

/// Runs the scenario of the text, and writes what a run of this kind writes.
fn run_text<W: Sink>(
    alloc: Global,
    text: &[u8],
    kind: RunKind,
    writer: &mut W,
) -> Result<(), PlayError>
    requires { W.failed writer.old ≡ false }
    ensures { HasDone (run kind) text.now (W.contents writer.old) (W.contents writer.new) (W.failed writer.new) result }
{
    let mut reader = Marked::new(text);
    do_task(Task::Run(kind), alloc, &mut reader, writer)
}

/// Tells which instructions were refused in the run of the text if that ended well, and gives the exit status.
fn told_strictly<E: Sink>(
    alloc: Global,
    text: &[u8],
    errors: &mut E,
    ran: Result<(), PlayError>,
) -> Result<u8, PlayError>
    requires { E.failed errors.old ≡ false }
    ensures { IsToldStrictly text.now ran (E.contents errors.old) (E.contents errors.new) result }
{
    ran?;
    match refused_line(alloc, text)? {
        Some(line) => Ok(tell_line(errors, &line)),
        None => Ok(GOOD),
    }
}
