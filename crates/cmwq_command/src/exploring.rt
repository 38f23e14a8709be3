//! Exploring all orders of a file's actors.
ghost use Rattle.cmwq_command.specs.ExploredFiles.{HasExploredFile, IsToldSo, TellsLine, status_of_outcome, unexplored_line};
ghost use Rattle.std.specs.Prelude.{◌≡◌, IfOk, IfSome, Some, false};

use crate::file_store::FileStore;
use cmwq_exploration::Exploration;
use cmwq_explore::Progress;
use cmwq_explored::{ExploreError, Outcome, explore};
use cmwq_streams::{PlayError, Sink, put_all};
use cmwq_types::NoMemory;
use std::alloc::Global;

/// The exit status of a scenario that has what is never to be.
const FOUND: u8 = 5;

/// The exit status of what is open.
const OPEN: u8 = 6;

/// The exit status of a scenario with which what is asked can't be done.
pub const UNDONE: u8 = 1;

/// Looks through all orders of the actors of the scenario whose text is in the file, and writes what comes of that: an order as a scenario
/// that shows it, or a line. Gives the exit status. What no other command tells of a scenario goes to `errors`.
pub(crate) fn explore_file<F: FileStore, O: Sink, E: Sink, P: Progress>(
    alloc: Global,
    files: &F,
    output: &mut O,
    errors: &mut E,
    file: &str,
    exploration: &Exploration<'_>,
    progress: &mut P,
) -> Result<u8, PlayError>
    requires output { O.failed output.old ≡ false }
    requires errors { E.failed errors.old ≡ false }
    ensures explored { IfSome (F.bytes files.now file.now) (λ bytes. HasExploredFile exploration.now bytes (O.contents output.old) (O.contents output.new) (O.failed output.new)
        (E.contents errors.old) (E.contents errors.new) result) }
{
    let mut reader = files.open(file)?;
    let explored = explore(alloc, exploration, &mut reader, output, progress);
    told_so(alloc, errors, explored)
}

/// Tells what exploring came to, as far as it wasn't written, and gives the exit status.
fn told_so<E: Sink>(
    alloc: Global,
    errors: &mut E,
    explored: Result<Outcome, ExploreError>,
) -> Result<u8, PlayError>
    requires { E.failed errors.old ≡ false }
    ensures { IsToldSo explored (E.contents errors.old) (E.contents errors.new) result }
{
    match explored {
        Ok(outcome) => Ok(status_of(outcome)),
        Err(ExploreError::Play(why)) => Err(why),
        Err(ExploreError::NoSuchActor) => Ok(tell_line(errors, b"no such actor\n")),
        Err(ExploreError::Flushes(count)) => {
            let line = flushes_line(alloc, count)?;
            Ok(tell_line(errors, &line))
        }
    }
}

/// The line that tells how many flushes the scenario's actors give, where that is more than it has.
fn flushes_line(alloc: Global, count: u16) -> Result<Vec<u8>, NoMemory>
    ensures { IfOk result (λ line. line.items ≡ unexplored_line (ExploreError.Flushes count)) }
{
    Ok(format!(in alloc; "flushes {count} needed\n")?.into_bytes())
}

/// Writes the line of a scenario that can't be explored, or swept over, so, as far as the writer takes it, and gives the exit status.
pub(crate) fn tell_line<E: Sink>(errors: &mut E, line: &[u8]) -> u8
    requires { E.failed errors.old ≡ false }
    ensures status { result ≡ 1 }
    ensures told { TellsLine line.now (E.contents errors.old) (E.contents errors.new) }
{
    let _ = put_all(errors, line);
    UNDONE
}

/// The exit status of what exploring comes to.
fn status_of(outcome: Outcome) -> u8
    ensures { result ≡ status_of_outcome outcome }
{
    match outcome {
        Outcome::Holds => 0,
        Outcome::Found => FOUND,
        Outcome::Open => OPEN,
    }
}
