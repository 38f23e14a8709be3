//! Sweeping over a queue's `max_active` in a file's scenario.
ghost use Rattle.cmwq_command.specs.SweptFiles.{HasSweptFile, IsToldSwept};
ghost use Rattle.cmwq_request.specs.Numbers.{are_limits};
ghost use Rattle.std.specs.Prelude.{◌≡◌, IfSome, false, true};

use crate::exploring::tell_line;
use crate::file_store::FileStore;
use cmwq_outcome::GOOD;
use cmwq_reports::Sweep;
use cmwq_streams::{PlayError, Sink};
use cmwq_sweep::{SweepError, sweep};
use std::alloc::Global;

/// Writes what the run of the scenario whose text is in the file comes to, for each of the values of the queue's `max_active`, and gives the
/// exit status. What no other command tells of a scenario goes to `errors`.
pub(crate) fn sweep_file<F: FileStore, O: Sink, E: Sink>(
    alloc: Global,
    files: &F,
    output: &mut O,
    errors: &mut E,
    file: &str,
    asked: Sweep<'_>,
) -> Result<u8, PlayError>
    requires output { O.failed output.old ≡ false }
    requires errors { E.failed errors.old ≡ false }
    requires limits { are_limits asked.limits.low asked.limits.high ≡ true }
    ensures swept { IfSome (F.bytes files.now file.now) (λ bytes. HasSweptFile asked.entry bytes (O.contents output.old) (O.contents output.new) (O.failed output.new)
        (E.contents errors.old) (E.contents errors.new) result) }
{
    let mut reader = files.open(file)?;
    let swept = sweep(alloc, asked, &mut reader, output);
    told_swept(errors, swept)
}

/// Tells what sweeping came to, as far as it wasn't written, and gives the exit status.
fn told_swept<E: Sink>(errors: &mut E, swept: Result<(), SweepError>) -> Result<u8, PlayError>
    requires { E.failed errors.old ≡ false }
    ensures { IsToldSwept swept (E.contents errors.old) (E.contents errors.new) result }
{
    match swept {
        Ok(()) => Ok(GOOD),
        Err(SweepError::Play(why)) => Err(why),
        Err(SweepError::NoSuchQueue) => Ok(tell_line(errors, b"no such queue\n")),
        Err(SweepError::Ordered) => Ok(tell_line(errors, b"ordered\n")),
    }
}
