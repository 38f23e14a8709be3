//! `run --tell`: from a scenario's text to all that is told of its run.
ghost use Rattle.cmwq_play.specs.Commands.{Answers, Reads, Writes};
ghost use Rattle.cmwq_tell.specs.RunTold.{IsToldFault, IsToldRun};
ghost use Rattle.std.specs.Io.KnownBytes.{Keeps};
ghost use Rattle.std.specs.Prelude.{◌≡◌, Err, false};

use crate::told::Whole;
use cmwq_core::Core;
use cmwq_play::{load_and_frame, read_text};
use cmwq_settle::settled_if;
use cmwq_streams::{PlayError, Sink, Source};
use std::alloc::Global;

/// Reads a scenario's text, settles the scenario where that is asked, issues its one actor's instructions on a machine, and writes each
/// instruction behind `# ` and its position, in the words of the listing, then the line of its reply, if it has one, and then behind
/// `#   ` what it changed that the reply doesn't tell: that time passed, where a work starts, and which works were placed, activated or
/// given a timer, in this order. An instruction's position is how many were issued before it. Several equal instructions in a row whose condition has
/// come have one line, with the first and the last of their positions and what has come.
///
/// Without the lines that begin with `#` it is what `run` writes, or `run_settled`. It answers `Asm` with the text's fault exactly where
/// the text spells no scenario, `Actors` exactly where the scenario hasn't one actor, `Full` exactly where that one has more than
/// 1,048,576 instructions, and, settled, where it would have more than 4,096 lines, and `NeverQuiet` exactly where the machine is to be
/// quiet and never is; then, and on `Read`, nothing was written. On `Write` and `NoMemory` what was written is a front of the lines. At
/// most one byte more is read than the 4,194,304 that a text may have.
pub fn run_told<R: Source, W: Sink>(
    alloc: Global,
    settle: bool,
    reader: &mut R,
    writer: &mut W,
) -> Result<(), PlayError>
    requires reader { R.failed reader.old ≡ false }
    requires writer { W.failed writer.old ≡ false }
    ensures reads { Reads (R.remaining reader.old) (R.remaining reader.new) (R.failed reader.new) result }
    ensures answers { Answers (IsToldRun settle) (IsToldFault settle) (R.remaining reader.old) result }
    ensures writes { Writes (IsToldRun settle (R.remaining reader.old)) (W.contents writer.old) (W.contents writer.new) (W.failed writer.new) result }
    ensures never_quiet { result ≡ Err PlayError.NeverQuiet → Keeps (W.contents writer.old) (W.contents writer.new) }
{
    let scenario = read_text(alloc, reader)?;
    let settled = settled_if(alloc, settle, scenario)?;
    let whole = Whole {
        alloc,
        position: 0,
        held: None,
    };
    load_and_frame::<Core, Whole, W>(alloc, settled, whole, writer)
}
