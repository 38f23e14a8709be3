//! `why`: from a scenario's text to what is said of its run.
ghost use Rattle.cmwq_explain.specs.Explained.{AreChanges, Explains, IsAnswer, IsUnanswered};
ghost use Rattle.cmwq_explain.specs.Laws.{IsAfterFlush};
ghost use Rattle.cmwq_play.specs.Commands.{Answers, Reads, Writes};
ghost use Rattle.cmwq_play.specs.PlayTexts.{ComesTo, IsFaultOf};
ghost use Rattle.cmwq_types.specs.Faults.{IsValid};
ghost use Rattle.std.specs.Io.KnownBytes.{Keeps};
ghost use Rattle.std.specs.Prelude.{◌≡◌, Err, false};

use crate::answering::{Asked, is_unknown};
use crate::changes::tell_changes;
use cmwq_core::Core;
use cmwq_play::read_text;
use cmwq_question::Inquiry;
use cmwq_settle::settled_if;
use cmwq_streams::{PlayError, Sink, Source};
use cmwq_table::Machine;
use cmwq_types::Scenario;
use std::alloc::Global;

/// Reads a scenario's text, settles the scenario where that is asked, issues its one actor's instructions on a machine, and tells why
/// the work in question isn't further, or what the flush in question waits for: at the first of the positions that are looked at where
/// there is something to tell, and at each where it is something else than at the one before, behind `at`, the position, `now` and the
/// time in ticks. At the run's last position it is also told that the actor has stopped, where the work is pending or runs, or the
/// flush isn't done, and there are steps left.
///
/// It answers `Asm` with the text's fault exactly where the text spells no scenario; `Actors` exactly where the scenario hasn't one
/// actor; `Full` exactly where that one has more than 1,048,576 instructions, and, settled, where it would have more than 4,096 lines;
/// `NeverQuiet` exactly where the machine is to be quiet and never is; then `NoSuchWork` exactly where no work has the name; then
/// `PastEnd` exactly where the run ends before the one position, or the one tick, that is asked for; and then `NoSuchFlush` exactly
/// where nothing is told at any position, which is so of flushes alone. Nothing was written then, nor on `Read`; on `Write` and
/// `NoMemory` what was written is a front of the lines. At most one byte more is read than the 4,194,304 that a text may have.
pub fn why<R: Source, W: Sink>(
    alloc: Global,
    inquiry: Inquiry<'_>,
    reader: &mut R,
    writer: &mut W,
) -> Result<(), PlayError>
    requires reader { R.failed reader.old ≡ false }
    requires writer { W.failed writer.old ≡ false }
    ensures reads { Reads (R.remaining reader.old) (R.remaining reader.new) (R.failed reader.new) result }
    ensures answers { Answers (ComesTo (IsAnswer inquiry.entry)) (IsFaultOf (IsUnanswered inquiry.entry)) (R.remaining reader.old) result }
    ensures after_flush { result ≡ Err PlayError.NoSuchFlush → IsAfterFlush inquiry.entry.question }
    ensures writes { Writes (ComesTo (AreChanges inquiry.entry) (R.remaining reader.old)) (W.contents writer.old) (W.contents writer.new) (W.failed writer.new) result }
    ensures never_quiet { result ≡ Err PlayError.NeverQuiet → Keeps (W.contents writer.old) (W.contents writer.new) }
{
    let scenario = read_text(alloc, reader)?;
    explain::<Core, W>(alloc, inquiry, scenario, writer)
}

/// Tells the answer to the question along the run of the one actor of the scenario, or of that one settled. The text's reader has
/// judged the scenario already.
fn explain<M: Machine, W: Sink>(
    alloc: Global,
    inquiry: Inquiry<'_>,
    scenario: Scenario,
    writer: &mut W,
) -> Result<(), PlayError>
    requires valid { IsValid scenario }
    requires sound { W.failed writer.old ≡ false }
    ensures { Explains inquiry.entry scenario (W.contents writer.old) (W.contents writer.new) (W.failed writer.new) result }
{
    let scenario = settled_if(alloc, inquiry.settle, scenario)?;
    if is_unknown(inquiry.question, &scenario) {
        return Err(PlayError::NoSuchWork);
    }
    let asked = Asked(inquiry.question);
    let is_answered = tell_changes::<M, Asked<'_>, W>(
        alloc,
        scenario,
        inquiry.looks,
        &asked,
        writer,
    )?;
    if !is_answered {
        return Err(PlayError::NoSuchFlush);
    }
    Ok(())
}
