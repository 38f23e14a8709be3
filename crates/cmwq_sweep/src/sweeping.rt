//! `times --sweep`: from a scenario's text to what its run comes to, for each of several values of a queue's `max_active`.
ghost use Rattle.cmwq_play.specs.Runs.{CanRun, IsRunOf};
ghost use Rattle.cmwq_sweep.specs.Errors.{no_memory};
ghost use Rattle.cmwq_sweep.specs.Sweeping.{sweep_row, sweep_text};
ghost use Rattle.cmwq_sweep.specs.Swept.{IsLimitRange, IsSwept, IsUnswept, Sweeps, queue_with_name};
ghost use Rattle.cmwq_sweep.specs.Varied.{varied};
ghost use Rattle.cmwq_streams.specs.declared.error.PlayError.TheVariants as play;
ghost use Rattle.cmwq_types.specs.Contents.{ActorContents};
ghost use Rattle.cmwq_types.specs.Faults.{IsValid};
ghost use Rattle.cmwq_types.specs.Scenario.{expand, flags_at};
ghost use Rattle.cmwq_types.specs.declared.limits.TheConstants.{MAX_MAX_ACTIVE, MAX_TEXT};
ghost use Rattle.std.specs.Prelude.{◌≡◌, ◌≤◌, ◌<◌, ◌⊎◌, ◌↔◌, ◌+◌, ◌-◌, Err, IfErr, IfOk, IfSome, false, length, true};

use crate::error::SweepError;
use crate::sweep_row::{SweepLine, SweepRow};
use crate::trial::Trial;
use cmwq_core::Core;
use cmwq_ledger::Books;
use cmwq_play::{judge, read_text};
use cmwq_reports::{LimitRange, Sweep};
use cmwq_scan::is_word;
use cmwq_streams::{Sink, Source, put_all};
use cmwq_table::Machine;
use cmwq_types::{NoMemory, Scenario};
use std::alloc::Global;
use std::sync::Arc;

/// Reads a scenario's text, and for each value of the queue's `max_active` issues the one actor's instructions on a machine of the
/// scenario with that value, and writes a row of what that comes to: when the last instance finished, how many are still there, the most
/// works of the queue that were active in one pool at once, and the longest wait of one of its instances. Times are ticks. The whole is
/// made before its first byte is written. At most one byte more is read than the 4,194,304 that a text may have.
///
/// It answers, before anything is written, `Asm` with the text's fault exactly where the text spells no scenario; then `Actors` exactly
/// where the scenario hasn't one actor, and `Full` exactly where that one has more than 1,048,576 instructions; then `NoSuchQueue` exactly
/// where no queue has the name, and `Ordered` exactly where that one is ordered.
pub fn sweep<R: Source, W: Sink>(
    alloc: Global,
    asked: Sweep<'_>,
    reader: &mut R,
    writer: &mut W,
) -> Result<(), SweepError>
    requires reader { R.failed reader.old ≡ false }
    requires writer { W.failed writer.old ≡ false }
    requires limits { IsLimitRange asked.limits }
    ensures read { (result ≡ Err (SweepError.Play play.Read)) ↔ (R.failed reader.new ≡ true) }
    ensures few { IfSome (R.remaining reader.old) (λ bytes. IfSome (R.remaining reader.new) (λ rest. length bytes ≤ length rest + MAX_TEXT + 1)) }
    ensures sweeps { Sweeps asked.entry (R.remaining reader.old) (W.contents writer.old) (W.contents writer.new) (W.failed writer.new) result }
{
    let scenario = read_text(alloc, reader)?;
    judge(&scenario)?;
    match swept::<Core>(alloc, asked, &scenario) {
        Ok(text) => {
            put_all(writer, &text)?;
            Ok(())
        }
        Err(why) => Err(why),
    }
}

/// What is to be written of the scenario.
fn swept<M: Machine>(
    alloc: Global,
    asked: Sweep<'_>,
    scenario: &Scenario,
) -> Result<Vec<u8>, SweepError>
    requires valid { IsValid scenario.now }
    requires can { CanRun scenario.now }
    requires limits { IsLimitRange asked.limits }
    ensures swept { IfOk result (λ text. IsSwept scenario.now asked.entry text.items) }
    ensures why { IfErr result (λ why. IsUnswept scenario.now asked.entry why ⊎ (why ≡ no_memory)) }
{
    let Some(queue) = queue_with_name(scenario, asked.queue.as_bytes()) else {
        return Err(SweepError::NoSuchQueue);
    };
    if scenario.queues[queue].flags.ordered {
        return Err(SweepError::Ordered);
    }
    Ok(rows::<M>(alloc, asked, scenario, queue)?)
}

/// The number of the queue of this name, from 0; `None` where none has it.
fn queue_with_name(scenario: &Scenario, name: &[u8]) -> Option<usize>
    ensures named { result ≡ queue_with_name scenario.now name.now }
    ensures there { IfSome result (λ queue. queue < length scenario.now.queues) }
{
    scenario
        .queues
        .iter()
        .position(|queue| is_word(queue.name.as_bytes(), name))
}

/// The rows of all values.
fn rows<M: Machine>(
    alloc: Global,
    asked: Sweep<'_>,
    scenario: &Scenario,
    queue: usize,
) -> Result<Vec<u8>, NoMemory>
    requires valid { IsValid scenario.now }
    requires can { CanRun scenario.now }
    requires limits { IsLimitRange asked.limits }
    requires there { queue < length scenario.now.queues }
    requires varies { (flags_at scenario.now queue).ordered ≡ false }
    ensures { IfOk result (λ text. (actor : ActorContents) → IsRunOf scenario.now actor
        → text.items ≡ sweep_text asked.entry.format scenario.now (expand actor) queue asked.entry.limits.low (asked.entry.limits.high + 1 - asked.entry.limits.low)) }
{
    let LimitRange { low, high } = asked.limits;
    let mut text = String::new(alloc);
    for k in 0..high + 1 - low {
        let row = tried::<M>(alloc, scenario, queue, low + k)?;
        let line = SweepLine {
            format: asked.format,
            row,
        };
        write!(text, "{line}")?;
    }
    Ok(text.into_bytes())
}

/// What the run comes to where the queue is declared with this max.
fn tried<M: Machine>(
    alloc: Global,
    scenario: &Scenario,
    queue: usize,
    max: u16,
) -> Result<SweepRow, NoMemory>
    requires valid { IsValid scenario.now }
    requires can { CanRun scenario.now }
    requires there { queue < length scenario.now.queues }
    requires varies { (flags_at scenario.now queue).ordered ≡ false }
    requires some { 1 ≤ max }
    requires most { max ≤ MAX_MAX_ACTIVE }
    ensures { IfOk result (λ row. (actor : ActorContents) → IsRunOf scenario.now actor → row ≡ sweep_row scenario.now (expand actor) queue max) }
{
    let other = Arc::new(alloc, varied(scenario, queue, max)?)?;
    let machine = M::begin(alloc, Arc::clone(&other)?)?;
    let books = Books::open(alloc, machine.scenario())?;
    let mut trial = Trial {
        machine,
        books,
        last: 0,
    };
    trial.issue_all(&other.actors[0].lines);
    trial.close(alloc, queue, max)
}

/// A scenario in which the queue is declared with this max, and all else is as in this one.
fn varied(scenario: &Scenario, queue: usize, max: u16) -> Result<Scenario, NoMemory>
    requires { queue < length scenario.now.queues }
    ensures { IfOk result (λ other. other ≡ varied scenario.now queue max) }
{
    let mut other = scenario.copy()?;
    other.queues[queue].max = max;
    Ok(other)
}
