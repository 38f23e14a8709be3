//! `run --settle`: from a scenario's text to the lines that it prints until its machine is quiet.
ghost use Rattle.cmwq_play.specs.Commands.{Answers, Reads, Writes};
ghost use Rattle.cmwq_play.specs.Runs.{CanRun, IsRunOf};
ghost use Rattle.cmwq_settle.specs.Counting.{IsCounted};
ghost use Rattle.cmwq_settle.specs.Settling.{IsEndlessOutput, IsEndlessRun, IsFollowedOutput, IsFollowedRun, IsSettledOutput, IsSettledRun, IsUnsettledRun, Wrote};
ghost use Rattle.cmwq_streams.specs.Sending.{IsSendError};
ghost use Rattle.cmwq_table.specs.State.{start};
ghost use Rattle.cmwq_types.specs.Faults.{IsValid};
ghost use Rattle.std.specs.Prelude.{◌≡◌, ◌⊎◌, Err, IfErr, OnOk, false};

use crate::counting::{Nexts, counted};
use crate::extending::with_nexts;
use cmwq_core::Core;
use cmwq_play::{judge, print_actor, read_text};
use cmwq_streams::{PlayError, Sink, Source};
use cmwq_table::Machine;
use cmwq_types::{Actor, Scenario};
use std::alloc::Global;
use std::sync::Arc;

/// Reads a scenario's text, issues its one actor's instructions on a machine, and behind them the least number of `next` after which
/// the machine is quiet, and writes the lines of the replies as they come, a block at a time.
///
/// It answers `Asm` with the text's fault exactly where the text spells no scenario, `Actors` exactly where the scenario hasn't one
/// actor, and `Full` exactly where that one has more than 1,048,576 instructions; then, and on `Read`, nothing was written. It
/// answers `NeverQuiet` exactly where no `next` that can be issued within the scenario's steps, and within 1,048,576 instructions in
/// all, makes the machine quiet; then the lines of the instructions and of all these `next` were written. On `Write` and `NoMemory`
/// what was written is a front of the lines. At most one byte more is read than the 4,194,304 that a text may have.
pub fn run_settled<R: Source, W: Sink>(
    alloc: Global,
    reader: &mut R,
    writer: &mut W,
) -> Result<(), PlayError>
    requires reader { R.failed reader.old ≡ false }
    requires writer { W.failed writer.old ≡ false }
    ensures reads { Reads (R.remaining reader.old) (R.remaining reader.new) (R.failed reader.new) result }
    ensures answers { Answers IsSettledRun IsUnsettledRun (R.remaining reader.old) result }
    ensures quiet { OnOk result (Wrote (IsSettledRun (R.remaining reader.old)) (W.contents writer.old) (W.contents writer.new)) }
    ensures never_quiet { result ≡ Err PlayError.NeverQuiet → Wrote (IsEndlessRun (R.remaining reader.old)) (W.contents writer.old) (W.contents writer.new) }
    ensures writes { Writes (IsFollowedRun (R.remaining reader.old)) (W.contents writer.old) (W.contents writer.new) (W.failed writer.new) result }
{
    let scenario = read_text(alloc, reader)?;
    judge(&scenario)?;
    count_and_print::<Core, W>(alloc, scenario, writer)
}

/// Counts on one machine how many `next` are to follow the one actor's instructions, and issues all on another, whose lines it writes.
fn count_and_print<M: Machine, W: Sink>(
    alloc: Global,
    scenario: Scenario,
    writer: &mut W,
) -> Result<(), PlayError>
    requires valid { IsValid scenario }
    requires can { CanRun scenario }
    requires sound { W.failed writer.old ≡ false }
    ensures quiet { OnOk result (Wrote (IsSettledOutput scenario) (W.contents writer.old) (W.contents writer.new)) }
    ensures never_quiet { result ≡ Err PlayError.NeverQuiet → Wrote (IsEndlessOutput scenario) (W.contents writer.old) (W.contents writer.new) }
    ensures writes { Writes (IsFollowedOutput scenario) (W.contents writer.old) (W.contents writer.new) (W.failed writer.new) result }
    ensures why { IfErr result (λ error. (error ≡ PlayError.NeverQuiet) ⊎ IsSendError error) }
{
    let scenario = Arc::new(alloc, scenario)?;
    let nexts = counted::<M>(alloc, &scenario)?;
    let machine = M::begin(alloc, Arc::clone(&scenario)?)?;
    print_followed(
        alloc,
        &scenario,
        &scenario.actors[0],
        nexts,
        machine,
        writer,
    )
}

/// Issues the actor's instructions on a machine at its start, and behind them so many `next`, and writes the lines of the replies.
fn print_followed<M: Machine, W: Sink>(
    alloc: Global,
    scenario: &Scenario,
    actor: &Actor,
    nexts: Nexts,
    machine: M,
    writer: &mut W,
) -> Result<(), PlayError>
    requires runs { IsRunOf scenario.now actor.now }
    requires counted { IsCounted scenario.now actor.now nexts }
    requires loaded { M.loaded machine ≡ scenario.now }
    requires start { M.state machine ≡ start scenario.now }
    requires sound { W.failed writer.old ≡ false }
    ensures quiet { OnOk result (Wrote (IsSettledOutput scenario.now) (W.contents writer.old) (W.contents writer.new)) }
    ensures never_quiet { result ≡ Err PlayError.NeverQuiet → Wrote (IsEndlessOutput scenario.now) (W.contents writer.old) (W.contents writer.new) }
    ensures writes { Writes (IsFollowedOutput scenario.now) (W.contents writer.old) (W.contents writer.new) (W.failed writer.new) result }
    ensures why { IfErr result (λ error. (error ≡ PlayError.NeverQuiet) ⊎ IsSendError error) }
{
    let longer = with_nexts(alloc, actor, nexts.number())?;
    print_actor(alloc, scenario, &longer, machine, writer)?;
    match nexts {
        Nexts::Settle(_) => Ok(()),
        Nexts::Never(_) => Err(PlayError::NeverQuiet),
    }
}
