//! `run`: from a scenario's text to what is told of its run.
ghost use Rattle.cmwq_play.specs.Commands.{Answers, Reads, Writes};
ghost use Rattle.cmwq_play.specs.Runs.{CanRun, IsRefused};
ghost use Rattle.cmwq_play.specs.Telling.{IsToldOf, told_from};
ghost use Rattle.cmwq_play.specs.PlayTexts.{ComesTo, IsRun, IsRunFault};
ghost use Rattle.cmwq_streams.specs.Sending.{IsSendError};
ghost use Rattle.cmwq_table.specs.Events.{events};
ghost use Rattle.cmwq_table.specs.State.{start};
ghost use Rattle.cmwq_types.specs.Contents.{ScenarioContents};
ghost use Rattle.cmwq_types.specs.Faults.{IsValid};
ghost use Rattle.cmwq_types.specs.Scenario.{expand};
ghost use Rattle.std.specs.Prelude.{◌≡◌, IfErr, OnOk, false};

use crate::reading::read_text;
use crate::replies::Replies;
use crate::session::Session;
use crate::teller::Teller;
use cmwq_core::Core;
use cmwq_lines::ReplyLines;
use cmwq_runs::room_behind;
use cmwq_streams::{BlockWriter, PlayError, Sink, Source};
use cmwq_table::Machine;
use cmwq_types::{Actor, Scenario};
use std::alloc::Global;
use std::sync::Arc;

/// Reads a scenario's text, issues its one actor's instructions on a machine, and writes the lines
/// of the replies as they come, a block at a time.
///
/// It answers `Asm` with the text's fault exactly where the text spells no scenario, `Actors` exactly
/// where the scenario hasn't one actor, and `Full` exactly where that one has more than 1,048,576
/// instructions; then, and on `Read`, nothing was written. On `Write` and `NoMemory` what was written
/// is a front of the lines. At most one byte more is read than the 4,194,304 that a text may have.
pub fn run<R: Source, W: Sink>(
    alloc: Global,
    reader: &mut R,
    writer: &mut W,
) -> Result<(), PlayError>
    requires reader { R.failed reader.old ≡ false }
    requires writer { W.failed writer.old ≡ false }
    ensures reads { Reads (R.remaining reader.old) (R.remaining reader.new) (R.failed reader.new) result }
    ensures answers { Answers IsRun IsRunFault (R.remaining reader.old) result }
    ensures writes { Writes (IsRun (R.remaining reader.old)) (W.contents writer.old) (W.contents writer.new) (W.failed writer.new) result }
{
    tell_run::<Core, Replies, R, W>(alloc, Replies, reader, writer)
}

/// Reads a scenario's text, issues its one actor's instructions on a machine, and writes what the teller tells of them as it comes, a
/// block at a time. Its answers and errors are those of `run`.
pub fn tell_run<M: Machine, T: Teller, R: Source, W: Sink>(
    alloc: Global,
    teller: T,
    reader: &mut R,
    writer: &mut W,
) -> Result<(), PlayError>
    requires reader { R.failed reader.old ≡ false }
    requires writer { W.failed writer.old ≡ false }
    requires fits { (S : ScenarioContents) → T.fits teller (start S) }
    ensures reads { Reads (R.remaining reader.old) (R.remaining reader.new) (R.failed reader.new) result }
    ensures answers { Answers (ComesTo (IsToldOf T.told T.keeps teller)) IsRunFault (R.remaining reader.old) result }
    ensures writes { Writes (ComesTo (IsToldOf T.told T.keeps teller) (R.remaining reader.old)) (W.contents writer.old) (W.contents writer.new) (W.failed writer.new) result }
{
    let scenario = read_text(alloc, reader)?;
    judge(&scenario)?;
    load_and_tell::<M, T, W>(alloc, scenario, teller, writer)
}

/// Judges whether the scenario can be run: it has exactly one actor, of no more than 1,048,576 instructions. The only errors are
/// `Actors` and `Full`, in this order.
pub fn judge(scenario: &Scenario) -> Result<(), PlayError>
    ensures can { OnOk result (CanRun scenario.now) }
    ensures refused { IfErr result (λ error. IsRefused scenario.now error) }
{
    if scenario.actors.len() != 1 {
        return Err(PlayError::Actors);
    }
    match room_behind(&scenario.actors[0].lines) {
        Some(_room) => Ok(()),
        None => Err(PlayError::Full),
    }
}

/// Issues the one actor's instructions on a new machine, and writes what the teller tells of them as it comes, a block at a time. The
/// scenario has been judged already.
///
/// The only errors are `Write`, exactly where the writer failed, and `NoMemory`. What was written then is a front of what is told.
pub fn load_and_tell<M: Machine, T: Teller, W: Sink>(
    alloc: Global,
    scenario: Scenario,
    teller: T,
    writer: &mut W,
) -> Result<(), PlayError>
    requires valid { IsValid scenario }
    requires can { CanRun scenario }
    requires sound { W.failed writer.old ≡ false }
    requires fits { T.fits teller (start scenario) }
    ensures writes { Writes (IsToldOf T.told T.keeps teller scenario) (W.contents writer.old) (W.contents writer.new) (W.failed writer.new) result }
    ensures why { IfErr result (λ error. IsSendError error) }
{
    let scenario = Arc::new(alloc, scenario)?;
    let machine = M::begin(alloc, Arc::clone(&scenario)?)?;
    tell_actor(
        alloc,
        &scenario,
        &scenario.actors[0],
        machine,
        teller,
        writer,
    )
}

/// Issues an actor's instructions on a machine at the scenario's start, and writes the lines of the replies as they come, a block at a
/// time. The actor needs not be one of the scenario's.
///
/// The only errors are `Write`, exactly where the writer failed, and `NoMemory`. What was written then is a front of the lines.
pub fn print_actor<M: Machine, W: Sink>(
    alloc: Global,
    scenario: &Scenario,
    actor: &Actor,
    machine: M,
    writer: &mut W,
) -> Result<(), PlayError>
    requires loaded { M.loaded machine ≡ scenario.now }
    requires start { M.state machine ≡ start scenario.now }
    requires sound { W.failed writer.old ≡ false }
    ensures writes { Writes (λ output. output ≡ events scenario.now (expand actor.now)) (W.contents writer.old) (W.contents writer.new) (W.failed writer.new) result }
    ensures why { IfErr result (λ error. IsSendError error) }
{
    tell_actor(alloc, scenario, actor, machine, Replies, writer)
}

/// Issues an actor's instructions on a machine at the scenario's start, and writes what the teller tells of them as it comes, a block
/// at a time.
fn tell_actor<M: Machine, T: Teller, W: Sink>(
    alloc: Global,
    scenario: &Scenario,
    actor: &Actor,
    machine: M,
    teller: T,
    writer: &mut W,
) -> Result<(), PlayError>
    requires loaded { M.loaded machine ≡ scenario.now }
    requires start { M.state machine ≡ start scenario.now }
    requires sound { W.failed writer.old ≡ false }
    requires fits { T.fits teller (start scenario.now) }
    ensures writes { Writes (λ output. output ≡ told_from T.told T.keeps teller scenario.now (start scenario.now) (expand actor.now)) (W.contents writer.old) (W.contents writer.new) (W.failed writer.new) result }
    ensures why { IfErr result (λ error. IsSendError error) }
{
    let mut teller = teller;
    let replies = ReplyLines::new(alloc, scenario)?;
    let mut session = Session {
        scenario,
        machine,
        replies,
        lines: BlockWriter::new(alloc, writer),
    };
    let outcome = session.send_all(&mut teller, &actor.lines);
    let writer = session.into_writer();
    let _ = &*writer;
    outcome
}
