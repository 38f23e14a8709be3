//! `times`: from a scenario's text to where the time of its run's instances went.
ghost use Rattle.cmwq_play.specs.Commands.{Answers, Reads, Writes};
ghost use Rattle.cmwq_play.specs.PlayTexts.{IsRunFault};
ghost use Rattle.cmwq_play.specs.Runs.{CanRun};
ghost use Rattle.cmwq_streams.specs.Sending.{IsSendError};
ghost use Rattle.cmwq_blame.specs.Blame.{no_blame};
ghost use Rattle.cmwq_ledger.specs.Books.{books_begun};
ghost use Rattle.cmwq_table.specs.State.{start};
ghost use Rattle.cmwq_times.specs.TimesOfRun.{IsTimed, IsTimedRun};
ghost use Rattle.cmwq_times.specs.TimesText.{blame_if, times_text};
ghost use Rattle.cmwq_types.specs.Faults.{IsValid};
ghost use Rattle.cmwq_types.specs.Scenario.{expand_lines};
ghost use Rattle.std.specs.Prelude.{◌≡◌, IfErr, false};

use crate::clerk::Clerk;
use cmwq_core::Core;
use cmwq_lines::ReplyLines;
use cmwq_play::{Session, judge, read_text};
use cmwq_reports::Times;
use cmwq_streams::{BlockWriter, PlayError, Sink, Source};
use cmwq_table::Machine;
use cmwq_types::{Line, Scenario};
use std::alloc::Global;
use std::sync::Arc;

/// Reads a scenario's text, issues its one actor's instructions on a machine, and writes where the time of each instance of a work went:
/// a row when it ends, then the rows of those that are still there, then, if it is asked for, for whom works waited, then the rows of the
/// queues, the CPUs, the two unbound pools, and the time. Times are ticks.
///
/// A row tells when the instance was asked for, and for how many ticks it was pending with a timer, inactive, listed or deferred, and ran
/// without the CPU, burned or slept. For whom a work waited counts the ticks at which it was inactive, listed or deferred, or ran without the
/// CPU: each for every work that the reason blames why it doesn't get on, or for nobody, where it is frozen or lacks memory. Rows go out a
/// block at a time, and nothing is kept that grows with the run.
///
/// It answers `Asm` with the text's fault exactly where the text spells no scenario, `Actors` exactly where the scenario hasn't one actor,
/// and `Full` exactly where that one has more than 1,048,576 instructions; then, and on `Read`, nothing was written. On `Write` and
/// `NoMemory` what was written is a front of the rows. At most one byte more is read than the 4,194,304 that a text may have.
pub fn times<R: Source, W: Sink>(
    alloc: Global,
    reader: &mut R,
    writer: &mut W,
    asked: Times,
) -> Result<(), PlayError>
    requires reader { R.failed reader.old ≡ false }
    requires writer { W.failed writer.old ≡ false }
    ensures reads { Reads (R.remaining reader.old) (R.remaining reader.new) (R.failed reader.new) result }
    ensures answers { Answers (IsTimedRun asked) IsRunFault (R.remaining reader.old) result }
    ensures writes { Writes (IsTimedRun asked (R.remaining reader.old)) (W.contents writer.old) (W.contents writer.new) (W.failed writer.new) result }
{
    let scenario = read_text(alloc, reader)?;
    judge(&scenario)?;
    time_scenario::<Core, W>(alloc, scenario, asked, writer)
}

/// Issues the one actor's instructions on a new machine, and writes where the time went. The scenario has been judged already.
fn time_scenario<M: Machine, W: Sink>(
    alloc: Global,
    scenario: Scenario,
    asked: Times,
    writer: &mut W,
) -> Result<(), PlayError>
    requires valid { IsValid scenario }
    requires can { CanRun scenario }
    requires sound { W.failed writer.old ≡ false }
    ensures writes { Writes (IsTimed asked scenario) (W.contents writer.old) (W.contents writer.new) (W.failed writer.new) result }
    ensures why { IfErr result (λ error. IsSendError error) }
{
    let scenario = Arc::new(alloc, scenario)?;
    let machine = M::begin(alloc, Arc::clone(&scenario)?)?;
    time_machine(alloc, asked, &scenario, machine, writer)
}

/// Issues the one actor's instructions on a machine at the scenario's start, and writes where the time went.
fn time_machine<M: Machine, W: Sink>(
    alloc: Global,
    asked: Times,
    scenario: &Scenario,
    machine: M,
    writer: &mut W,
) -> Result<(), PlayError>
    requires can { CanRun scenario.now }
    requires loaded { M.loaded machine ≡ scenario.now }
    requires start { M.state machine ≡ start scenario.now }
    requires sound { W.failed writer.old ≡ false }
    ensures writes { Writes (IsTimed asked scenario.now) (W.contents writer.old) (W.contents writer.new) (W.failed writer.new) result }
    ensures why { IfErr result (λ error. IsSendError error) }
{
    let mut clerk = Clerk::open(alloc, machine.scenario(), asked)?;
    let lines = &scenario.actors[0].lines;
    time_actor(&mut clerk, scenario, lines, machine, writer)
}

/// Issues the lines' instructions on a machine at the scenario's start, and sends what the clerk tells of them.
fn time_actor<M: Machine, W: Sink>(
    clerk: &mut Clerk,
    scenario: &Scenario,
    lines: &[Line],
    machine: M,
    writer: &mut W,
) -> Result<(), PlayError>
    requires loaded { M.loaded machine ≡ scenario.now }
    requires start { M.state machine ≡ start scenario.now }
    requires begun { clerk.old.books ≡ books_begun scenario.now }
    requires blame { clerk.old.blame ≡ blame_if clerk.old.asked.whom (no_blame scenario.now) }
    requires sound { W.failed writer.old ≡ false }
    ensures writes { Writes (λ output. output ≡ times_text clerk.old.asked scenario.now (expand_lines lines.now)) (W.contents writer.old) (W.contents writer.new) (W.failed writer.new) result }
    ensures why { IfErr result (λ error. IsSendError error) }
{
    let replies = ReplyLines::new(clerk.alloc, scenario)?;
    let mut session = Session {
        scenario,
        machine,
        replies,
        lines: BlockWriter::new(clerk.alloc, writer),
    };
    let outcome = clerk.tell(&mut session, lines);
    let writer = session.into_writer();
    let _ = &*writer;
    outcome
}
