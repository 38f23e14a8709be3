//! Who tells a run with something before it and something behind it.
ghost use Rattle.cmwq_play.specs.Commands.{Writes};
ghost use Rattle.cmwq_play.specs.Runs.{CanRun};
ghost use Rattle.cmwq_play.specs.Session.{CanIssue, Issues};
ghost use Rattle.cmwq_streams.specs.Blocks.{SharesSink, kept, sink};
ghost use Rattle.cmwq_streams.specs.Sending.{IsSendError};
ghost use Rattle.cmwq_table.specs.State.{State, start};
ghost use Rattle.cmwq_table.specs.Table.{after_all};
ghost use Rattle.cmwq_play.specs.Framing.{IsTextBy, framed_text, told_and_closed};
ghost use Rattle.cmwq_types.specs.Contents.{ScenarioContents};
ghost use Rattle.cmwq_types.specs.Faults.{IsValid};
ghost use Rattle.cmwq_types.specs.Scenario.{expand_lines};
ghost use Rattle.std.specs.Prelude.{◌≡◌, [], IfErr, List, false, ℕ};

use crate::{Session, Teller};
use cmwq_lines::ReplyLines;
use cmwq_streams::{BlockWriter, PlayError, Sink};
use cmwq_table::Machine;
use cmwq_types::{Line, Scenario};
use std::alloc::Global;
use std::sync::Arc;

/// A teller that also tells something first, and something at the end.
pub trait Framed: Teller {
    /// What it tells first.
    ghost opening: { Self → ScenarioContents → List ℕ };

    /// What it tells at the end, in this state.
    ghost closing: { Self → ScenarioContents → State → List ℕ };

    /// Writes what is told first. The errors are those of `issue`.
    fn open<M: Machine, W: Sink>(
        &self,
        session: &mut Session<'_, '_, M, W>,
    ) -> Result<(), PlayError>
        requires { CanIssue M.loaded M.state W.contents W.failed session.old }
        ensures { Issues M.loaded M.state W.contents W.failed session.old session.new (M.state session.old.machine)
            (opening self.now session.old.scenario.now) result };

    /// Writes what is told at the end, for a machine that the teller fits. The errors are those of `issue`.
    fn close<M: Machine, W: Sink>(
        &mut self,
        session: &mut Session<'_, '_, M, W>,
    ) -> Result<(), PlayError>
        requires ready { CanIssue M.loaded M.state W.contents W.failed session.old }
        requires fits { Self.fits self.old (M.state session.old.machine) }
        ensures { Issues M.loaded M.state W.contents W.failed session.old session.new (M.state session.old.machine)
            (closing self.old session.old.scenario.now (M.state session.old.machine)) result };
}

/// Issues the instructions of the scenario's one actor on a new machine, and writes what the teller tells as it comes, a block at a time.
/// The scenario has been judged already.
///
/// The only errors are `Write`, exactly where the writer failed, and `NoMemory`. What was written then is a front of what is told.
pub fn load_and_frame<M: Machine, T: Framed, W: Sink>(
    alloc: Global,
    scenario: Scenario,
    teller: T,
    writer: &mut W,
) -> Result<(), PlayError>
    requires valid { IsValid scenario }
    requires can { CanRun scenario }
    requires sound { W.failed writer.old ≡ false }
    requires fits { T.fits teller (start scenario) }
    ensures writes { Writes (IsTextBy (λ S instrs. framed_text T.told T.keeps T.opening T.closing teller S (start S) instrs) scenario) (W.contents writer.old) (W.contents writer.new) (W.failed writer.new) result }
    ensures why { IfErr result (λ error. IsSendError error) }
{
    let scenario = Arc::new(alloc, scenario)?;
    let machine = M::begin(alloc, Arc::clone(&scenario)?)?;
    frame_lines(
        alloc,
        &scenario,
        &scenario.actors[0].lines,
        machine,
        teller,
        writer,
    )
}

/// Issues the lines' instructions on a machine at the scenario's start, and writes what the teller tells.
fn frame_lines<M: Machine, T: Framed, W: Sink>(
    alloc: Global,
    scenario: &Scenario,
    lines: &[Line],
    machine: M,
    teller: T,
    writer: &mut W,
) -> Result<(), PlayError>
    requires loaded { M.loaded machine ≡ scenario.now }
    requires start { M.state machine ≡ start scenario.now }
    requires sound { W.failed writer.old ≡ false }
    requires fits { T.fits teller (start scenario.now) }
    ensures writes { Writes (λ output. output ≡ framed_text T.told T.keeps T.opening T.closing teller scenario.now (start scenario.now) (expand_lines lines.now)) (W.contents writer.old) (W.contents writer.new) (W.failed writer.new) result }
    ensures why { IfErr result (λ error. IsSendError error) }
{
    let mut teller = teller;
    let replies = ReplyLines::new(alloc, scenario)?;
    let mut session = Session {
        scenario,
        machine,
        replies,
        lines: BlockWriter::new(alloc, writer),
    };
    let outcome = send_framed(&mut session, &mut teller, lines);
    let writer = session.into_writer();
    let _ = &*writer;
    outcome
}

/// Issues the lines' instructions, and sends all that the teller tells.
fn send_framed<M: Machine, T: Framed, W: Sink>(
    session: &mut Session<'_, '_, M, W>,
    teller: &mut T,
    lines: &[Line],
) -> Result<(), PlayError>
    requires ready { CanIssue M.loaded M.state W.contents W.failed session.old }
    requires fits { T.fits teller.old (M.state session.old.machine) }
    requires empty { kept session.old.lines ≡ [] }
    ensures same { SharesSink session.old.lines session.new.lines }
    ensures writes { Writes (λ output. output ≡ framed_text T.told T.keeps T.opening T.closing teller.old session.old.scenario.now (M.state session.old.machine) (expand_lines lines.now))
        (W.contents (sink session.old.lines)) (W.contents (sink session.new.lines)) (W.failed (sink session.new.lines)) result }
    ensures why { IfErr result (λ error. IsSendError error) }
{
    session.lines.reserve()?;
    tell_framed(session, teller, lines)?;
    session.lines.finish()
}

/// Writes what the teller tells first, then what it tells of the lines' instructions as they are issued, and what it tells at the end.
fn tell_framed<M: Machine, T: Framed, W: Sink>(
    session: &mut Session<'_, '_, M, W>,
    teller: &mut T,
    lines: &[Line],
) -> Result<(), PlayError>
    requires ready { CanIssue M.loaded M.state W.contents W.failed session.old }
    requires fits { T.fits teller.old (M.state session.old.machine) }
    ensures { Issues M.loaded M.state W.contents W.failed session.old session.new
        (after_all session.old.scenario.now (M.state session.old.machine) (expand_lines lines.now))
        (framed_text T.told T.keeps T.opening T.closing teller.old session.old.scenario.now (M.state session.old.machine) (expand_lines lines.now)) result }
{
    teller.open(session)?;
    tell_and_close(session, teller, lines)
}

fn tell_and_close<M: Machine, T: Framed, W: Sink>(
    session: &mut Session<'_, '_, M, W>,
    teller: &mut T,
    lines: &[Line],
) -> Result<(), PlayError>
    requires ready { CanIssue M.loaded M.state W.contents W.failed session.old }
    requires fits { T.fits teller.old (M.state session.old.machine) }
    ensures { Issues M.loaded M.state W.contents W.failed session.old session.new
        (after_all session.old.scenario.now (M.state session.old.machine) (expand_lines lines.now))
        (told_and_closed T.told T.keeps T.opening T.closing teller.old session.old.scenario.now (M.state session.old.machine) (expand_lines lines.now)) result }
{
    session.issue_all(teller, lines)?;
    teller.close(session)
}
