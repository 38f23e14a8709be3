//! What is said of a run's states, told wherever it changes.
ghost use Rattle.cmwq_explain.specs.Looking.{looker_told, looker_wholly, run_end};
ghost use Rattle.cmwq_explain.specs.ChangesTold.{TellsChanges, as_unit};
ghost use Rattle.cmwq_play.specs.Commands.{Writes};
ghost use Rattle.cmwq_play.specs.Runs.{CanRun};
ghost use Rattle.cmwq_streams.specs.Sending.{IsSendError};
ghost use Rattle.cmwq_table.specs.State.{start};
ghost use Rattle.cmwq_table.specs.Table.{run};
ghost use Rattle.cmwq_types.specs.Faults.{IsValid};
ghost use Rattle.cmwq_types.specs.Scenario.{expand_lines};
ghost use Rattle.std.specs.Prelude.{◌≡◌, IfErr, IfOk, false};

use crate::looker::{Looker, RunEnd};
use crate::said::LastSaid;
use crate::sayer::Sayer;
use cmwq_lines::ReplyLines;
use cmwq_play::Session;
use cmwq_question::Looks;
use cmwq_streams::{BlockWriter, PlayError, Sink};
use cmwq_table::Machine;
use cmwq_types::{Line, Scenario};
use std::alloc::Global;
use std::sync::Arc;

/// Issues the instructions of the scenario's one actor on a new machine, looks at those of its states that are asked for, and writes
/// a line `at K now N WORDS` for the first at which something is said and for each at which something else is said than at the one
/// before. It answers whether anything was told.
///
/// It answers `PastEnd` where the run ends before the position or the tick that is asked for; nothing is written then. Any other error
/// is `Write`, exactly where the writer failed, or `NoMemory`; what was written then is a front of the lines.
pub(crate) fn tell_changes<M: Machine, P: Sayer, W: Sink>(
    alloc: Global,
    scenario: Scenario,
    looks: Looks,
    sayer: &P,
    writer: &mut W,
) -> Result<bool, PlayError>
    requires valid { IsValid scenario }
    requires can { CanRun scenario }
    requires sound { W.failed writer.old ≡ false }
    ensures { TellsChanges (P.says sayer.now) looks scenario (W.contents writer.old) (W.contents writer.new) (W.failed writer.new) result }
{
    let scenario = Arc::new(alloc, scenario)?;
    let machine = M::begin(alloc, Arc::clone(&scenario)?)?;
    let looker = Looker {
        alloc,
        looks,
        sayer,
        position: 0,
        said: LastSaid(None),
        has_told: false,
    };
    let end = tell_lines(
        looker,
        &scenario,
        &scenario.actors[0].lines,
        machine,
        writer,
    )?;
    if end.is_before(looks) {
        return Err(PlayError::PastEnd);
    }
    Ok(end.has_told)
}

/// Issues the lines' instructions on a machine at the scenario's start, writes what the looker tells of them as it comes, a block at a
/// time, and answers where the run ended.
fn tell_lines<M: Machine, P: Sayer, W: Sink>(
    looker: Looker<'_, P>,
    scenario: &Scenario,
    lines: &[Line],
    machine: M,
    writer: &mut W,
) -> Result<RunEnd, PlayError>
    requires loaded { M.loaded machine ≡ scenario.now }
    requires start { M.state machine ≡ start scenario.now }
    requires sound { W.failed writer.old ≡ false }
    ensures writes { Writes (λ output. output ≡ looker_told P.says looker.entry scenario.now (start scenario.now) (expand_lines lines.now)) (W.contents writer.old) (W.contents writer.new) (W.failed writer.new) (as_unit result) }
    ensures end { IfOk result (λ end. end ≡ run_end (looker_wholly P.says looker.entry scenario.now (start scenario.now) (expand_lines lines.now))
        (run scenario.now (expand_lines lines.now))) }
    ensures why { IfErr result (λ error. IsSendError error) }
{
    let alloc = looker.alloc;
    let mut looker = looker;
    let replies = ReplyLines::new(alloc, scenario)?;
    let mut session = Session {
        scenario,
        machine,
        replies,
        lines: BlockWriter::new(alloc, writer),
    };
    let outcome = looker.tell(&mut session, lines);
    let writer = session.into_writer();
    let _ = &*writer;
    outcome
}
