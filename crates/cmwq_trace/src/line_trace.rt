//! `trace --lines`: from a scenario's text to the objects of its run.
ghost use Rattle.cmwq_play.specs.Framing.{IsTextBy, IsTextOfRun};
ghost use Rattle.cmwq_trace.specs.Lines.{objects_text};
ghost use Rattle.cmwq_play.specs.Commands.{Answers, Reads, Writes};
ghost use Rattle.cmwq_play.specs.PlayTexts.{IsRunFault};
ghost use Rattle.cmwq_play.specs.Runs.{CanRun};
ghost use Rattle.cmwq_streams.specs.Sending.{IsSendError};
ghost use Rattle.cmwq_types.specs.Faults.{IsValid};
ghost use Rattle.std.specs.Prelude.{◌≡◌, IfErr, false};

use crate::fields::ObjectLine;
use crate::seat::reply_seat;
use cmwq_core::Core;
use cmwq_play::{Session, Teller, judge, load_and_tell, read_text};
use cmwq_slices::Executions;
use cmwq_streams::{PlayError, Sink, Source};
use cmwq_table::Machine;
use cmwq_types::{Instr, Scenario};
use std::alloc::Global;

/// Reads a scenario's text, issues its one actor's instructions on a machine, and writes a JSON object on a line of its own for each line
/// that the run prints, as it goes, a block at a time. An object has the keys `time`, in ticks, and `event`, the word of the run's line;
/// an event's also `work` and `queue`, the names, and of the instance that it tells of `pool`, `cpu` if the pool is on one, `worker` or
/// `rescuer` if it runs, and `born`, the stamp of its queueing; and what else the run's line tells: `ticks`, `other`, `already`,
/// `disabled`, `flush`, `reason`, `pending` and `running`. Of an event that finishes an instance and starts another the other one is told.
///
/// Its answers and errors are those of `run`: `Asm` with the text's fault exactly where the text spells no scenario, `Actors` exactly
/// where the scenario hasn't one actor, and `Full` exactly where that one has more than 1,048,576 instructions; then, and on `Read`,
/// nothing was written. On `Write` and `NoMemory` what was written is a front of the lines. At most one byte more is read than the
/// 4,194,304 that a text may have.
pub fn trace_lines<R: Source, W: Sink>(
    alloc: Global,
    reader: &mut R,
    writer: &mut W,
) -> Result<(), PlayError>
    requires reader { R.failed reader.old ≡ false }
    requires writer { W.failed writer.old ≡ false }
    ensures reads { Reads (R.remaining reader.old) (R.remaining reader.new) (R.failed reader.new) result }
    ensures answers { Answers (IsTextOfRun objects_text) IsRunFault (R.remaining reader.old) result }
    ensures writes { Writes (IsTextOfRun objects_text (R.remaining reader.old)) (W.contents writer.old) (W.contents writer.new) (W.failed writer.new) result }
{
    let scenario = read_text(alloc, reader)?;
    judge(&scenario)?;
    write_objects::<Core, W>(alloc, scenario, writer)
}

/// Writes the objects of the scenario's run. The scenario has been judged already.
fn write_objects<M: Machine, W: Sink>(
    alloc: Global,
    scenario: Scenario,
    writer: &mut W,
) -> Result<(), PlayError>
    requires valid { IsValid scenario }
    requires can { CanRun scenario }
    requires sound { W.failed writer.old ≡ false }
    ensures writes { Writes (IsTextBy objects_text scenario) (W.contents writer.old) (W.contents writer.new) (W.failed writer.new) result }
    ensures why { IfErr result (λ error. IsSendError error) }
{
    let teller = ObjectTeller {
        executions: Executions::none(alloc, scenario.works.len())?,
    };
    load_and_tell::<M, ObjectTeller, W>(alloc, scenario, teller, writer)
}

/// Tells the object of each reply that has a line.
#[derive(Drop)]
struct ObjectTeller {
    executions: Executions,
}

impl Teller for ObjectTeller {
    ghost use Rattle.cmwq_trace.specs.Lines.{told_object};
    ghost use Rattle.cmwq_slices.specs.Executions.{executions_after};
    ghost use Rattle.cmwq_table.specs.Table.{table};
    ghost use Rattle.std.specs.Prelude.{⊤};

    ghost fits = { λ _ _. ⊤ };

    ghost told = { λ teller S s instr. told_object S teller.executions instr (table S s instr) };

    ghost keeps = { λ teller S s instr. record teller { executions = executions_after (table S s instr).0 (table S s instr).1 teller.executions } };

    fn issue<M: Machine, W: Sink>(
        &mut self,
        session: &mut Session<'_, '_, M, W>,
        instr: Instr,
    ) -> Result<(), PlayError> {
        let reply = session.machine.exec(instr);
        let ended = self.executions.follow(&session.machine, reply);
        let line = ObjectLine {
            scenario: session.scenario,
            time: session.machine.time(),
            instr,
            reply,
            seat: reply_seat(&session.machine, reply, ended),
        };
        write!(session.lines, "{line}")
    }
}
