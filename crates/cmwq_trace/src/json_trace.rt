//! `trace --json`: from a scenario's text to the trace of its run in the trace event format.
ghost use Rattle.cmwq_play.specs.Framing.{IsTextBy, IsTextOfRun};
ghost use Rattle.cmwq_play.specs.Commands.{Answers, Reads, Writes};
ghost use Rattle.cmwq_play.specs.PlayTexts.{IsRunFault};
ghost use Rattle.cmwq_play.specs.Runs.{CanRun};
ghost use Rattle.cmwq_streams.specs.Sending.{IsSendError};
ghost use Rattle.cmwq_trace.specs.Json.{json_text};
ghost use Rattle.cmwq_types.specs.Faults.{IsValid};
ghost use Rattle.cmwq_trace.specs.JsonParts.{steady_after};
ghost use Rattle.std.specs.Prelude.{◌≡◌, IfErr, Some, false, true};

use crate::json_head::JsonHead;
use crate::json_line::EndedLines;
use crate::json_run::JsonRun;
use cmwq_core::Core;
use cmwq_play::{Framed, Session, Teller, judge, load_and_frame, read_text};
use cmwq_streams::{PlayError, Sink, Source};
use cmwq_table::{Machine, Reads};
use cmwq_types::{Instr, Scenario};
use std::alloc::Global;

/// Reads a scenario's text, issues its one actor's instructions on a machine, and writes the trace of the run in the trace event format,
/// as it goes, a block at a time: a line for each phase of an instance of a work, and for each execution of an instance by a worker or a
/// rescuer, and before these the names of their processes and threads. Times there are in microseconds, of which a tick is 1,000.
///
/// Its answers and errors are those of `run`: `Asm` with the text's fault exactly where the text spells no scenario, `Actors` exactly
/// where the scenario hasn't one actor, and `Full` exactly where that one has more than 1,048,576 instructions; then, and on `Read`,
/// nothing was written. On `Write` and `NoMemory` what was written is a front of the trace. At most one byte more is read than the
/// 4,194,304 that a text may have.
pub fn trace_json<R: Source, W: Sink>(
    alloc: Global,
    reader: &mut R,
    writer: &mut W,
) -> Result<(), PlayError>
    requires reader { R.failed reader.old ≡ false }
    requires writer { W.failed writer.old ≡ false }
    ensures reads { Reads (R.remaining reader.old) (R.remaining reader.new) (R.failed reader.new) result }
    ensures answers { Answers (IsTextOfRun json_text) IsRunFault (R.remaining reader.old) result }
    ensures writes { Writes (IsTextOfRun json_text (R.remaining reader.old)) (W.contents writer.old) (W.contents writer.new) (W.failed writer.new) result }
{
    let scenario = read_text(alloc, reader)?;
    judge(&scenario)?;
    write_json::<Core, W>(alloc, scenario, writer)
}

/// Writes the trace of the scenario's run. The scenario has been judged already.
fn write_json<M: Machine, W: Sink>(
    alloc: Global,
    scenario: Scenario,
    writer: &mut W,
) -> Result<(), PlayError>
    requires valid { IsValid scenario }
    requires can { CanRun scenario }
    requires sound { W.failed writer.old ≡ false }
    ensures writes { Writes (IsTextBy json_text scenario) (W.contents writer.old) (W.contents writer.new) (W.failed writer.new) result }
    ensures why { IfErr result (λ error. IsSendError error) }
{
    let teller = JsonTeller {
        alloc,
        run: JsonRun::begin(alloc, &scenario)?,
        steady: None,
    };
    load_and_frame::<M, JsonTeller, W>(alloc, scenario, teller, writer)
}

/// Tells what each instruction of a run ends, as lines of JSON.
#[derive(Drop)]
struct JsonTeller {
    alloc: Global,
    run: JsonRun,
    /// Where the last instruction was a tick, the number of CPUs of the machine: then each phase is what its work's instance does on a machine
    /// of as many CPUs.
    steady: Option<u8>,
}

/// Whether the phases are steady on a machine of the scenario.
fn is_steady(steady: Option<u8>, scenario: &Scenario) -> bool
    ensures { result ≡ true → steady ≡ Some scenario.now.cpus }
{
    matches!(steady, Some(cpus) if cpus == scenario.cpus)
}

/// On how many CPUs the phases are steady, if the machine has come from an earlier time.
fn steady_after<R: Reads>(time: u64, machine: &R) -> Option<u8>
    ensures { result ≡ steady_after (R.loaded machine.now) time (R.state machine.now).time }
{
    if time < machine.time() {
        Some(machine.scenario().cpus)
    } else {
        None
    }
}

impl Teller for JsonTeller {
    ghost use Rattle.cmwq_table.specs.Table.{table};
    ghost use Rattle.cmwq_trace.specs.JsonParts.{fits_json, json_told, keeps_json};

    ghost fits = { λ teller s. fits_json teller s };

    ghost told = { λ teller S s instr. json_told S teller.run s (table S s instr) };

    ghost keeps = { λ teller S s instr. keeps_json teller S s (table S s instr) };

    fn issue<M: Machine, W: Sink>(
        &mut self,
        session: &mut Session<'_, '_, M, W>,
        instr: Instr,
    ) -> Result<(), PlayError> {
        let is_steady = is_steady(self.steady, session.machine.scenario());
        let time = session.machine.time();
        let reply = session.machine.exec(instr);
        let _ = session.machine.scenario();
        let ended = self
            .run
            .follow(self.alloc, time, &session.machine, reply, is_steady)?;
        self.steady = steady_after(time, &session.machine);
        let lines = EndedLines {
            scenario: session.scenario,
            executions: &ended.executions,
            slices: &ended.slices,
        };
        write!(session.lines, "{lines}")
    }
}

impl Framed for JsonTeller {
    ghost use Rattle.cmwq_trace.specs.JsonParts.{json_closing, json_opening};

    ghost opening = { λ teller S. json_opening S };

    ghost closing = { λ teller S s. json_closing S teller.run s.time };

    fn open<M: Machine, W: Sink>(
        &self,
        session: &mut Session<'_, '_, M, W>,
    ) -> Result<(), PlayError> {
        let head = JsonHead {
            scenario: session.scenario,
        };
        write!(session.lines, "{head}")
    }

    fn close<M: Machine, W: Sink>(
        &mut self,
        session: &mut Session<'_, '_, M, W>,
    ) -> Result<(), PlayError> {
        let _ = session.machine.scenario();
        let time = session.machine.time();
        let ended = self.run.end(self.alloc, session.scenario, time)?;
        let lines = EndedLines {
            scenario: session.scenario,
            executions: &ended.executions,
            slices: &ended.slices,
        };
        write!(session.lines, "{lines}\n]}}\n")
    }
}
