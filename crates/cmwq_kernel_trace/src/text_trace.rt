//! `trace --text`: from a scenario's text to the text of its run.
ghost use Rattle.cmwq_events.specs.Followed.{none_followed};
ghost use Rattle.cmwq_play.specs.Framing.{IsTextBy, IsTextOfRun};
ghost use Rattle.cmwq_kernel_trace.specs.KernelText.{ftrace_text};
ghost use Rattle.cmwq_play.specs.Commands.{Answers, Reads, Writes};
ghost use Rattle.cmwq_play.specs.PlayTexts.{IsRunFault};
ghost use Rattle.cmwq_play.specs.Runs.{CanRun};
ghost use Rattle.cmwq_streams.specs.Sending.{IsSendError};
ghost use Rattle.cmwq_types.specs.Faults.{IsValid};
ghost use Rattle.std.specs.Prelude.{◌≡◌, IfErr, IfOk, false, length};

use crate::events_text::write_text;
use cmwq_core::Core;
use cmwq_events::{KernelEvents, cpus_traced};
use cmwq_play::{Framed, Session, Teller, judge, load_and_frame, read_text};
use cmwq_streams::{PlayError, Sink, Source};
use cmwq_table::{Machine, Reads};
use cmwq_types::{Instr, NoMemory, Scenario};
use std::alloc::Global;

/// Reads a scenario's text, issues its one actor's instructions on a machine, and writes the events of its workqueues as a kernel's file
/// `/sys/kernel/tracing/trace` shows them: twelve lines that begin with `#`, and then a line for each time that a work is queued or
/// activated, and that a worker begins or ends its execution. Times there are in seconds, of which a tick is a thousandth. The events
/// are kept until the run is over, since the first lines tell their number.
///
/// Its answers and errors are those of `run`: `Asm` with the text's fault exactly where the text spells no scenario, `Actors` exactly
/// where the scenario hasn't one actor, and `Full` exactly where that one has more than 1,048,576 instructions; then, and on `Read`,
/// nothing was written. On `Write` and `NoMemory` what was written is a front of the text. At most one byte more is read than the
/// 4,194,304 that a text may have.
pub fn trace_text<R: Source, W: Sink>(
    alloc: Global,
    reader: &mut R,
    writer: &mut W,
) -> Result<(), PlayError>
    requires reader { R.failed reader.old ≡ false }
    requires writer { W.failed writer.old ≡ false }
    ensures reads { Reads (R.remaining reader.old) (R.remaining reader.new) (R.failed reader.new) result }
    ensures answers { Answers (IsTextOfRun ftrace_text) IsRunFault (R.remaining reader.old) result }
    ensures writes { Writes (IsTextOfRun ftrace_text (R.remaining reader.old)) (W.contents writer.old) (W.contents writer.new) (W.failed writer.new) result }
{
    let scenario = read_text(alloc, reader)?;
    judge(&scenario)?;
    write_events::<Core, W>(alloc, scenario, writer)
}

/// Writes the text of the scenario's run. The scenario has been judged already.
fn write_events<M: Machine, W: Sink>(
    alloc: Global,
    scenario: Scenario,
    writer: &mut W,
) -> Result<(), PlayError>
    requires valid { IsValid scenario }
    requires can { CanRun scenario }
    requires sound { W.failed writer.old ≡ false }
    ensures writes { Writes (IsTextBy ftrace_text scenario) (W.contents writer.old) (W.contents writer.new) (W.failed writer.new) result }
    ensures why { IfErr result (λ error. IsSendError error) }
{
    let teller = TextTeller::begin(alloc, &scenario)?;
    load_and_frame::<M, TextTeller, W>(alloc, scenario, teller, writer)
}

/// Keeps the events of a run, and tells all at its end.
#[derive(Drop)]
struct TextTeller {
    alloc: Global,
    events: KernelEvents,
}

impl TextTeller {
    /// At the start of a run of the scenario.
    fn begin(alloc: Global, scenario: &Scenario) -> Result<TextTeller, NoMemory>
        ensures { IfOk result (λ teller. teller.events ≡ none_followed (length scenario.now.works)) }
    {
        Ok(TextTeller {
            alloc,
            events: KernelEvents::none(alloc, scenario.works.len())?,
        })
    }
}

impl Teller for TextTeller {
    ghost use Rattle.cmwq_kernel_trace.specs.TextParts.{fits_text, keeps_text};
    ghost use Rattle.cmwq_table.specs.Table.{table};
    ghost use Rattle.std.specs.Prelude.{[]};

    ghost fits = { λ teller s. fits_text teller s };

    ghost told = { λ _ _ _ _. [] };

    ghost keeps = { λ teller S s instr. keeps_text teller S s instr (table S s instr) };

    fn issue<M: Machine, W: Sink>(
        &mut self,
        session: &mut Session<'_, '_, M, W>,
        instr: Instr,
    ) -> Result<(), PlayError> {
        let _ = session.machine.scenario();
        let reply = session.machine.exec(instr);
        let _ = session.machine.scenario();
        self.events
            .follow(self.alloc, instr, &session.machine, reply)?;
        Ok(())
    }
}

impl Framed for TextTeller {
    ghost use Rattle.cmwq_kernel_trace.specs.KernelText.{events_text};
    ghost use Rattle.std.specs.Prelude.{[]};

    ghost opening = { λ _ _. [] };

    ghost closing = { λ teller S _. events_text S teller.events.events };

    fn open<M: Machine, W: Sink>(
        &self,
        session: &mut Session<'_, '_, M, W>,
    ) -> Result<(), PlayError> {
        let _ = &*session;
        Ok(())
    }

    fn close<M: Machine, W: Sink>(
        &mut self,
        session: &mut Session<'_, '_, M, W>,
    ) -> Result<(), PlayError> {
        let events = self.events.events();
        let cpus = cpus_traced(session.machine.scenario(), events);
        write_text(session.scenario, events, cpus, &mut session.lines)
    }
}
