//! `trace --dat`: from a scenario's text to the file `trace.dat` of its run.
ghost use Rattle.cmwq_kernel_trace.specs.DataTrace.{dat_of_run};
ghost use Rattle.cmwq_play.specs.Framing.{IsTextBy, IsTextOfRun};
ghost use Rattle.cmwq_play.specs.Commands.{Answers, Reads, Writes};
ghost use Rattle.cmwq_play.specs.PlayTexts.{IsRunFault};
ghost use Rattle.cmwq_play.specs.Runs.{CanRun};
ghost use Rattle.cmwq_streams.specs.Sending.{HasSentFront, IsSendError};
ghost use Rattle.cmwq_types.specs.Faults.{IsValid};
ghost use Rattle.std.specs.Io.KnownBytes.{Appends, Keeps};
ghost use Rattle.std.specs.Prelude.{◌≡◌, ◌++◌, ◌↔◌, Err, IfErr, IfOk, OnErr, OnOk, false, true};

use crate::recording::record;
use cmwq_core::Core;
use cmwq_play::{judge, read_text};
use cmwq_streams::{PlayError, Sink, Source, put_all};
use cmwq_table::Machine;
use cmwq_trace_data::{TraceData, trace_data};
use cmwq_types::{NoMemory, Scenario};
use std::alloc::Global;
use std::sync::Arc;

/// Reads a scenario's text, issues its one actor's instructions on a machine, and writes the events of its workqueues as trace-cmd records
/// those of a kernel: the file `trace.dat`, version 6. A tick is a millisecond. The file is made whole before it is written.
///
/// Its answers and errors are those of `run`: `Asm` with the text's fault exactly where the text spells no scenario, `Actors` exactly
/// where the scenario hasn't one actor, and `Full` exactly where that one has more than 1,048,576 instructions; then, and on `Read`
/// and `NoMemory`, nothing was written. On `Write` what was written is a front of the file. At most one byte more is read than the
/// 4,194,304 that a text may have.
pub fn trace_dat<R: Source, W: Sink>(
    alloc: Global,
    reader: &mut R,
    writer: &mut W,
) -> Result<(), PlayError>
    requires reader { R.failed reader.old ≡ false }
    requires writer { W.failed writer.old ≡ false }
    ensures reads { Reads (R.remaining reader.old) (R.remaining reader.new) (R.failed reader.new) result }
    ensures answers { Answers (IsTextOfRun dat_of_run) IsRunFault (R.remaining reader.old) result }
    ensures writes { Writes (IsTextOfRun dat_of_run (R.remaining reader.old)) (W.contents writer.old) (W.contents writer.new) (W.failed writer.new) result }
    ensures no_memory { result ≡ Err PlayError.NoMemory → Keeps (W.contents writer.old) (W.contents writer.new) }
{
    let scenario = read_text(alloc, reader)?;
    judge(&scenario)?;
    write_dat::<Core, W>(alloc, scenario, writer)
}

/// Writes the file of the scenario's run. The scenario has been judged already.
fn write_dat<M: Machine, W: Sink>(
    alloc: Global,
    scenario: Scenario,
    writer: &mut W,
) -> Result<(), PlayError>
    requires valid { IsValid scenario }
    requires can { CanRun scenario }
    requires sound { W.failed writer.old ≡ false }
    ensures writes { Writes (IsTextBy dat_of_run scenario) (W.contents writer.old) (W.contents writer.new) (W.failed writer.new) result }
    ensures why { IfErr result (λ error. IsSendError error) }
    ensures no_memory { result ≡ Err PlayError.NoMemory → Keeps (W.contents writer.old) (W.contents writer.new) }
{
    let file = file_of_run::<M>(alloc, scenario)?;
    put_both(writer, &file.head, &file.pages)
}

/// The file of the scenario's run.
#[tactic(auto, using(crate::proofs::RecordingLemmas::is_setting))]
fn file_of_run<M: Machine>(alloc: Global, scenario: Scenario) -> Result<TraceData, NoMemory>
    requires valid { IsValid scenario }
    requires can { CanRun scenario }
    ensures { IfOk result (λ file. IsTextBy dat_of_run scenario (file.head.items ++ file.pages.items)) }
{
    let scenario = Arc::new(alloc, scenario)?;
    let machine = M::begin(alloc, Arc::clone(&scenario)?)?;
    let events = record(alloc, machine, &scenario.actors[0].lines)?;
    trace_data(alloc, &scenario, events.events())
}

/// Gives the writer the one part, and then the other.
fn put_both<W: Sink>(writer: &mut W, first: &[u8], second: &[u8]) -> Result<(), PlayError>
    requires { W.failed writer.old ≡ false }
    ensures ok { OnOk result (Appends (W.contents writer.old) (W.contents writer.new) (first.now ++ second.now)) }
    ensures err { OnErr result (HasSentFront (W.contents writer.old) (W.contents writer.new) (first.now ++ second.now)) }
    ensures write { IfErr result (λ error. error ≡ PlayError.Write) }
    ensures failed { (result ≡ Err PlayError.Write) ↔ (W.failed writer.new ≡ true) }
{
    put_all(writer, first)?;
    put_all(writer, second)
}
