//! What is written without a file: the scenario that a newcomer starts from, and the program's version.

ghost use Rattle.cmwq_outcome.specs.Starting.{HasWrittenFirst};
ghost use Rattle.cmwq_streams.specs.Sending.{IsSendError};
ghost use Rattle.cmwq_command_line.specs.CommandLine.{version_line};
ghost use Rattle.std.specs.Io.KnownBytes.{Appends};
ghost use Rattle.std.specs.Prelude.{◌≡◌, ◌↔◌, Err, IfErr, OnOk, false, true};

use crate::first_text;
use cmwq_command_line::help::VERSION;
use cmwq_streams::{PlayError, Sink, put_all};
use std::alloc::Global;

/// Writes the text of a scenario to start from. It fails only where the writer does.
pub fn write_first<W: Sink>(writer: &mut W) -> Result<(), PlayError>
    requires sound { W.failed writer.old ≡ false }
    ensures text { OnOk result (HasWrittenFirst (W.contents writer.old) (W.contents writer.new)) }
    ensures write { IfErr result (λ error. error ≡ PlayError.Write) }
    ensures failed { (result ≡ Err PlayError.Write) ↔ (W.failed writer.new ≡ true) }
{
    put_all(writer, first_text().as_bytes())
}

/// Writes the line of the program's version, and of the logic that its proofs rest on, by one call of a writer that takes all of it. The
/// error is `Write` exactly where the writer fails, and else `NoMemory`.
pub fn write_version<W: Sink>(alloc: Global, logic: &str, writer: &mut W) -> Result<(), PlayError>
    requires sound { W.failed writer.old ≡ false }
    ensures line { OnOk result (Appends (W.contents writer.old) (W.contents writer.new) (version_line logic.now)) }
    ensures why { IfErr result (λ error. IsSendError error) }
    ensures failed { (result ≡ Err PlayError.Write) ↔ (W.failed writer.new ≡ true) }
{
    let mut line = String::from_str(alloc, "cmwq ")?;
    line.push_str(VERSION)?;
    line.push_str(" (logic ")?;
    line.push_str(logic)?;
    line.push_str(")\n")?;
    put_all(writer, line.as_bytes())
}
