//! `list_text`: from a scenario's text to its listing.
ghost use Rattle.cmwq_play.specs.Commands.{Answers, Reads, Writes};
ghost use Rattle.cmwq_streams.specs.Sending.{IsSendError};
ghost use Rattle.cmwq_play.specs.PlayTexts.{IsOutput, IsTextFault};
ghost use Rattle.cmwq_types.specs.Listing.{listing};
ghost use Rattle.std.specs.Io.KnownBytes.{Keeps};
ghost use Rattle.std.specs.Prelude.{◌≡◌, Err, IfErr, false};

use crate::reading::read_text;
use cmwq_asm::list;
use cmwq_streams::{PlayError, Sink, Source, put_all};
use cmwq_types::Scenario;
use std::alloc::Global;

/// Reads a scenario's text, and writes its listing.
///
/// It answers `Asm` with the text's fault exactly where the text spells no scenario. Nothing was
/// written then, and on `Read` and `NoMemory`; on `Write` what was written is a front of the listing.
/// At most one byte more is read than the 4,194,304 that a text may have.
pub fn list_text<R: Source, W: Sink>(
    alloc: Global,
    reader: &mut R,
    writer: &mut W,
) -> Result<(), PlayError>
    requires reader { R.failed reader.old ≡ false }
    requires writer { W.failed writer.old ≡ false }
    ensures reads { Reads (R.remaining reader.old) (R.remaining reader.new) (R.failed reader.new) result }
    ensures answers { Answers (IsOutput listing) IsTextFault (R.remaining reader.old) result }
    ensures writes { Writes (IsOutput listing (R.remaining reader.old)) (W.contents writer.old) (W.contents writer.new) (W.failed writer.new) result }
    ensures no_memory { result ≡ Err PlayError.NoMemory → Keeps (W.contents writer.old) (W.contents writer.new) }
{
    let scenario = read_text(alloc, reader)?;
    write_listing(alloc, &scenario, writer)
}

/// Writes the scenario's listing.
///
/// The only errors are `NoMemory`, and then nothing was written, and `Write`, exactly where the writer failed: what was written then is
/// a front of the listing.
pub fn write_listing<W: Sink>(
    alloc: Global,
    scenario: &Scenario,
    writer: &mut W,
) -> Result<(), PlayError>
    requires { W.failed writer.old ≡ false }
    ensures writes { Writes (λ output. output ≡ listing scenario.now) (W.contents writer.old) (W.contents writer.new) (W.failed writer.new) result }
    ensures why { IfErr result (λ error. IsSendError error) }
    ensures no_memory { result ≡ Err PlayError.NoMemory → Keeps (W.contents writer.old) (W.contents writer.new) }
{
    let text = list(alloc, scenario)?;
    put_all(writer, &text)
}
