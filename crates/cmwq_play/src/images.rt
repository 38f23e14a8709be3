//! `to_image` and `from_image`: from a scenario's text to its image, and from an image to the listing.
ghost use Rattle.cmwq_image.specs.Image.{image};
ghost use Rattle.cmwq_image.specs.declared.version.TheConstants.{VERSION};
ghost use Rattle.cmwq_play.specs.Commands.{Answers, Reads, Writes};
ghost use Rattle.cmwq_play.specs.Images.{IsImage, IsImageFault, IsShown};
ghost use Rattle.cmwq_streams.specs.Sending.{IsSendError};
ghost use Rattle.cmwq_play.specs.PlayTexts.{IsOutput, IsTextFault};
ghost use Rattle.cmwq_types.specs.Faults.{IsValid};
ghost use Rattle.std.specs.Io.KnownBytes.{Keeps};
ghost use Rattle.std.specs.Prelude.{◌≡◌, ◌≢◌, Err, IfErr, IfOk, Some, false};

use crate::listing_text::write_listing;
use crate::reading::{read_text, read_whole};
use cmwq_image::laws::{far_bytes_change_no_reading, image_is_at_most_923058_bytes};
use cmwq_image::{read, write};
use cmwq_streams::{PlayError, Sink, Source, put_all};
use cmwq_types::Scenario;
use std::alloc::Global;

/// Reads a scenario's text, and writes the scenario's image, of version 4.
///
/// It answers `Asm` with the text's fault exactly where the text spells no scenario. Nothing was
/// written then, and on `Read` and `NoMemory`; on `Write` what was written is a front of the image.
/// At most one byte more is read than the 4,194,304 that a text may have.
pub fn to_image<R: Source, W: Sink>(
    alloc: Global,
    reader: &mut R,
    writer: &mut W,
) -> Result<(), PlayError>
    requires reader { R.failed reader.old ≡ false }
    requires writer { W.failed writer.old ≡ false }
    ensures reads { Reads (R.remaining reader.old) (R.remaining reader.new) (R.failed reader.new) result }
    ensures answers { Answers (IsOutput (image VERSION)) IsTextFault (R.remaining reader.old) result }
    ensures writes { Writes (IsOutput (image VERSION) (R.remaining reader.old)) (W.contents writer.old) (W.contents writer.new) (W.failed writer.new) result }
    ensures no_memory { result ≡ Err PlayError.NoMemory → Keeps (W.contents writer.old) (W.contents writer.new) }
{
    let scenario = read_text(alloc, reader)?;
    write_image(alloc, &scenario, writer)
}

/// Writes the scenario's image.
fn write_image<W: Sink>(alloc: Global, scenario: &Scenario, writer: &mut W) -> Result<(), PlayError>
    requires valid { IsValid scenario.now }
    requires sound { W.failed writer.old ≡ false }
    ensures writes { Writes (λ output. output ≡ image VERSION scenario.now) (W.contents writer.old) (W.contents writer.new) (W.failed writer.new) result }
    ensures why { IfErr result (λ error. IsSendError error) }
    ensures no_memory { result ≡ Err PlayError.NoMemory → Keeps (W.contents writer.old) (W.contents writer.new) }
{
    let image = write(alloc, scenario)?;
    put_all(writer, &image)
}

/// Reads a scenario's image, of version 4 or of an older one, and writes the scenario's listing.
///
/// It answers `Image` with the first fault of the bytes exactly where they are no image. Nothing was
/// written then, and on `Read` and `NoMemory`; on `Write` what was written is a front of the listing.
/// At most 4,194,305 bytes are read: no image is longer than 923,058, so what comes after changes no answer.
pub fn from_image<R: Source, W: Sink>(
    alloc: Global,
    reader: &mut R,
    writer: &mut W,
) -> Result<(), PlayError>
    requires reader { R.failed reader.old ≡ false }
    requires writer { W.failed writer.old ≡ false }
    ensures reads { Reads (R.remaining reader.old) (R.remaining reader.new) (R.failed reader.new) result }
    ensures answers { Answers IsShown IsImageFault (R.remaining reader.old) result }
    ensures writes { Writes (IsShown (R.remaining reader.old)) (W.contents writer.old) (W.contents writer.new) (W.failed writer.new) result }
    ensures no_memory { result ≡ Err PlayError.NoMemory → Keeps (W.contents writer.old) (W.contents writer.new) }
{
    let scenario = read_image(alloc, reader)?;
    write_listing(alloc, &scenario, writer)
}

/// Reads a scenario's image, and gives the scenario.
fn read_image<R: Source>(alloc: Global, reader: &mut R) -> Result<Scenario, PlayError>
    requires { R.failed reader.old ≡ false }
    ensures reads { Reads (R.remaining reader.old) (R.remaining reader.new) (R.failed reader.new) result }
    ensures answers { Answers IsImage IsImageFault (R.remaining reader.old) result }
    ensures found { IfOk result (λ scenario. IsImage (R.remaining reader.old) scenario) }
    ensures no_write { result ≢ Err PlayError.Write }
{
    far_bytes_change_no_reading();
    image_is_at_most_923058_bytes();
    let bytes = read_whole(alloc, reader)?;
    imaged(alloc, &bytes)
}

/// The scenario of which the bytes are the image, or their first fault.
fn imaged(alloc: Global, bytes: &[u8]) -> Result<Scenario, PlayError>
    ensures answers { Answers IsImage IsImageFault (Some bytes.now) result }
    ensures found { IfOk result (λ scenario. IsImage (Some bytes.now) scenario) }
    ensures no_read { result ≢ Err PlayError.Read }
    ensures no_write { result ≢ Err PlayError.Write }
{
    Ok(read(alloc, bytes)?)
}
