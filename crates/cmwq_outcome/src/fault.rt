//! How the program ends: its exit status, and the line that tells a fault on standard error.

ghost use Rattle.cmwq_outcome.specs.Fault.{line_of, status_of, fault_written};
ghost use Rattle.cmwq_streams.specs.Sending.{HasSentFront};
ghost use Rattle.std.specs.Io.KnownBytes.{Appends};
ghost use Rattle.std.specs.List.{flat_map};
ghost use Rattle.std.specs.Prelude.{◌≡◌, ◌≤◌, ◌↔◌, Err, IfErr, IfOk, OnErr, OnOk, false, length, true};
ghost use Rattle.std.specs.Process.{exit_status};

use arrayvec::ArrayString;
use cmwq_asm::AsmError;
use cmwq_image::ImageError;
use cmwq_streams::{PlayError, Sink, put_all};
use cmwq_verdict::{fault_name, why_name};
use itoa::Buffer;
use std::process::ExitCode;

/// The exit status of a fault. A file that can't be opened is a failed read, and one that can't be
/// made a failed write.
pub fn status(fault: PlayError) -> u8
    ensures { result ≡ status_of fault }
{
    match fault {
        PlayError::NoMemory
        | PlayError::Asm(AsmError::NoMemory)
        | PlayError::Image(ImageError::NoMemory)
        | PlayError::Full
        | PlayError::Tickets => 4,
        PlayError::Read | PlayError::Write => 3,
        PlayError::TooWide => 2,
        PlayError::Asm(_)
        | PlayError::Image(_)
        | PlayError::Actors
        | PlayError::TooLong
        | PlayError::NeverQuiet
        | PlayError::NoSuchWork
        | PlayError::NoSuchFlush
        | PlayError::PastEnd => 1,
    }
}

/// Tells the fault that the program ends with, if there is one, and gives the exit status.
/// A fault has its status also where it can't be told.
pub fn end_with<W: Sink>(errors: &mut W, outcome: Result<u8, PlayError>) -> ExitCode
    requires sound { OnErr outcome (W.failed errors.old ≡ false) }
    ensures good { IfOk outcome (λ status. exit_status result ≡ status) }
    ensures silent { OnOk outcome (errors.new ≡ errors.old) }
    ensures status { IfErr outcome (λ fault. exit_status result ≡ status_of fault) }
    ensures told { IfErr outcome (λ fault. W.failed errors.new ≡ false
        → Appends (W.contents errors.old) (W.contents errors.new) (line_of fault)) }
    ensures front { IfErr outcome (λ fault. HasSentFront (W.contents errors.old) (W.contents errors.new) (line_of fault)) }
{
    match outcome {
        Ok(status) => ExitCode::from(status),
        Err(fault) => {
            // There is nobody left to tell where standard error fails too.
            let _ = fault_line(errors, fault);
            ExitCode::from(status(fault))
        }
    }
}

/// Writes the line that tells a fault, by one call of a writer that takes all of it. It fails only
/// where the writer does.
pub fn fault_line<W: Sink>(writer: &mut W, fault: PlayError) -> Result<(), PlayError>
    requires sound { W.failed writer.old ≡ false }
    ensures ok { OnOk result (Appends (W.contents writer.old) (W.contents writer.new) (line_of fault)) }
    ensures err { OnErr result (HasSentFront (W.contents writer.old) (W.contents writer.new) (line_of fault)) }
    ensures write { IfErr result (λ error. error ≡ PlayError.Write) }
    ensures failed { (result ≡ Err PlayError.Write) ↔ (W.failed writer.new ≡ true) }
{
    put_all(writer, line_of(fault).as_bytes())
}

/// A line, with room for the longest one.
type FaultLine = ArrayString<64>;

/// The line that tells a fault.
fn line_of(fault: PlayError) -> FaultLine
    ensures { result.bytes ≡ line_of fault }
{
    match fault {
        PlayError::Asm(AsmError::At { line, why }) => {
            joined_line(&["line ", Buffer::new().format(line), ": ", why_name(why)])
        }
        PlayError::Image(ImageError::Magic) => joined_line(&["image: Magic"]),
        PlayError::Image(ImageError::Version) => joined_line(&["image: Version"]),
        PlayError::Image(ImageError::Truncated) => joined_line(&["image: Truncated"]),
        PlayError::Image(ImageError::Extra) => joined_line(&["image: Extra"]),
        PlayError::Image(ImageError::BadField(offset)) => {
            joined_line(&["image: BadField ", Buffer::new().format(offset)])
        }
        PlayError::Image(ImageError::Fault(fault)) => joined_line(&["image: ", fault_name(fault)]),
        PlayError::Actors => joined_line(&["actors"]),
        PlayError::Full => joined_line(&["full"]),
        PlayError::Tickets => joined_line(&["tickets"]),
        PlayError::TooLong => joined_line(&["too long"]),
        PlayError::NeverQuiet => joined_line(&["never quiet"]),
        PlayError::TooWide => joined_line(&["more than 500 columns: give --from and --to"]),
        PlayError::NoSuchWork => joined_line(&["no such work"]),
        PlayError::NoSuchFlush => joined_line(&["no such flush"]),
        PlayError::PastEnd => joined_line(&["past the end"]),
        PlayError::Read => joined_line(&["read"]),
        PlayError::Write => joined_line(&["write"]),
        PlayError::NoMemory
        | PlayError::Asm(AsmError::NoMemory)
        | PlayError::Image(ImageError::NoMemory) => joined_line(&["no memory"]),
    }
}

/// The line of these texts.
fn joined_line(texts: &[&str]) -> FaultLine
    requires { length (flat_map (λ text. text.now) texts.now) ≤ 63 }
    ensures { result.bytes ≡ fault_written (flat_map (λ text. text.now) texts.now) }
{
    let mut line = FaultLine::new();
    for text in texts {
        line.push_str(text);
    }
    line.push_str("\n");
    line
}
