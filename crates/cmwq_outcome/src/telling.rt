//! How help, the version and usage faults are told.

ghost use Rattle.cmwq_outcome.specs.FaultsTold.{is_asked_for, printable, printable_byte, status_of_kind};
ghost use Rattle.std.specs.Io.KnownBytes.{Appends};
ghost use Rattle.std.specs.Prelude.{◌≡◌, ◌↔◌, Err, IfOk, IfSome, OnErr, OnOk, ◌⊎◌, false, true};

use clap::error::ErrorKind;
use cmwq_streams::{PlayError, Sink, put_all};
use std::alloc::{AllocError, Global};
use std::fmt::Display;

/// The exit status of a command that did what it was asked, help included.
pub const GOOD: u8 = 0;

/// The exit status of words that aren't a command line of the program.
pub const USAGE: u8 = 2;

/// Writes the text of help or of the version to `output`, or that of a usage fault to `errors`, by one call of a writer that
/// takes all of it, and gives the exit status. A usage fault has its status also where its text can't be written. It repeats words of the
/// command line, so `?` is written for each of its bytes that isn't printable.
///
/// The error is `Write` where what was asked for can't be written, and else `NoMemory`.
pub fn tell<O: Sink, E: Sink, T: Display + Drop>(
    alloc: Global,
    output: &mut O,
    errors: &mut E,
    kind: ErrorKind,
    text: T,
) -> Result<u8, PlayError>
    requires sound { (O.failed output.old ≡ false) × (E.failed errors.old ≡ false) }
    ensures status { IfOk result (λ status. status ≡ status_of_kind kind) }
    ensures memory { kind ≡ ErrorKind.OutOfMemory → result ≡ Err PlayError.NoMemory }
    ensures help { OnOk result (is_asked_for kind ≡ true → IfSome (T.output text) (λ bytes.
        Appends (O.contents output.old) (O.contents output.new) bytes)) }
    ensures usage { OnOk result (is_asked_for kind ≡ false → E.failed errors.new ≡ false → IfSome (T.output text) (λ bytes.
        Appends (E.contents errors.old) (E.contents errors.new) (printable bytes))) }
    ensures output { is_asked_for kind ≡ false → output.new ≡ output.old }
    ensures errors { is_asked_for kind ≡ true → errors.new ≡ errors.old }
    ensures write { (result ≡ Err PlayError.Write) ↔ (O.failed output.new ≡ true) }
    ensures why { OnErr result ((result ≡ Err PlayError.Write) ⊎ (result ≡ Err PlayError.NoMemory)) }
{
    if kind == ErrorKind::OutOfMemory {
        return Err(PlayError::NoMemory);
    }
    let text = format!(in alloc; "{text}")?;
    if is_asked_for(kind) {
        put_all(output, text.as_bytes())?;
        return Ok(GOOD);
    }
    let told = printable(alloc, text.as_bytes())?;
    // The status is the same where nobody can be told.
    let _ = put_all(errors, &told);
    Ok(USAGE)
}

/// Returns the text, with `?` for each byte that isn't printable. It fails only for want of memory.
fn printable(alloc: Global, text: &[u8]) -> Result<Vec<u8>, AllocError>
    ensures { IfOk result (λ told. told.items ≡ printable text.now) }
{
    let mut told = Vec::new(alloc);
    for byte in text {
        told.push(printable_byte(*byte))?;
    }
    Ok(told)
}

/// Returns the byte, or `?` if it is neither a visible character of ASCII nor a blank nor a line feed.
fn printable_byte(byte: u8) -> u8
    ensures { result ≡ printable_byte byte }
{
    match byte {
        b'\n' | 32..=126 => byte,
        _ => b'?',
    }
}

/// Whether help or the version was asked for.
fn is_asked_for(kind: ErrorKind) -> bool
    ensures { result ≡ is_asked_for kind }
{
    matches!(kind, ErrorKind::DisplayHelp | ErrorKind::DisplayVersion)
}
