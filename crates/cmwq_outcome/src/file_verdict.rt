//! The verdict of a file's text, told.

ghost use Rattle.cmwq_outcome.specs.Checking.{HasNoted, HasTold, HasToldOf, IsToldOfUnread, status_of_judged};
ghost use Rattle.cmwq_streams.specs.Sending.{IsSendError};
ghost use Rattle.cmwq_verdict.specs.Verdicts.{ok_line};
ghost use Rattle.std.specs.Io.KnownBytes.{Appends};
ghost use Rattle.std.specs.Prelude.{◌≡◌, IfErr, IfOk, OnOk, false};

use cmwq_play::read_whole;
use cmwq_remarks::notes;
use cmwq_streams::{PlayError, Sink, Source, put_all};
use cmwq_verdict::{Look, ok_line, unread_line, verdict};
use std::alloc::Global;

/// How a file was judged.
#[derive(Clone, Copy, PartialEq, Eq)]
pub enum Judged {
    /// Its text spells a scenario.
    Good,
    /// Its text has a fault.
    Faulty,
    /// It can't be read.
    Unread,
}

impl Judged {
    /// The exit status of a command that judged the file so.
    pub fn status(self) -> u8
        ensures { result ≡ status_of_judged self }
    {
        match self {
            Judged::Good => 0,
            Judged::Faulty => 1,
            Judged::Unread => 3,
        }
    }
}

/// Reads the text of this file and tells its verdict: `FILE: ok` on `output`, with what is noted of the text on `errors`; or on `errors` what
/// is said of its first fault, as it is to look, or `FILE: read` where the reader fails. Each goes out by one call of a writer that takes
/// all of it.
///
/// At most one byte more is read than the 4,194,304 that a text may have. The error is `Write` or `NoMemory`.
pub fn check_text<R: Source, O: Sink, E: Sink>(
    alloc: Global,
    look: Look,
    file: &str,
    reader: &mut R,
    output: &mut O,
    errors: &mut E,
) -> Result<Judged, PlayError>
    requires reader { R.failed reader.old ≡ false }
    requires output { O.failed output.old ≡ false }
    requires errors { E.failed errors.old ≡ false }
    ensures told { IfOk result (λ judged. HasTold look file.now (R.remaining reader.old) (R.remaining reader.new) (R.failed reader.new)
        (O.contents output.old) (O.contents output.new) (E.contents errors.old) (E.contents errors.new) judged) }
    ensures output { OnOk result (O.failed output.new ≡ false) }
    ensures errors { OnOk result (E.failed errors.new ≡ false) }
    ensures why { IfErr result (λ error. IsSendError error) }
{
    let text = match read_whole(alloc, reader) {
        Ok(text) => text,
        Err(PlayError::Read) => return tell_unread(alloc, file, errors),
        Err(_) => return Err(PlayError::NoMemory),
    };
    tell_verdict(alloc, look, file, &text, output, errors)
}

/// Tells the verdict of the file that has this text. The error is `Write` or `NoMemory`.
fn tell_verdict<O: Sink, E: Sink>(
    alloc: Global,
    look: Look,
    file: &str,
    text: &[u8],
    output: &mut O,
    errors: &mut E,
) -> Result<Judged, PlayError>
    requires output { O.failed output.old ≡ false }
    requires errors { E.failed errors.old ≡ false }
    ensures told { IfOk result (λ judged. HasToldOf look file.now text.now
        (O.contents output.old) (O.contents output.new) (E.contents errors.old) (E.contents errors.new) judged) }
    ensures output { OnOk result (O.failed output.new ≡ false) }
    ensures errors { OnOk result (E.failed errors.new ≡ false) }
    ensures why { IfErr result (λ error. IsSendError error) }
{
    match verdict(alloc, look, file, text)? {
        None => tell_good(alloc, file, text, output, errors),
        Some(told) => {
            put_all(errors, &told)?;
            Ok(Judged::Faulty)
        }
    }
}

/// Tells that the file's text, which is this, spells a scenario, and what is noted of it. The error is `Write` or `NoMemory`.
fn tell_good<O: Sink, E: Sink>(
    alloc: Global,
    file: &str,
    text: &[u8],
    output: &mut O,
    errors: &mut E,
) -> Result<Judged, PlayError>
    requires output { O.failed output.old ≡ false }
    requires errors { E.failed errors.old ≡ false }
    ensures judged { IfOk result (λ judged. judged ≡ Judged.Good) }
    ensures told { OnOk result (Appends (O.contents output.old) (O.contents output.new) (ok_line file.now)) }
    ensures noted { OnOk result (HasNoted file.now text.now (E.contents errors.old) (E.contents errors.new)) }
    ensures output { OnOk result (O.failed output.new ≡ false) }
    ensures errors { OnOk result (E.failed errors.new ≡ false) }
    ensures why { IfErr result (λ error. IsSendError error) }
{
    let line = ok_line(alloc, file)?;
    let noted = notes(alloc, file, text)?;
    put_all(output, &line)?;
    put_all(errors, &noted)?;
    Ok(Judged::Good)
}

/// Tells on the writer for faults that the file can't be read, as `FILE: read`. The error is `Write` or `NoMemory`.
pub fn tell_unread<E: Sink>(alloc: Global, file: &str, errors: &mut E) -> Result<Judged, PlayError>
    requires { E.failed errors.old ≡ false }
    ensures told { IfOk result (λ judged. IsToldOfUnread file.now (E.contents errors.old) (E.contents errors.new) judged) }
    ensures errors { OnOk result (E.failed errors.new ≡ false) }
    ensures why { IfErr result (λ error. IsSendError error) }
{
    put_all(errors, &unread_line(alloc, file)?)?;
    Ok(Judged::Unread)
}
