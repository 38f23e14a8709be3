//! Giving a writer all the bytes.
ghost use Rattle.cmwq_streams.specs.Sending.{HasSentFront};
ghost use Rattle.std.specs.Io.KnownBytes.{Appends};
ghost use Rattle.std.specs.Prelude.{◌≡◌, ◌<◌, ◌≤◌, ◌↔◌, [], Err, IfErr, IfOk, OnErr, OnOk, false, length, take, true};

use crate::error::PlayError;
use crate::stream::Sink;

/// Gives the writer all the bytes.
pub fn put_all<W: Sink>(writer: &mut W, bytes: &[u8]) -> Result<(), PlayError>
    requires { W.failed writer.old ≡ false }
    ensures ok { OnOk result (Appends (W.contents writer.old) (W.contents writer.new) bytes.now) }
    ensures err { OnErr result (HasSentFront (W.contents writer.old) (W.contents writer.new) bytes.now) }
    ensures write { IfErr result (λ error. error ≡ PlayError.Write) }
    ensures failed { (result ≡ Err PlayError.Write) ↔ (W.failed writer.new ≡ true) }
{
    let mut rest = bytes;
    while !rest.is_empty() {
        let taken = put_some(writer, rest)?;
        rest = rest.split_at(taken).1;
    }
    Ok(())
}

/// Gives the writer some of the bytes, at least one.
#[tactic(auto, using(crate::proofs::SendingLemmas::keeps_nothing))]
fn put_some<W: Sink>(writer: &mut W, bytes: &[u8]) -> Result<usize, PlayError>
    requires some { 0 < length bytes.now }
    requires sound { W.failed writer.old ≡ false }
    ensures taken { IfOk result (λ taken. (0 < taken) × (taken ≤ length bytes.now)) }
    ensures ok { IfOk result (λ taken. Appends (W.contents writer.old) (W.contents writer.new) (take taken bytes.now)) }
    ensures sound { OnOk result (W.failed writer.new ≡ false) }
    ensures err { OnErr result (Appends (W.contents writer.old) (W.contents writer.new) []) }
    ensures write { IfErr result (λ error. error ≡ PlayError.Write) }
    ensures failed { OnErr result (W.failed writer.new ≡ true) }
{
    match writer.put(bytes) {
        Ok(0) | Err(_) => Err(PlayError::Write),
        Ok(taken) => Ok(taken),
    }
}
