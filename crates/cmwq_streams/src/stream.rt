//! Readers and writers that remember whether a call of theirs failed.
ghost use Rattle.cmwq_streams.specs.Stream.{put_failed};
ghost use Rattle.std.specs.Io.{ReadsAtMost, WritesAtMost};
ghost use Rattle.std.specs.Io.KnownBytes.{ReadConsumes, WriteAppends};
ghost use Rattle.std.specs.Prelude.{◌≡◌, ◌||◌, Bool, false, is_err, length};

use std::io;
use std::io::{Read, Write};

/// A reader that remembers whether a call failed.
pub trait Source: Read {
    /// Whether a `pull` failed so far.
    ghost failed: { Self → Bool };

    /// Reads as `read` does. Any error, `Interrupted` too, is a failure of the call.
    fn pull(&mut self, buf: &mut [u8]) -> io::Result<usize>
        ensures bound { ReadsAtMost result buf.new }
        ensures bytes { ReadConsumes (Self.remaining self.old) (Self.remaining self.new) result buf.new }
        ensures failed { failed self.new ≡ (failed self.old || is_err result) };
}

/// A writer that remembers whether a call failed.
pub trait Sink: Write {
    /// Whether a `put` failed so far.
    ghost failed: { Self → Bool };

    /// Writes as `write` does. It failed where it answers an error, or takes none of some bytes.
    fn put(&mut self, buf: &[u8]) -> io::Result<usize>
        ensures bound { WritesAtMost result buf.now }
        ensures bytes { WriteAppends (Self.contents self.old) (Self.contents self.new) result buf.now }
        ensures failed { failed self.new ≡ (failed self.old || put_failed result (length buf.now)) };
}

/// Makes any reader a `Source`, and any writer a `Sink`.
#[derive(Drop)]
pub struct Marked<X> {
    /// The reader or writer itself.
    pub inner: X,
    /// Whether a call failed so far.
    pub failed: bool,
}

impl<X> Marked<X> {
    /// The reader or writer, before any call.
    pub fn new(inner: X) -> Marked<X>
        ensures inner { result.inner ≡ inner }
        ensures failed { result.failed ≡ false }
    {
        Marked {
            inner,
            failed: false,
        }
    }

    /// The reader or writer itself.
    pub fn into_inner(self) -> X
        ensures { result ≡ self.inner }
    {
        let Marked { inner, failed: _ } = self;
        inner
    }
}

impl<X: Read> Read for Marked<X> {
    ghost remaining = { λ m. X.remaining m.inner };

    fn read(&mut self, buf: &mut [u8]) -> io::Result<usize> {
        self.inner.read(buf)
    }
}

impl<X: Read> Source for Marked<X> {
    ghost failed = { λ m. m.failed };

    fn pull(&mut self, buf: &mut [u8]) -> io::Result<usize> {
        let result = self.inner.read(buf);
        if result.is_err() {
            self.failed = true;
        }
        result
    }
}

impl<X: Write> Write for Marked<X> {
    ghost contents = { λ m. X.contents m.inner };

    fn write(&mut self, buf: &[u8]) -> io::Result<usize> {
        self.inner.write(buf)
    }

    fn flush(&mut self) -> io::Result<()> {
        self.inner.flush()
    }
}

impl<X: Write> Sink for Marked<X> {
    ghost failed = { λ m. m.failed };

    fn put(&mut self, buf: &[u8]) -> io::Result<usize> {
        let result = self.inner.write(buf);
        if took_none(&result, buf.len()) {
            self.failed = true;
        }
        result
    }
}

/// Whether the write failed, or took none of some bytes.
fn took_none(outcome: &io::Result<usize>, len: usize) -> bool
    ensures { result ≡ put_failed outcome.now len }
{
    match outcome {
        Ok(taken) => *taken == 0 && len > 0,
        Err(_) => true,
    }
}
