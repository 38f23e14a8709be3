//! A writer that fails where it is told to.

use std::alloc::Global;
use std::io;
use std::io::Write;

/// How a writer fails at one of its calls.
#[derive(Clone, Copy)]
pub(crate) enum Failure {
    /// It answers an error.
    Error,
    /// It takes none of the bytes.
    TakesNone,
}

/// How many bytes a call takes at most.
const STEP: usize = 64;

/// A writer that fails at one of its calls.
#[derive(Drop)]
pub(crate) struct Output {
    /// What was taken.
    pub(crate) taken: Vec<u8>,
    /// The number of the call that fails, from 1 on.
    fails: usize,
    /// How it fails then.
    failure: Failure,
    /// How many calls there were.
    pub(crate) calls: usize,
}

impl Write for Output {
    fn write(&mut self, buf: &[u8]) -> io::Result<usize> {
        self.calls = self.calls.saturating_add(1);
        if self.calls == self.fails {
            return match self.failure {
                Failure::Error => Err(io::Error::from(io::ErrorKind::Other)),
                Failure::TakesNone => Ok(0),
            };
        }
        let n = STEP.min(buf.len());
        self.taken.extend_from_slice(&buf[..n])?;
        Ok(n)
    }

    fn flush(&mut self) -> io::Result<()> {
        Ok(())
    }
}

/// A writer that fails so at this call.
pub(crate) fn failing_at(alloc: Global, failure: Failure, fails: usize) -> Output {
    Output {
        taken: Vec::new(alloc),
        fails,
        failure,
        calls: 0,
    }
}
