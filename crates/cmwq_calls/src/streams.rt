//! The calls that read an input and write what comes of it.
ghost use Rattle.std.specs.Prelude.{◌≡◌, false};

use crate::showing::Printer;
use crate::texts::written;
use crate::trying::{Tried, try_call};
use cmwq_asm::assemble;
use cmwq_play::{Marked, PlayError, Sink, Source, from_image, list_text, run, to_image};
use std::alloc::Global;

/// A call of a reader and a writer.
#[derive(Clone, Copy)]
pub(crate) enum StreamCall {
    Run,
    ListText,
    ToImage,
    FromImage,
}

/// What the reader has, and a call.
#[derive(Drop)]
struct Piped<'x, X> {
    rt: &'x X,
    input: &'x [u8],
    call: StreamCall,
}

impl<X: Print> Tried for Piped<'_, X> {
    type Answer = ();

    /// Reader and writer are new for each call.
    fn call(&mut self, alloc: Global) -> Result<(), PlayError> {
        let reader = &mut Marked::new(self.input);
        let writer = &mut Marked::new(Printer { rt: self.rt });
        pipe(alloc, self.call, reader, writer)
    }
}

/// Makes the call, of this reader and writer.
fn pipe<R: Source, W: Sink>(
    alloc: Global,
    call: StreamCall,
    reader: &mut R,
    writer: &mut W,
) -> Result<(), PlayError>
    requires reader { R.failed reader.old ≡ false }
    requires writer { W.failed writer.old ≡ false }
{
    match call {
        StreamCall::Run => run(alloc, reader, writer),
        StreamCall::ListText => list_text(alloc, reader, writer),
        StreamCall::ToImage => to_image(alloc, reader, writer),
        StreamCall::FromImage => from_image(alloc, reader, writer),
    }
}

/// Makes a call whose reader has this text; or, where it reads an image, that of the text's scenario.
pub(crate) fn try_stream<R: Print>(
    rt: &R,
    alloc: Global,
    call: StreamCall,
    text: &[u8],
) -> Result<(), PlayError> {
    match call {
        StreamCall::FromImage => {
            let image = written(alloc, &assemble(alloc, text)?)?;
            try_piped(rt, alloc, call, &image)
        }
        _ => try_piped(rt, alloc, call, text),
    }
}

/// Makes a call whose reader has this input.
fn try_piped<R: Print>(
    rt: &R,
    alloc: Global,
    call: StreamCall,
    input: &[u8],
) -> Result<(), PlayError> {
    try_call(rt, alloc, &mut Piped { rt, input, call })
}
