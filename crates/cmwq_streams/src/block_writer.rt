//! A writer of text that goes out a block at a time.
ghost use Rattle.cmwq_lines.specs.Putting.{repeated};
ghost use Rattle.cmwq_streams.specs.Sending.{HasSent, HasSentFront, IsSendError};
ghost use Rattle.cmwq_table.specs.Events.{reply_line};
ghost use Rattle.cmwq_types.specs.declared.instr.Instr.{Instr};
ghost use Rattle.std.specs.Prelude.{◌≡◌, ◌++◌, ◌≤◌, ◌↔◌, [], Err, IfErr, IfSome, OnErr, OnOk, false, length, true};

use crate::error::PlayError;
use crate::sending::put_all;
use crate::stream::Sink;
use cmwq_lines::{Block, ReplyLines};
use cmwq_table::Happened;
use cmwq_types::{Instr, Reply};
use std::alloc::Global;
use std::fmt::Display;

/// How many bytes of text are kept back at most.
const BLOCK: usize = 8192;

/// A writer of text over a `Sink`, which is given the text a block of about 8,192 bytes at a time.
///
/// `write!` writes to it, and `finish` sends what it keeps back. In the contracts `sink` is the `Sink`,
/// `kept` is what is kept back, and `Sends` says that a text went behind both.
#[derive(Drop)]
pub struct BlockWriter<'w, W> {
    writer: &'w mut W,
    block: Block,
}

impl<'w, W: Sink> BlockWriter<'w, W> {
    ghost use Rattle.cmwq_streams.specs.Blocks.{Sends, SendsFront, SharesSink, WritesTo, kept, sink};

    /// A writer that keeps nothing back yet.
    pub fn new(alloc: Global, writer: &'w mut W) -> BlockWriter<'w, W>
        ensures same { WritesTo result writer.entry }
        ensures writer { sink result ≡ writer.old }
        ensures empty { kept result ≡ [] }
    {
        BlockWriter {
            writer,
            block: Block::new(alloc),
        }
    }

    /// Makes room for a block, so that what is written later takes no memory, unless a text has more
    /// than 8,192 bytes. The only error is `NoMemory`.
    pub fn reserve(&mut self) -> Result<(), PlayError>
        ensures same { SharesSink self.old self.new }
        ensures writer { sink self.new ≡ sink self.old }
        ensures kept { kept self.new ≡ kept self.old }
        ensures why { IfErr result (λ error. error ≡ PlayError.NoMemory) }
    {
        self.block.reserve(2 * BLOCK)?;
        Ok(())
    }

    /// Writes the text behind what is kept back, and sends it all where it is more than a block.
    ///
    /// The errors are `Write`, exactly where the `Sink` failed, and `NoMemory`, also where the text's own
    /// `fmt` fails, as for a `String`. Then what is kept back is lost.
    pub fn write_fmt<D: Display + Drop>(&mut self, text: D) -> Result<(), PlayError>
        requires sound { W.failed (sink self.old) ≡ false }
        ensures same { SharesSink self.old self.new }
        ensures ok { OnOk result (IfSome (D.output text) (λ bytes. Sends W.contents self.old self.new bytes)) }
        ensures kept { OnOk result (length (kept self.new) ≤ 8192) }
        ensures err { OnErr result (IfSome (D.output text) (λ bytes. SendsFront W.contents self.old self.new bytes)) }
        ensures failed { (result ≡ Err PlayError.Write) ↔ (W.failed (sink self.new) ≡ true) }
        ensures why { IfErr result (λ error. IsSendError error) }
    {
        self.block.write_fmt(text)?;
        self.send_full()
    }

    /// Writes the line of a reply at a time to an instruction behind what is kept back, and sends it all where it is more than a block.
    ///
    /// The errors are `Write`, exactly where the `Sink` failed, and `NoMemory`. Then what is kept back is lost.
    #[inline(always)]
    pub fn write_reply(
        &mut self,
        lines: &mut ReplyLines<'_>,
        time: u64,
        instr: Instr,
        reply: &Reply,
    ) -> Result<(), PlayError>
        requires sound { W.failed (sink self.old) ≡ false }
        ensures scenario { lines.new ≡ lines.old }
        ensures same { SharesSink self.old self.new }
        ensures ok { OnOk result (Sends W.contents self.old self.new (reply_line lines.old time instr reply.now)) }
        ensures kept { OnOk result (length (kept self.new) ≤ 8192) }
        ensures err { OnErr result (SendsFront W.contents self.old self.new (reply_line lines.old time instr reply.now)) }
        ensures failed { (result ≡ Err PlayError.Write) ↔ (W.failed (sink self.new) ≡ true) }
        ensures why { IfErr result (λ error. IsSendError error) }
    {
        lines.push(&mut self.block, time, instr, reply)?;
        self.send_full()
    }

    /// Writes the line of what happened to a work at a time behind what is kept back, where that isn't more than a block and has room for it,
    /// and answers whether it did. Nothing is sent.
    #[inline(always)]
    pub fn keep_event(&mut self, lines: &mut ReplyLines<'_>, time: u64, happened: Happened) -> bool
        ensures scenario { lines.new ≡ lines.old }
        ensures same { SharesSink self.old self.new }
        ensures writer { sink self.new ≡ sink self.old }
        ensures line { result ≡ true → (asked : Instr) → kept self.new ≡ kept self.old ++ reply_line lines.old time asked (Reply.Event happened.work happened.event) }
        ensures none { result ≡ false → self.new ≡ self.old }
    {
        self.block.len() <= BLOCK && lines.push_event(&mut self.block, time, happened)
    }

    /// Writes the line of a reply at a time to an instruction so many times behind what is kept back, and sends it all where it is more
    /// than a block. All the lines are kept back first, so let them be few.
    ///
    /// The errors are `Write`, exactly where the `Sink` failed, and `NoMemory`. Then what is kept back is lost.
    #[inline(always)]
    pub fn write_replies(
        &mut self,
        lines: &mut ReplyLines<'_>,
        time: u64,
        instr: Instr,
        reply: &Reply,
        times: u32,
    ) -> Result<(), PlayError>
        requires sound { W.failed (sink self.old) ≡ false }
        ensures scenario { lines.new ≡ lines.old }
        ensures same { SharesSink self.old self.new }
        ensures ok { OnOk result (Sends W.contents self.old self.new (repeated (reply_line lines.old time instr reply.now) times)) }
        ensures kept { OnOk result (length (kept self.new) ≤ 8192) }
        ensures err { OnErr result (SendsFront W.contents self.old self.new (repeated (reply_line lines.old time instr reply.now) times)) }
        ensures failed { (result ≡ Err PlayError.Write) ↔ (W.failed (sink self.new) ≡ true) }
        ensures why { IfErr result (λ error. IsSendError error) }
    {
        lines.push_times(&mut self.block, time, instr, reply, times)?;
        self.send_full()
    }

    /// Sends what is kept back where it is more than a block. The only error is `Write`, exactly where the `Sink` failed.
    #[inline(always)]
    fn send_full(&mut self) -> Result<(), PlayError>
        requires sound { W.failed (sink self.old) ≡ false }
        ensures same { SharesSink self.old self.new }
        ensures ok { OnOk result (HasSent (W.contents (sink self.old)) (W.contents (sink self.new)) (kept self.new) (kept self.old)) }
        ensures kept { OnOk result (length (kept self.new) ≤ 8192) }
        ensures err { OnErr result (HasSentFront (W.contents (sink self.old)) (W.contents (sink self.new)) (kept self.old)) }
        ensures failed { (result ≡ Err PlayError.Write) ↔ (W.failed (sink self.new) ≡ true) }
        ensures write { IfErr result (λ error. error ≡ PlayError.Write) }
    {
        if self.block.len() > BLOCK {
            return self.finish();
        }
        Ok(())
    }

    /// Sends what is kept back. The only error is `Write`, exactly where the `Sink` failed.
    pub fn finish(&mut self) -> Result<(), PlayError>
        requires sound { W.failed (sink self.old) ≡ false }
        ensures same { SharesSink self.old self.new }
        ensures ok { OnOk result (HasSent (W.contents (sink self.old)) (W.contents (sink self.new)) [] (kept self.old)) }
        ensures empty { OnOk result (kept self.new ≡ []) }
        ensures err { OnErr result (HasSentFront (W.contents (sink self.old)) (W.contents (sink self.new)) (kept self.old)) }
        ensures failed { (result ≡ Err PlayError.Write) ↔ (W.failed (sink self.new) ≡ true) }
        ensures write { IfErr result (λ error. error ≡ PlayError.Write) }
    {
        put_all(self.writer, self.block.as_bytes())?;
        self.block.clear();
        Ok(())
    }

    /// The `Sink`. What is kept back is dropped.
    pub fn into_inner(self) -> &'w mut W
        ensures same { WritesTo self.entry result }
        ensures writer { result.now ≡ sink self.entry }
    {
        let BlockWriter { writer, block: _ } = self;
        writer
    }
}
