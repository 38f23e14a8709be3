//! A scenario's run on a machine, and the writer to which a teller writes what it tells of it.
ghost use Rattle.cmwq_play.specs.Commands.{Writes};
ghost use Rattle.cmwq_play.specs.Session.{CanIssue, Issues};
ghost use Rattle.cmwq_play.specs.Telling.{kept_from, told_from};
ghost use Rattle.cmwq_streams.specs.Blocks.{SharesSink, WritesTo, kept, sink};
ghost use Rattle.cmwq_streams.specs.Sending.{IsSendError};
ghost use Rattle.cmwq_table.specs.Table.{after_all};
ghost use Rattle.cmwq_types.specs.Scenario.{expand_lines};
ghost use Rattle.std.specs.Prelude.{◌≡◌, [], IfErr, OnOk};

use crate::teller::Teller;
use cmwq_lines::ReplyLines;
use cmwq_streams::{BlockWriter, PlayError, Sink};
use cmwq_table::Machine;
use cmwq_types::{Line, Scenario};

/// A scenario's run on a machine. A teller issues its instructions, line by line, and writes what it tells of them to the writer.
#[derive(Drop)]
pub struct Session<'s, 'w, M: Drop, W> {
    /// What the machine has loaded.
    pub scenario: &'s Scenario,
    /// The machine on which the instructions are issued.
    pub machine: M,
    /// The scenario's lines of replies.
    pub replies: ReplyLines<'s>,
    /// The writer.
    pub lines: BlockWriter<'w, W>,
}

impl<'w, M: Machine, W: Sink> Session<'_, 'w, M, W> {
    /// Issues the lines' instructions, and writes what the teller tells of each.
    pub fn issue_all<T: Teller>(&mut self, teller: &mut T, lines: &[Line]) -> Result<(), PlayError>
        requires ready { CanIssue M.loaded M.state W.contents W.failed self.old }
        requires fits { T.fits teller.old (M.state self.old.machine) }
        ensures told { Issues M.loaded M.state W.contents W.failed self.old self.new
            (after_all self.old.scenario.now (M.state self.old.machine) (expand_lines lines.now))
            (told_from T.told T.keeps teller.old self.old.scenario.now (M.state self.old.machine) (expand_lines lines.now)) result }
        ensures keeps { OnOk result (teller.new ≡ kept_from T.told T.keeps teller.old self.old.scenario.now (M.state self.old.machine) (expand_lines lines.now)) }
        ensures fits { OnOk result (T.fits teller.new (M.state self.new.machine)) }
    {
        for line in lines {
            teller.issue_times(self, line.instr, line.times)?;
        }
        Ok(())
    }

    /// Issues the lines' instructions, and sends all that the teller tells of them.
    ///
    /// A block is made first, so that writing a line takes no memory.
    pub fn send_all<T: Teller>(&mut self, teller: &mut T, lines: &[Line]) -> Result<(), PlayError>
        requires ready { CanIssue M.loaded M.state W.contents W.failed self.old }
        requires fits { T.fits teller.old (M.state self.old.machine) }
        requires empty { kept self.old.lines ≡ [] }
        ensures same { SharesSink self.old.lines self.new.lines }
        ensures writes { Writes (λ output. output ≡ told_from T.told T.keeps teller.old self.old.scenario.now (M.state self.old.machine) (expand_lines lines.now))
            (W.contents (sink self.old.lines)) (W.contents (sink self.new.lines)) (W.failed (sink self.new.lines)) result }
        ensures why { IfErr result (λ error. IsSendError error) }
    {
        self.lines.reserve()?;
        self.issue_all(teller, lines)?;
        self.lines.finish()
    }

    /// The writer. What is kept back is dropped.
    pub fn into_writer(self) -> &'w mut W
        ensures same { WritesTo self.entry.lines result }
        ensures writer { result.now ≡ sink self.entry.lines }
    {
        let Session {
            scenario: _,
            machine: _,
            replies: _,
            lines,
        } = self;
        lines.into_inner()
    }
}
