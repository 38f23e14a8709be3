//! All that is told of one instruction.
ghost use Rattle.cmwq_streams.specs.Blocks.{Sends, SendsFront, SharesSink, sink};
ghost use Rattle.cmwq_streams.specs.Sending.{IsSendError};
ghost use Rattle.cmwq_streams.specs.declared.error.PlayError.TheVariants as PlayError;
ghost use Rattle.cmwq_table.specs.Table.{table};
ghost use Rattle.cmwq_play.specs.Session.{CanIssue, Issues};
ghost use Rattle.cmwq_tell.specs.RunTold.{told_wholly};
ghost use Rattle.cmwq_tell.specs.Positions.{held_text, kept_then, told_lines, told_then};
ghost use Rattle.std.specs.Prelude.{◌≡◌, ◌↔◌, ◌++◌, Err, IfErr, OnErr, OnOk, false, true, ⊤};

use crate::change::{Change, ChangeLines};
use crate::come::{Come, HeldLine, ended, has_come, held_then, write_held};
use crate::hidden_changes::hidden;
use cmwq_instr_words::InstrWords;
use cmwq_lines::ReplyLines;
use cmwq_play::{Framed, Session, Teller};
use cmwq_streams::{BlockWriter, PlayError, Sink};
use cmwq_table::Machine;
use cmwq_types::{Instr, Reply, Scenario};
use std::alloc::Global;

/// Tells each instruction behind its position, its reply, if it has one, and its hidden changes. Equal instructions in a row that have come are
/// told once: they are held until another one comes.
#[derive(Drop)]
pub(crate) struct Whole {
    pub(crate) alloc: Global,
    /// How many instructions have been issued.
    pub(crate) position: u64,
    /// The instructions that have come and aren't told yet.
    pub(crate) held: Option<Come>,
}

impl Teller for Whole {
    ghost fits = { λ _ _. ⊤ };

    ghost told = { λ whole S s instr. told_then S whole.held whole.position s instr };

    ghost keeps = { λ whole S s instr. kept_then whole S s instr };

    fn issue<M: Machine, W: Sink>(
        &mut self,
        session: &mut Session<'_, '_, M, W>,
        instr: Instr,
    ) -> Result<(), PlayError> {
        let position = self.position;
        let come = has_come(&session.machine, instr);
        let before = ended(self.held, come, instr);
        self.held = held_then(self.held, come, position, instr);
        self.position = position.saturating_add(1);
        if come {
            return issue_come(session, before, instr);
        }
        issue_whole(self.alloc, session, before, position, instr)
    }
}

impl Framed for Whole {
    ghost use Rattle.cmwq_tell.specs.Positions.{held_text};
    ghost use Rattle.std.specs.Prelude.{[]};

    ghost opening = { λ _ _. [] };

    ghost closing = { λ whole S _. held_text S whole.held };

    fn open<M: Machine, W: Sink>(
        &self,
        session: &mut Session<'_, '_, M, W>,
    ) -> Result<(), PlayError> {
        let _ = &*session;
        Ok(())
    }

    fn close<M: Machine, W: Sink>(
        &mut self,
        session: &mut Session<'_, '_, M, W>,
    ) -> Result<(), PlayError> {
        write_held(session.scenario, self.held, &mut session.lines)
    }
}

/// Issues an instruction that has come, and writes the line of those that were held before it, if it ends them.
fn issue_come<M: Machine, W: Sink>(
    session: &mut Session<'_, '_, M, W>,
    before: Option<Come>,
    instr: Instr,
) -> Result<(), PlayError>
    requires ready { CanIssue M.loaded M.state W.contents W.failed session.old }
    ensures { Issues M.loaded M.state W.contents W.failed session.old session.new
        (table session.old.scenario.now (M.state session.old.machine) instr).0 (held_text session.old.scenario.now before) result }
{
    let _ = session.machine.exec(instr);
    write_held(session.scenario, before, &mut session.lines)
}

/// Issues an instruction that hasn't come, and writes the line of those that were held before it, if there are some, and all that is told of it.
fn issue_whole<M: Machine, W: Sink>(
    alloc: Global,
    session: &mut Session<'_, '_, M, W>,
    before: Option<Come>,
    position: u64,
    instr: Instr,
) -> Result<(), PlayError>
    requires ready { CanIssue M.loaded M.state W.contents W.failed session.old }
    ensures { Issues M.loaded M.state W.contents W.failed session.old session.new
        (table session.old.scenario.now (M.state session.old.machine) instr).0
        (held_text session.old.scenario.now before ++ told_wholly session.old.scenario.now position (M.state session.old.machine) instr (table session.old.scenario.now (M.state session.old.machine) instr)) result }
{
    let time = session.machine.time();
    let next = session.machine.next_stamp();
    let reply = session.machine.exec(instr);
    let changes = hidden(alloc, time, next, &session.machine, reply)?;
    let told = Told {
        scenario: session.scenario,
        before,
        position,
        time: session.machine.now(),
        instr,
        reply,
        changes: &changes,
    };
    told.write(&mut session.replies, &mut session.lines)
}

/// What is told of an instruction: the line of those that were held before it, if there are some, its line with its position, then that of its reply at
/// the time, if it has one, and then those of its hidden changes.
#[derive(Clone, Copy)]
struct Told<'a> {
    scenario: &'a Scenario,
    before: Option<Come>,
    position: u64,
    time: u64,
    instr: Instr,
    reply: Reply,
    changes: &'a [Change],
}

impl Told<'_> {
    /// Writes the lines. The errors are those of the writer's other calls; what went out then is a front of the lines.
    fn write<W: Sink>(
        self,
        replies: &mut ReplyLines<'_>,
        lines: &mut BlockWriter<'_, W>,
    ) -> Result<(), PlayError>
        requires sound { W.failed (sink lines.old) ≡ false }
        requires parts { replies.old ≡ self.scenario.now }
        ensures parts { replies.new ≡ replies.old }
        ensures same { SharesSink lines.old lines.new }
        ensures ok { OnOk result (Sends W.contents lines.old lines.new (told_lines self.entry)) }
        ensures err { OnErr result (SendsFront W.contents lines.old lines.new (told_lines self.entry)) }
        ensures failed { (result ≡ Err PlayError.Write) ↔ (W.failed (sink lines.new) ≡ true) }
        ensures why { IfErr result (λ error. IsSendError error) }
    {
        let instr = InstrWords {
            scenario: self.scenario,
            instr: self.instr,
        };
        let before = HeldLine {
            scenario: self.scenario,
            held: self.before,
        };
        let position = self.position;
        write!(lines, "{before}# {position} {instr}\n")?;
        lines.write_reply(replies, self.time, self.instr, &self.reply)?;
        let changes = ChangeLines {
            scenario: self.scenario,
            changes: self.changes,
        };
        write!(lines, "{changes}")
    }
}
