//! Who keeps the books of a run, and counts for whom its works wait; tells each instance as it ends, and the rest at the end.
ghost use Rattle.cmwq_blame.specs.Blame.{no_blame};
ghost use Rattle.cmwq_ledger.specs.Books.{books_begun};
ghost use Rattle.cmwq_play.specs.Commands.{Writes};
ghost use Rattle.cmwq_play.specs.Session.{CanIssue, Issues};
ghost use Rattle.cmwq_streams.specs.Blocks.{Sends, SendsFront, SharesSink, kept, sink};
ghost use Rattle.cmwq_streams.specs.Sending.{IsSendError};
ghost use Rattle.cmwq_times.specs.Clerking.{IsBlameIfWithin, IsWithin, blame_kept, clerk_ends, clerk_told};
ghost use Rattle.cmwq_times.specs.TimesText.{blame_if, line_rows};
ghost use Rattle.cmwq_types.specs.Scenario.{expand_lines};
ghost use Rattle.cmwq_types.specs.Setting.{IsSetting};
ghost use Rattle.std.specs.Prelude.{◌≡◌, ◌*◌, ◌^◌, ◌↔◌, [], Err, IfErr, IfOk, OnErr, OnOk, false, option_to_list, true};

use crate::rows::LineRow;
use crate::sums::{LineRows, Sums};
use crate::whom::WhomRows;
use cmwq_blame::Blame;
use cmwq_ledger::{Books, TimesLine};
use cmwq_play::{Session, Teller};
use cmwq_reports::{Format, Times};
use cmwq_streams::{BlockWriter, PlayError, Sink};
use cmwq_table::Machine;
use cmwq_types::{Instr, Line, NoMemory, Scenario};
use std::alloc::Global;

/// Keeps the books of a run, and tells each instance as it ends. It counts for whom works wait where that is told.
#[derive(Drop)]
pub(crate) struct Clerk {
    pub(crate) alloc: Global,
    pub(crate) asked: Times,
    pub(crate) books: Books,
    pub(crate) blame: Option<Blame>,
}

impl Teller for Clerk {
    ghost use Rattle.cmwq_times.specs.Clerking.{IsWithin, clerk_keeps, clerk_tells};
    ghost use Rattle.std.specs.Prelude.{◌*◌};

    ghost fits = { λ clerk s. IsWithin (512 * s.spent) clerk };

    ghost told = { clerk_tells };

    ghost keeps = { clerk_keeps };

    fn issue<M: Machine, W: Sink>(
        &mut self,
        session: &mut Session<'_, '_, M, W>,
        instr: Instr,
    ) -> Result<(), PlayError> {
        let _scenario = session.machine.scenario();
        let time = session.machine.time();
        let _spent = session.machine.spent();
        record_blame(&mut self.blame, &session.machine, instr);
        let reply = session.machine.exec(instr);
        let line = self.books.record(&session.machine, time, instr, reply);
        write_ended(
            self.asked.format,
            session.scenario,
            line,
            &mut session.lines,
        )
    }
}

/// Counts of for whom works wait, if they are asked for.
fn open_blame(alloc: Global, scenario: &Scenario, whom: bool) -> Result<Option<Blame>, NoMemory>
    requires { IsSetting scenario.now }
    ensures { IfOk result (λ blame. blame ≡ blame_if whom (no_blame scenario.now)) }
{
    if whom {
        Ok(Some(Blame::open(alloc, scenario)?))
    } else {
        Ok(None)
    }
}

/// Counts for whom works wait in the instruction, which the machine has yet to carry out, where that is told.
fn record_blame<M: Machine>(blame: &mut Option<Blame>, machine: &M, instr: Instr)
    requires { IsBlameIfWithin (2 ^ 62) blame.old }
    ensures { blame.new ≡ blame_kept (M.loaded machine.now) blame.old (M.state machine.now) instr }
{
    if let Some(blame) = blame {
        blame.record(machine, instr);
    }
}

/// Writes the row of an instance that has ended, if one has. The errors are those of the writer's other calls; what went out then is a
/// front of the row.
fn write_ended<W: Sink>(
    format: Format,
    scenario: &Scenario,
    line: Option<TimesLine>,
    lines: &mut BlockWriter<'_, W>,
) -> Result<(), PlayError>
    requires sound { W.failed (sink lines.old) ≡ false }
    ensures same { SharesSink lines.old lines.new }
    ensures ok { OnOk result (Sends W.contents lines.old lines.new (line_rows format scenario.now (option_to_list line))) }
    ensures err { OnErr result (SendsFront W.contents lines.old lines.new (line_rows format scenario.now (option_to_list line))) }
    ensures failed { (result ≡ Err PlayError.Write) ↔ (W.failed (sink lines.new) ≡ true) }
    ensures why { IfErr result (λ error. IsSendError error) }
{
    match line {
        Some(line) => {
            let row = LineRow {
                format,
                scenario,
                line,
            };
            write!(lines, "{row}")
        }
        None => Ok(()),
    }
}

impl Clerk {
    /// Opens the books of a run of the scenario, and counts of for whom its works wait, if they are asked for.
    pub(crate) fn open(alloc: Global, scenario: &Scenario, asked: Times) -> Result<Clerk, NoMemory>
        requires { IsSetting scenario.now }
        ensures begun { IfOk result (λ clerk. clerk.books ≡ books_begun scenario.now) }
        ensures blame { IfOk result (λ clerk. clerk.blame ≡ blame_if asked.whom (no_blame scenario.now)) }
        ensures asked { IfOk result (λ clerk. clerk.asked ≡ asked) }
    {
        let books = Books::open(alloc, scenario)?;
        let blame = open_blame(alloc, scenario, asked.whom)?;
        Ok(Clerk {
            alloc,
            asked,
            books,
            blame,
        })
    }

    /// Tells what is still there at the end of the run, for whom works waited, if that is told, and the sums.
    fn tell_end<M: Machine, W: Sink>(
        &mut self,
        session: &mut Session<'_, '_, M, W>,
    ) -> Result<(), PlayError>
        requires ready { CanIssue M.loaded M.state W.contents W.failed session.old }
        requires fits { IsWithin (512 * (M.state session.old.machine).spent) self.old }
        ensures told { Issues M.loaded M.state W.contents W.failed session.old session.new (M.state session.old.machine)
            (clerk_ends self.old session.old.scenario.now (M.state session.old.machine)) result }
    {
        let _spent = session.machine.spent();
        let lines = self.books.close(self.alloc, &session.machine)?;
        let still = LineRows {
            format: self.asked.format,
            scenario: session.scenario,
            lines: &lines,
        };
        let whom = WhomRows {
            format: self.asked.format,
            scenario: session.scenario,
            blame: &self.blame,
        };
        let sums = Sums {
            format: self.asked.format,
            books: &self.books,
            machine: &session.machine,
        };
        write!(session.lines, "{still}{whom}{sums}")
    }

    /// Issues the lines' instructions, and sends all that is told of their run. Memory for a block is taken first.
    pub(crate) fn tell<M: Machine, W: Sink>(
        &mut self,
        session: &mut Session<'_, '_, M, W>,
        lines: &[Line],
    ) -> Result<(), PlayError>
        requires ready { CanIssue M.loaded M.state W.contents W.failed session.old }
        requires fits { IsWithin (512 * (M.state session.old.machine).spent) self.old }
        requires empty { kept session.old.lines ≡ [] }
        ensures same { SharesSink session.old.lines session.new.lines }
        ensures writes { Writes (λ output. output ≡ clerk_told self.old session.old.scenario.now (M.state session.old.machine) (expand_lines lines.now))
            (W.contents (sink session.old.lines)) (W.contents (sink session.new.lines)) (W.failed (sink session.new.lines)) result }
        ensures why { IfErr result (λ error. IsSendError error) }
    {
        session.issue_all(self, lines)?;
        self.tell_end(session)?;
        session.lines.finish()
    }
}
