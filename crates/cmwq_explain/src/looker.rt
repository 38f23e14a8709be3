//! Who looks at a run's states as it goes, and tells what is said of them wherever it changes.
ghost use Rattle.cmwq_explain.specs.Changes.{words_said};
ghost use Rattle.cmwq_explain.specs.Looking.{has_ended_before, line_here, looker_after, looker_told, looker_wholly, looks_here, run_end, saying, told_here};
ghost use Rattle.cmwq_explain.specs.ChangesTold.{as_unit};
ghost use Rattle.cmwq_play.specs.Commands.{Writes};
ghost use Rattle.cmwq_play.specs.Session.{CanIssue, Issues};
ghost use Rattle.cmwq_streams.specs.Blocks.{SharesSink, kept, sink};
ghost use Rattle.cmwq_streams.specs.Sending.{IsSendError};
ghost use Rattle.cmwq_table.specs.Table.{after_all};
ghost use Rattle.cmwq_types.specs.Scenario.{expand_lines};
ghost use Rattle.std.specs.Prelude.{◌≡◌, [], IfErr, IfOk, OnOk};

use crate::said::LastSaid;
use crate::sayer::Sayer;
use cmwq_play::{Session, Teller};
use cmwq_question::Looks;
use cmwq_streams::{PlayError, Sink};
use cmwq_table::Machine;
use cmwq_types::{Instr, Line};
use std::alloc::Global;

/// Tells what is said of a run's states wherever it changes.
#[derive(Drop)]
pub(crate) struct Looker<'s, P> {
    pub(crate) alloc: Global,
    pub(crate) looks: Looks,
    pub(crate) sayer: &'s P,
    /// How many instructions have been carried out.
    pub(crate) position: u64,
    /// What was said where it was last looked.
    pub(crate) said: LastSaid,
    /// Whether anything has been told.
    pub(crate) has_told: bool,
}

/// Where a run ended that was told.
#[derive(Clone, Copy, PartialEq, Eq)]
pub(crate) struct RunEnd {
    /// How many instructions were carried out.
    pub(crate) position: u64,
    /// The time, in ticks.
    pub(crate) time: u64,
    /// Whether anything was told.
    pub(crate) has_told: bool,
}

impl RunEnd {
    /// Whether the run ended before any position that is to be looked at.
    pub(crate) fn is_before(self, looks: Looks) -> bool
        ensures { result ≡ has_ended_before looks self }
    {
        match looks {
            Looks::At(position) => self.position < position,
            Looks::Time(tick) => self.time < tick,
            Looks::Settled | Looks::Every => false,
        }
    }
}

impl<P: Sayer> Teller for Looker<'_, P> {
    ghost use Rattle.cmwq_explain.specs.Looking.{going_on, looker_after, told_here};
    ghost use Rattle.std.specs.Prelude.{⊤, false};

    ghost fits = { λ _ _. ⊤ };

    ghost told = { λ looker S s _. told_here P.says looker S false s };

    ghost keeps = { λ looker S s _. going_on (looker_after P.says looker S false s) };

    fn issue<M: Machine, W: Sink>(
        &mut self,
        session: &mut Session<'_, '_, M, W>,
        instr: Instr,
    ) -> Result<(), PlayError> {
        self.look(session, false)?;
        let _ = session.machine.exec(instr);
        self.position = self.position.saturating_add(1);
        Ok(())
    }
}

impl<P: Sayer> Looker<'_, P> {
    /// Whether the position, at which this machine is, is one that is looked at.
    fn is_looked_at<M: Machine>(&self, machine: &M, is_last: bool) -> bool
        ensures { result ≡ looks_here self.now (M.loaded machine.now) is_last (M.state machine.now) }
    {
        match self.looks {
            Looks::Settled => is_last || machine.is_settled(),
            Looks::Every => true,
            Looks::At(position) => self.position == position,
            Looks::Time(tick) => machine.now() == tick && (is_last || machine.is_settled()),
        }
    }

    /// Looks at the session's machine, if the position is one that is looked at, and tells what is said of it.
    fn look<M: Machine, W: Sink>(
        &mut self,
        session: &mut Session<'_, '_, M, W>,
        is_last: bool,
    ) -> Result<(), PlayError>
        requires { CanIssue M.loaded M.state W.contents W.failed session.old }
        ensures told { Issues M.loaded M.state W.contents W.failed session.old session.new (M.state session.old.machine)
            (told_here P.says self.old session.old.scenario.now is_last (M.state session.old.machine)) result }
        ensures looked { OnOk result (self.new ≡ looker_after P.says self.old session.old.scenario.now is_last (M.state session.old.machine)) }
    {
        if !self.is_looked_at(&session.machine, is_last) {
            return Ok(());
        }
        let said = self.sayer.say(self.alloc, &session.machine, is_last)?;
        self.tell_said(session, said)
    }

    /// Tells what is said here, unless just that was said before.
    fn tell_said<M: Machine, W: Sink>(
        &mut self,
        session: &mut Session<'_, '_, M, W>,
        said: Option<String>,
    ) -> Result<(), PlayError>
        requires { CanIssue M.loaded M.state W.contents W.failed session.old }
        ensures told { Issues M.loaded M.state W.contents W.failed session.old session.new (M.state session.old.machine)
            (line_here self.old (M.state session.old.machine) (words_said said)) result }
        ensures saying { OnOk result (self.new ≡ saying self.old (M.state session.old.machine) (words_said said)) }
    {
        let Some(text) = said else {
            self.said = LastSaid(None);
            return Ok(());
        };
        if !self.said.is_new(&text) {
            self.said = LastSaid(Some(text));
            return Ok(());
        }
        let position = self.position;
        let now = session.machine.now();
        write!(session.lines, "at {position} now {now} {text}")?;
        self.has_told = true;
        self.said = LastSaid(Some(text));
        Ok(())
    }

    /// Issues the lines' instructions, looks before each and at the end, sends all that is told, and answers where the run ended.
    pub(crate) fn tell<M: Machine, W: Sink>(
        &mut self,
        session: &mut Session<'_, '_, M, W>,
        lines: &[Line],
    ) -> Result<RunEnd, PlayError>
        requires ready { CanIssue M.loaded M.state W.contents W.failed session.old }
        requires empty { kept session.old.lines ≡ [] }
        ensures same { SharesSink session.old.lines session.new.lines }
        ensures writes { Writes (λ output. output ≡ looker_told P.says self.old session.old.scenario.now (M.state session.old.machine) (expand_lines lines.now))
            (W.contents (sink session.old.lines)) (W.contents (sink session.new.lines)) (W.failed (sink session.new.lines)) (as_unit result) }
        ensures end { IfOk result (λ end. end ≡ run_end (looker_wholly P.says self.old session.old.scenario.now (M.state session.old.machine) (expand_lines lines.now))
            (after_all session.old.scenario.now (M.state session.old.machine) (expand_lines lines.now))) }
        ensures why { IfErr result (λ error. IsSendError error) }
    {
        session.issue_all(self, lines)?;
        self.look(session, true)?;
        session.lines.finish()?;
        Ok(RunEnd {
            position: self.position,
            time: session.machine.now(),
            has_told: self.has_told,
        })
    }
}
