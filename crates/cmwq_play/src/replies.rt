//! The lines of replies.
ghost use Rattle.cmwq_lines.specs.Putting.{repeated};
ghost use Rattle.cmwq_play.specs.Repeating.{HasTold};
ghost use Rattle.cmwq_play.specs.Session.{CanIssue, Issues, Stopped};
ghost use Rattle.cmwq_table.specs.Events.{events_from, reply_line, told};
ghost use Rattle.cmwq_table.specs.Repeats.{after_times, reply_of};
ghost use Rattle.cmwq_table.specs.Table.{table};
ghost use Rattle.cmwq_types.specs.declared.instr.Instr.TheVariants as instr;
ghost use Rattle.std.specs.Prelude.{◌≡◌, ◌<◌, IfErr, IfOk, replicate, ⊤};

use crate::session::Session;
use crate::teller::Teller;
use cmwq_streams::{PlayError, Sink};
use cmwq_table::{Machine, Went};
use cmwq_types::{Event, Instr, Reply, WorkId};

/// How many lines of a reply are kept back at once. In a block of lines there is as much room.
const TOGETHER: u32 = 128;

/// Tells the line of each reply, if it has one.
#[derive(Drop)]
pub(crate) struct Replies;

impl Teller for Replies {
    ghost fits = { λ _ _. ⊤ };

    ghost told = { λ _ S s instr. told S instr (table S s instr) };

    ghost keeps = { λ replies _ _ _. replies };

    fn issue<M: Machine, W: Sink>(
        &mut self,
        session: &mut Session<'_, '_, M, W>,
        instr: Instr,
    ) -> Result<(), PlayError> {
        let reply = session.machine.exec(instr);
        let time = session.machine.now();
        session
            .lines
            .write_reply(&mut session.replies, time, instr, &reply)
    }

    fn issue_times<M: Machine, W: Sink>(
        &mut self,
        session: &mut Session<'_, '_, M, W>,
        instr: Instr,
        times: u32,
    ) -> Result<(), PlayError> {
        match instr {
            Instr::Next => session.go_times(times),
            _ if times == 1 => self.issue(session, instr),
            _ => session.repeat_times(instr, times),
        }
    }
}

impl<M: Machine, W: Sink> Session<'_, '_, M, W> {
    /// Issues `next` so often, and writes the lines of the replies that have one.
    #[inline(always)]
    fn go_times(&mut self, times: u32) -> Result<(), PlayError>
        requires ready { CanIssue M.loaded M.state W.contents W.failed self.old }
        ensures { Issues M.loaded M.state W.contents W.failed self.old self.new
            (after_times self.old.scenario.now (M.state self.old.machine) instr.Next times)
            (events_from self.old.scenario.now (M.state self.old.machine) (replicate times instr.Next)) result }
    {
        let mut left = times;
        while left > 0 {
            let (count, went) = self.machine.go(left);
            match went {
                Went::Happened(happened) => {
                    let time = self.machine.now();
                    if !self.lines.keep_event(&mut self.replies, time, happened) {
                        self.tell_event(happened.work, happened.event)?;
                    }
                }
                Went::Ticked => {}
                Went::Spent => self.tell_spent()?,
            }
            left -= count;
        }
        Ok(())
    }

    /// Issues the instruction so often, as often at once as it is known to come out the same, and writes the lines of the replies.
    fn repeat_times(&mut self, instr: Instr, times: u32) -> Result<(), PlayError>
        requires ready { CanIssue M.loaded M.state W.contents W.failed self.old }
        ensures { Issues M.loaded M.state W.contents W.failed self.old self.new
            (after_times self.old.scenario.now (M.state self.old.machine) instr times)
            (events_from self.old.scenario.now (M.state self.old.machine) (replicate times instr)) result }
    {
        let mut left = times;
        while left > 0 {
            left -= self.repeat(instr, left)?;
        }
        Ok(())
    }

    /// Writes the line of what happened to a work, at the machine's time, and sends what is kept back where that is more than a block.
    #[cold]
    #[inline(never)]
    fn tell_event(&mut self, work: WorkId, event: Event) -> Result<(), PlayError>
        requires ready { CanIssue M.loaded M.state W.contents W.failed self.old }
        ensures { Issues M.loaded M.state W.contents W.failed self.old self.new (M.state self.old.machine)
            (reply_line self.old.scenario.now (M.state self.old.machine).time instr.Next (Reply.Event work event)) result }
    {
        self.tell_once(Instr::Next, &Reply::Event { work, event })
    }

    /// Writes the line, at the machine's time, of a `next` that is refused since the steps are spent.
    #[cold]
    #[inline(never)]
    fn tell_spent(&mut self) -> Result<(), PlayError>
        requires ready { CanIssue M.loaded M.state W.contents W.failed self.old }
        ensures { Issues M.loaded M.state W.contents W.failed self.old self.new (M.state self.old.machine)
            (reply_line self.old.scenario.now (M.state self.old.machine).time instr.Next (reply_of Went.Spent)) result }
    {
        self.tell_once(Instr::Next, &Went::Spent.reply())
    }

    /// Issues the instruction, and again as long as it is known to come out the same, at most so often in all; and writes the lines of the
    /// replies. Answers how often.
    fn repeat(&mut self, instr: Instr, most: u32) -> Result<u32, PlayError>
        requires ready { CanIssue M.loaded M.state W.contents W.failed self.old }
        requires some { 0 < most }
        ensures ok { IfOk result (HasTold M.loaded M.state W.contents W.failed self.old self.new instr most) }
        ensures err { IfErr result (Stopped M.loaded M.state W.contents W.failed self.old self.new (events_from self.old.scenario.now (M.state self.old.machine) (replicate most instr))) }
    {
        let reply = self.machine.exec(instr);
        let count = 1 + self.machine.again(instr, reply, most - 1);
        self.tell(instr, &reply, count)?;
        Ok(count)
    }

    /// Writes the line of a reply at the machine's time to an instruction.
    #[inline(always)]
    fn tell_once(&mut self, instr: Instr, reply: &Reply) -> Result<(), PlayError>
        requires ready { CanIssue M.loaded M.state W.contents W.failed self.old }
        ensures { Issues M.loaded M.state W.contents W.failed self.old self.new (M.state self.old.machine)
            (reply_line self.old.scenario.now (M.state self.old.machine).time instr reply.now) result }
    {
        let time = self.machine.now();
        self.lines
            .write_reply(&mut self.replies, time, instr, reply)
    }

    /// Writes the line of a reply at the machine's time to an instruction, so many times.
    #[inline(always)]
    fn tell(&mut self, instr: Instr, reply: &Reply, times: u32) -> Result<(), PlayError>
        requires ready { CanIssue M.loaded M.state W.contents W.failed self.old }
        ensures { Issues M.loaded M.state W.contents W.failed self.old self.new (M.state self.old.machine)
            (repeated (reply_line self.old.scenario.now (M.state self.old.machine).time instr reply.now) times) result }
    {
        if times == 1 {
            return self.tell_once(instr, reply);
        }
        self.tell_times(instr, reply, times)
    }

    /// Writes the line as `tell` does, so many lines at a time.
    #[inline(never)]
    fn tell_times(&mut self, instr: Instr, reply: &Reply, times: u32) -> Result<(), PlayError>
        requires ready { CanIssue M.loaded M.state W.contents W.failed self.old }
        ensures { Issues M.loaded M.state W.contents W.failed self.old self.new (M.state self.old.machine)
            (repeated (reply_line self.old.scenario.now (M.state self.old.machine).time instr reply.now) times) result }
    {
        let time = self.machine.now();
        let mut left = times;
        while left > 0 {
            let some = left.min(TOGETHER);
            self.lines
                .write_replies(&mut self.replies, time, instr, reply, some)?;
            left -= some;
        }
        Ok(())
    }
}
