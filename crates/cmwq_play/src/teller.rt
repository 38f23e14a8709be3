//! Who tells something of each instruction of a run.
ghost use Rattle.cmwq_play.specs.Session.{CanIssue, Issues};
ghost use Rattle.cmwq_play.specs.Telling.{kept_from, told_from};
ghost use Rattle.cmwq_table.specs.State.{State};
ghost use Rattle.cmwq_table.specs.Table.{after_all, table};
ghost use Rattle.cmwq_types.specs.Contents.{ScenarioContents};
ghost use Rattle.cmwq_types.specs.declared.instr.Instr.{Instr};
ghost use Rattle.std.specs.Prelude.{◌≡◌, List, OnOk, replicate, ℕ};

use crate::session::Session;
use cmwq_streams::{PlayError, Sink};
use cmwq_table::Machine;
use cmwq_types::Instr;

/// Issues a run's instructions, one by one or one several times, and tells something of each.
pub trait Teller: Drop {
    /// What the teller keeps is right for a machine in this state.
    ghost fits: { Self → State → Type 0 };

    /// What the teller tells of an instruction that is issued in this state.
    ghost told: { Self → ScenarioContents → State → Instr → List ℕ };

    /// What the teller keeps once the instruction was issued.
    ghost keeps: { Self → ScenarioContents → State → Instr → Self };

    /// Issues the instruction on the session's machine, and writes what is told of it. The only errors are `Write`, exactly where the
    /// writer failed, and `NoMemory`; what was written then is a front of what is told.
    fn issue<M: Machine, W: Sink>(
        &mut self,
        session: &mut Session<'_, '_, M, W>,
        instr: Instr,
    ) -> Result<(), PlayError>
        requires ready { CanIssue M.loaded M.state W.contents W.failed session.old }
        requires fits { fits self.old (M.state session.old.machine) }
        ensures told { Issues M.loaded M.state W.contents W.failed session.old session.new
            (table session.old.scenario.now (M.state session.old.machine) instr).0
            (told self.old session.old.scenario.now (M.state session.old.machine) instr) result }
        ensures keeps { OnOk result (self.new ≡ keeps self.old session.old.scenario.now (M.state session.old.machine) instr) }
        ensures fits { OnOk result (fits self.new (M.state session.new.machine)) };

    /// Issues the instruction so often, and writes what is told of each. The errors are those of `issue`, and what was written then is a
    /// front of what is told of all.
    fn issue_times<M: Machine, W: Sink>(
        &mut self,
        session: &mut Session<'_, '_, M, W>,
        instr: Instr,
        times: u32,
    ) -> Result<(), PlayError>
        requires ready { CanIssue M.loaded M.state W.contents W.failed session.old }
        requires fits { fits self.old (M.state session.old.machine) }
        ensures told { Issues M.loaded M.state W.contents W.failed session.old session.new
            (after_all session.old.scenario.now (M.state session.old.machine) (replicate times instr))
            (told_from told keeps self.old session.old.scenario.now (M.state session.old.machine) (replicate times instr)) result }
        ensures keeps { OnOk result (self.new ≡ kept_from told keeps self.old session.old.scenario.now (M.state session.old.machine) (replicate times instr)) }
        ensures fits { OnOk result (fits self.new (M.state session.new.machine)) }
    {
        for _turn in 0..times {
            self.issue(session, instr)?;
        }
        Ok(())
    }
}
