//! A run whose books are kept, and nothing told of it on the way.
ghost use Rattle.cmwq_ledger.specs.Bounds.{AreBooksWithin};
ghost use Rattle.cmwq_ledger.specs.Books.{books_after, books_from};
ghost use Rattle.cmwq_ledger.specs.Ledger.{lines_ending_at, lines_from};
ghost use Rattle.cmwq_sweep.specs.Sweeping.{is_finished, last_finish, row_of};
ghost use Rattle.cmwq_sweep.specs.Trials.{finish_behind};
ghost use Rattle.cmwq_types.specs.Scenario.{expand_lines};
ghost use Rattle.cmwq_table.specs.Table.{after_all, table};
ghost use Rattle.std.specs.Prelude.{◌≡◌, ◌*◌, IfOk};

use crate::sweep_row::SweepRow;
use cmwq_ledger::{Books, Fate, TimesLine};
use cmwq_runs::Instructions;
use cmwq_table::Machine;
use cmwq_types::{Instr, Line, NoMemory, Scenario};
use std::alloc::Global;

/// A run whose books are kept.
#[derive(Drop)]
pub(crate) struct Trial<M: Drop> {
    pub(crate) machine: M,
    pub(crate) books: Books,
    /// When the last instance finished, in ticks; 0 before one did.
    pub(crate) last: u64,
}

impl<M: Machine> Trial<M> {
    /// Issues an instruction.
    fn issue(&mut self, instr: Instr)
        requires { AreBooksWithin (512 * (M.state self.old.machine).spent) self.old.books }
        ensures loaded { M.loaded self.new.machine ≡ M.loaded self.old.machine }
        ensures state { M.state self.new.machine ≡ (table (M.loaded self.old.machine) (M.state self.old.machine) instr).0 }
        ensures books { self.new.books ≡ books_after (M.loaded self.old.machine) self.old.books (M.state self.old.machine) instr }
        ensures last { self.new.last ≡ last_finish self.old.last (lines_ending_at (M.loaded self.old.machine) self.old.books.ledger (M.state self.old.machine) instr) }
        ensures fits { AreBooksWithin (512 * (M.state self.new.machine).spent) self.new.books }
    {
        let _scenario = self.machine.scenario();
        let time = self.machine.time();
        let _spent = self.machine.spent();
        let reply = self.machine.exec(instr);
        let line = self.books.record(&self.machine, time, instr, reply);
        self.last = finish_behind(self.last, line);
    }

    /// Issues the lines' instructions.
    pub(crate) fn issue_all(&mut self, lines: &[Line])
        requires { AreBooksWithin (512 * (M.state self.old.machine).spent) self.old.books }
        ensures loaded { M.loaded self.new.machine ≡ M.loaded self.old.machine }
        ensures state { M.state self.new.machine ≡ after_all (M.loaded self.old.machine) (M.state self.old.machine) (expand_lines lines.now) }
        ensures books { self.new.books ≡ books_from (M.loaded self.old.machine) self.old.books (M.state self.old.machine) (expand_lines lines.now) }
        ensures last { self.new.last ≡ last_finish self.old.last (lines_from (M.loaded self.old.machine) self.old.books.ledger (M.state self.old.machine) (expand_lines lines.now)) }
        ensures fits { AreBooksWithin (512 * (M.state self.new.machine).spent) self.new.books }
    {
        for instr in Instructions::of(lines) {
            self.issue(instr);
        }
    }

    /// What the run has come to. The only error is want of memory.
    pub(crate) fn close(
        &mut self,
        alloc: Global,
        queue: usize,
        max: u16,
    ) -> Result<SweepRow, NoMemory>
        requires { AreBooksWithin (512 * (M.state self.old.machine).spent) self.old.books }
        ensures { IfOk result (λ row. row ≡ row_of (M.loaded self.old.machine) queue max self.old.last self.old.books (M.state self.old.machine)) }
    {
        let _spent = self.machine.spent();
        let left = self.books.close(alloc, &self.machine)?.len();
        let totals = self.books.queue_totals(queue);
        Ok(SweepRow {
            max,
            last: self.last,
            left,
            most: totals.most,
            longest: totals.longest,
        })
    }
}

/// When the last instance finished, behind a line.
fn finish_behind(last: u64, line: Option<TimesLine>) -> u64
    ensures { result ≡ finish_behind last line }
{
    match line {
        Some(line) if is_finished(line.fate) => line.time,
        _ => last,
    }
}

fn is_finished(fate: Fate) -> bool
    ensures { result ≡ is_finished fate }
{
    matches!(fate, Fate::Finished)
}
