//! The rows of sums at the end of a run.
ghost use Rattle.cmwq_times.specs.TimesText.{cpu_sum, line_rows, pool_sum, queue_sum, rows_below, sums_rows};
ghost use Rattle.std.specs.Prelude.{◌++◌, ◌*◌, ◌+◌, Some, length};

use crate::rows::{CpuRow, LineRow, NowRow, PoolRow, QueueRow};
use cmwq_ledger::{Books, TimesLine, active_everywhere};
use cmwq_reports::Format;
use cmwq_table::Reads;
use cmwq_types::Scenario;
use std::fmt;
use std::marker::Model;

/// The rows of instances.
#[derive(Clone, Copy)]
pub(crate) struct LineRows<'a> {
    pub(crate) format: Format,
    pub(crate) scenario: &'a Scenario,
    pub(crate) lines: &'a [TimesLine],
}

impl fmt::Display for LineRows<'_> {
    ghost output = { λ rows. Some (line_rows rows.format rows.scenario.now rows.lines.now) };

    fn fmt<W: fmt::Write>(&self, f: &mut fmt::Formatter<W>) -> fmt::Result {
        for line in self.lines {
            let row = LineRow {
                format: self.format,
                scenario: self.scenario,
                line: *line,
            };
            write!(f, "{row}")?;
        }
        Ok(())
    }
}

/// The sums of a run that has come to the machine's state.
#[derive(Drop)]
pub(crate) struct Sums<'a, R: Reads> {
    pub(crate) format: Format,
    pub(crate) books: &'a Books,
    pub(crate) machine: &'a R,
}

impl<'a, R: Reads> Model for Sums<'a, R> {
    ghost use Rattle.cmwq_ledger.specs.Bounds.{AreTotalsWithin};
    ghost use Rattle.cmwq_times.specs.Sums.{SumsContents};
    ghost use Rattle.std.specs.Prelude.{◌^◌};

    ghost Value = { SumsContents };

    ghost view = { λ sums. record {
      format = sums.format;
      scenario = R.loaded sums.machine.now;
      totals = sums.books.now.totals;
      state = R.state sums.machine.now;
    } };

    ghost invariant = { λ sums. AreTotalsWithin (2 ^ 62) sums.books.now.totals };
}

impl<R: Reads> fmt::Display for Sums<'_, R> {
    ghost output = { λ sums. Some (sums_rows sums.format sums.scenario sums.totals sums.state) };

    fn fmt<W: fmt::Write>(&self, f: &mut fmt::Formatter<W>) -> fmt::Result {
        let queues = QueueRows(self);
        let cpus = CpuRows(self);
        let normal = self.pool_row(2 * self.machine.scenario().cpus);
        let high = self.pool_row(2 * self.machine.scenario().cpus + 1);
        let now = NowRow {
            format: self.format,
            now: self.machine.time(),
            spent: self.machine.spent(),
        };
        write!(f, "{queues}{cpus}{normal}{high}{now}")
    }
}

impl<'a, R: Reads> Sums<'a, R> {
    ghost use Rattle.cmwq_ledger.specs.Totals.{active_everywhere, burned_on, nothing_counted};
    ghost use Rattle.cmwq_times.specs.declared.rows.CpuRow.{CpuRow};
    ghost use Rattle.cmwq_times.specs.declared.rows.PoolRow.{PoolRow};
    ghost use Rattle.cmwq_types.specs.Scenario.{queue_at};
    ghost use Rattle.std.specs.Prelude.{◌≡◌, ◌<◌, length, slice_index_or};

    /// The row of the queue.
    fn queue_row(&self, queue: usize) -> QueueRow<'a>
        requires { queue < length self.now.scenario.queues }
        ensures format { result.format ≡ self.now.format }
        ensures name { result.name.now ≡ (queue_at self.now.scenario queue).name }
        ensures totals { result.totals ≡ slice_index_or self.now.totals.queues queue nothing_counted }
        ensures active { result.active ≡ active_everywhere self.now.scenario self.now.state queue }
    {
        QueueRow {
            format: self.format,
            name: self.machine.scenario().queue_name(queue),
            totals: self.books.queue_totals(queue),
            active: active_everywhere(self.machine, queue as u8),
        }
    }

    /// The row of the CPU.
    fn cpu_row(&self, cpu: u8) -> CpuRow
        requires { cpu < self.now.scenario.cpus }
        ensures { result ≡ record { format = self.now.format; cpu = cpu; burned = burned_on self.now.totals cpu; idle = slice_index_or self.now.totals.idle cpu 0 } }
    {
        let _scenario = self.machine.scenario();
        CpuRow {
            format: self.format,
            cpu,
            burned: self.books.burned_on(cpu),
            idle: self.books.idle_on(cpu),
        }
    }

    /// The row of the pool.
    fn pool_row(&self, pool: u8) -> PoolRow
        ensures { result ≡ record { format = self.now.format; pool = pool; burned = slice_index_or self.now.totals.pools pool 0 } }
    {
        PoolRow {
            format: self.format,
            pool,
            burned: self.books.burned_in(pool),
        }
    }
}

/// The rows of queues.
#[derive(Drop)]
struct QueueRows<'s, 'a, R: Reads>(&'s Sums<'a, R>);

impl<R: Reads> fmt::Display for QueueRows<'_, '_, R> {
    ghost output = { λ rows. Some (rows_below (queue_sum rows.0.now.format rows.0.now.scenario rows.0.now.totals rows.0.now.state) (length rows.0.now.scenario.queues)) };

    fn fmt<W: fmt::Write>(&self, f: &mut fmt::Formatter<W>) -> fmt::Result {
        let sums: &Sums<'_, R> = self.0;
        for queue in 0..sums.machine.scenario().queues.len() {
            let row = sums.queue_row(queue);
            write!(f, "{row}")?;
        }
        Ok(())
    }
}

/// The rows of CPUs.
#[derive(Drop)]
struct CpuRows<'s, 'a, R: Reads>(&'s Sums<'a, R>);

impl<R: Reads> fmt::Display for CpuRows<'_, '_, R> {
    ghost output = { λ rows. Some (rows_below (cpu_sum rows.0.now.format rows.0.now.totals) rows.0.now.scenario.cpus) };

    fn fmt<W: fmt::Write>(&self, f: &mut fmt::Formatter<W>) -> fmt::Result {
        let sums: &Sums<'_, R> = self.0;
        for cpu in 0..sums.machine.scenario().cpus {
            let row = sums.cpu_row(cpu);
            write!(f, "{row}")?;
        }
        Ok(())
    }
}
