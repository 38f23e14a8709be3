//! The ledger and the totals of a run, kept from instruction to instruction.
ghost use Rattle.cmwq_table.specs.State.{State};
ghost use Rattle.cmwq_ledger.specs.Bounds.{AreTotalsWithin, IsLedgerWithin};
ghost use Rattle.cmwq_ledger.specs.Ledger.{ledger_ticked};
ghost use Rattle.cmwq_ledger.specs.Totals.{totals_ticked};
ghost use Rattle.cmwq_types.specs.Scenario.{pool_count};
ghost use Rattle.std.specs.Prelude.{◌≡◌, ◌≤◌, ◌^◌, length};

use crate::heads::find_heads;
use crate::ledger::Ledger;
use crate::queue_totals::QueueTotals;
use crate::signs::Signs;
use crate::times_line::TimesLine;
use crate::totals::Totals;
use cmwq_table::Reads;
use cmwq_types::{Instr, MAX_CPUS, MAX_QUEUES, NoMemory, Reply, Scenario, filled};
use std::alloc::Global;
use std::marker::Model;

/// As many pools as a machine may have.
const MAX_POOLS: usize = 2 * MAX_CPUS as usize + 2;

/// The ledger and the totals of a run.
#[derive(Drop)]
pub struct Books {
    ledger: Ledger,
    totals: Totals,
    /// Room for the first runnable work of each pool.
    heads: Vec<Option<usize>>,
    /// Room for the counts of each queue's active works in each pool.
    active: Vec<u32>,
}

impl Model for Books {
    ghost use Rattle.cmwq_ledger.specs.Books.{BooksContents};
    ghost use Rattle.std.specs.Prelude.{◌≡◌, length};

    ghost Value = { BooksContents };

    ghost view = { λ books. record { ledger = books.ledger; totals = books.totals } };

    ghost invariant = { λ books. (length books.heads.items ≡ 34) × (length books.active.items ≡ 1088) };
}

impl Books {
    ghost use Rattle.cmwq_ledger.specs.Books.{books_after, books_begun, books_moved, books_passed};
    ghost use Rattle.cmwq_ledger.specs.Bounds.{AreBooksWithin, AreTotalsWithin, IsLedgerWithin};
    ghost use Rattle.cmwq_ledger.specs.Ledger.{lines_ending_at, lines_ended};
    ghost use Rattle.cmwq_table.specs.Table.{table};
    ghost use Rattle.cmwq_types.specs.Setting.{IsSetting};
    ghost use Rattle.cmwq_ledger.specs.Books.{books_ended};
    ghost use Rattle.cmwq_ledger.specs.Bounds.{AreLinesWithin};
    ghost use Rattle.cmwq_ledger.specs.Ledger.{still_lines};
    ghost use Rattle.cmwq_ledger.specs.Totals.{burned_on, nothing_counted, totals_ended};
    ghost use Rattle.cmwq_types.specs.declared.limits.TheConstants.{MAX_CPUS};
    ghost use Rattle.std.specs.Prelude.{IfOk, OnErr, OnOk, nat_lt, option_to_list, slice_index_or, true};

    /// The books of a run of the scenario, before its first instruction. The only error is want of memory; later nothing takes any.
    pub fn open(alloc: Global, scenario: &Scenario) -> Result<Books, NoMemory>
        requires { IsSetting scenario.now }
        ensures { IfOk result (λ books. books ≡ books_begun scenario.now) }
    {
        Ok(Books {
            ledger: Ledger::empty(alloc, scenario.works.len())?,
            totals: Totals::begin(alloc, scenario)?,
            heads: filled(alloc, None, MAX_POOLS)?,
            active: filled(alloc, 0, MAX_QUEUES * MAX_POOLS)?,
        })
    }

    /// Records an instruction that the machine has carried out, which was issued at this time and answered so. Answers the line of what
    /// it ended. It takes no memory.
    pub fn record<R: Reads>(
        &mut self,
        machine: &R,
        time: u64,
        instr: Instr,
        reply: Reply,
    ) -> Option<TimesLine>
        requires room { AreBooksWithin (2 ^ 62) self.old }
        ensures recorded { (s : State) → time ≡ s.time → (R.state machine.now, reply) ≡ table (R.loaded machine.now) s instr
            → self.new ≡ books_after (R.loaded machine.now) self.old s instr }
        ensures line { (s : State) → time ≡ s.time → (R.state machine.now, reply) ≡ table (R.loaded machine.now) s instr
            → option_to_list result ≡ lines_ending_at (R.loaded machine.now) self.old.ledger s instr }
    {
        let _scenario = machine.scenario();
        self.pass_from(machine, time);
        self.enter(machine, instr, reply)
    }

    /// The lines of all that are still there in the machine's state, by the time since which they are, then by the work's number, running
    /// before pending. They count in the totals from then on. The only error is want of memory; then nothing has changed.
    pub fn close<R: Reads>(
        &mut self,
        alloc: Global,
        machine: &R,
    ) -> Result<Vec<TimesLine>, NoMemory>
        requires room { AreBooksWithin (2 ^ 62) self.old }
        ensures lines { IfOk result (λ lines. lines.items ≡ still_lines (R.loaded machine.now) self.old.ledger (R.state machine.now)) }
        ensures ended { OnOk result (self.new ≡ books_ended (R.loaded machine.now) self.old (R.state machine.now)) }
        ensures same { OnErr result (self.new ≡ self.old) }
    {
        let lines = self.ledger.still_lines(alloc, machine)?;
        self.count_lines(machine.scenario(), &lines);
        Ok(lines)
    }

    /// Counts the lines of those that are still there.
    fn count_lines(&mut self, scenario: &Scenario, lines: &[TimesLine])
        requires { AreLinesWithin (2 ^ 62) lines.now }
        ensures { self.new ≡ record self.old { totals = totals_ended scenario.now lines.now self.old.totals } }
    {
        let Books {
            ledger: _,
            totals,
            heads: _,
            active: _,
        } = self;
        totals.count_lines(scenario, lines);
    }

    /// What is counted of the queue; nothing where there is none of the number.
    pub fn queue_totals(&self, queue: usize) -> QueueTotals
        ensures { result ≡ slice_index_or self.now.totals.queues queue nothing_counted }
    {
        self.totals
            .queues
            .get(queue)
            .copied()
            .unwrap_or(QueueTotals::nothing())
    }

    /// How many ticks were burned in the pool; 0 where there is none of the number.
    pub fn burned_in(&self, pool: u8) -> u64
        ensures { result ≡ slice_index_or self.now.totals.pools pool 0 }
    {
        self.totals.pools.get(pool as usize).copied().unwrap_or(0)
    }

    /// How many ticks were burned on the CPU, in both of its pools.
    pub fn burned_on(&self, cpu: u8) -> u64
        requires room { AreTotalsWithin (2 ^ 62) self.now.totals }
        requires few { cpu ≤ MAX_CPUS }
        ensures { result ≡ burned_on self.now.totals cpu }
    {
        self.burned_in(2 * cpu) + self.burned_in(2 * cpu + 1)
    }

    /// How many ticks the CPU was idle; 0 where there is none of the number.
    pub fn idle_on(&self, cpu: u8) -> u64
        ensures { result ≡ slice_index_or self.now.totals.idle cpu 0 }
    {
        self.totals.idle.get(cpu as usize).copied().unwrap_or(0)
    }

    /// Adds the tick that led to the machine's state, if it is later than this.
    fn pass_from<R: Reads>(&mut self, machine: &R, time: u64)
        requires { AreBooksWithin (2 ^ 62) self.old }
        ensures passed { self.new ≡ books_passed (R.loaded machine.now) self.old (nat_lt time (R.state machine.now).time) (R.state machine.now) }
        ensures ledger { IsLedgerWithin (2 ^ 63) self.new.ledger }
        ensures totals { AreTotalsWithin (2 ^ 63) self.new.totals }
    {
        if time < machine.time() {
            self.pass(machine);
        }
    }

    /// Adds the tick that led to the machine's state.
    fn pass<R: Reads>(&mut self, machine: &R)
        requires { AreBooksWithin (2 ^ 62) self.old }
        ensures passed { self.new ≡ books_passed (R.loaded machine.now) self.old true (R.state machine.now) }
        ensures ledger { IsLedgerWithin (2 ^ 63) self.new.ledger }
        ensures totals { AreTotalsWithin (2 ^ 63) self.new.totals }
    {
        let Books {
            ledger,
            totals,
            heads,
            active: _,
        } = self;
        let _scenario = machine.scenario();
        tick(ledger, totals, heads, machine);
    }

    /// What the instruction did that led to the machine's state, behind the tick that passed in it. Answers the line of what it ended.
    fn enter<R: Reads>(&mut self, machine: &R, instr: Instr, reply: Reply) -> Option<TimesLine>
        requires ledger { IsLedgerWithin (2 ^ 63) self.old.ledger }
        requires totals { AreTotalsWithin (2 ^ 63) self.old.totals }
        ensures moved { self.new ≡ books_moved (R.loaded machine.now) self.old (R.state machine.now) instr reply }
        ensures line { option_to_list result ≡ lines_ended self.old.ledger (R.state machine.now).time instr reply }
    {
        let Books {
            ledger,
            totals,
            heads: _,
            active,
        } = self;
        let _scenario = machine.scenario();
        let line = ledger.record(machine, instr, reply);
        totals.record(machine, active, instr, reply, line);
        line
    }
}

/// Adds the tick that led to the machine's state. The list is for the first runnable work of each pool.
fn tick<R: Reads>(
    ledger: &mut Ledger,
    totals: &mut Totals,
    heads: &mut [Option<usize>],
    machine: &R,
)
    requires ledger { IsLedgerWithin (2 ^ 62) ledger.old }
    requires totals { AreTotalsWithin (2 ^ 62) totals.old }
    requires room { pool_count (R.loaded machine.now) ≤ length heads.old }
    ensures ledger { ledger.new ≡ ledger_ticked (R.loaded machine.now) (R.state machine.now) ledger.old }
    ensures totals { totals.new ≡ totals_ticked (R.loaded machine.now) (R.state machine.now) totals.old }
    ensures few { IsLedgerWithin (2 ^ 63) ledger.new }
    ensures within { AreTotalsWithin (2 ^ 63) totals.new }
{
    find_heads(machine, heads);
    let signs = Signs { machine, heads };
    ledger.tick(&signs);
    totals.tick(&signs);
}
