//! Sums over a run.
ghost use Rattle.cmwq_ledger.specs.Active.{HasActive};
ghost use Rattle.cmwq_ledger.specs.Bounds.{AreCountsWithin, AreLinesWithin, AreQueuesWithin};
ghost use Rattle.cmwq_ledger.specs.Ledger.{all_ticks, queued_ticks};
ghost use Rattle.cmwq_ledger.specs.Totals.{as_long_as, at_queue, for_work, idle_counted, instances_counted, lines_counted, most_counted, one_more_at};
ghost use Rattle.cmwq_ledger.specs.declared.times_line.TimesLine.{TimesLine};
ghost use Rattle.cmwq_types.specs.Scenario.{queue_of};
ghost use Rattle.std.specs.Prelude.{◌≡◌, ◌+◌, ◌-◌, ◌<◌, ◌^◌, Some, length, ℕ};

use crate::active::{count_active, most_active};
use crate::queue_totals::{Count, QueueTotals};
use crate::signs::Signs;
use crate::times_line::TimesLine;
use crate::told::{cancelled_by, finished_by, rescued_by, started_by};
use cmwq_table::Reads;
use cmwq_types::{Instr, NoMemory, Reply, Scenario, filled};
use std::alloc::Global;
use std::marker::Model;

/// What is counted of queues, pools and CPUs over a run, by number.
#[derive(Drop)]
pub struct Totals {
    pub(crate) queues: Vec<QueueTotals>,
    /// How many ticks were burned in each pool.
    pub(crate) pools: Vec<u64>,
    /// How many ticks each CPU was idle.
    pub(crate) idle: Vec<u64>,
}

impl Model for Totals {
    ghost use Rattle.cmwq_ledger.specs.Contents.{TotalsContents};

    ghost Value = { TotalsContents };

    ghost view = { λ totals. record {
      queues = totals.queues.items;
      pools = totals.pools.items;
      idle = totals.idle.items;
    } };
}

impl Totals {
    ghost use Rattle.cmwq_ledger.specs.Bounds.{AreLinesWithin, AreTotalsWithin};
    ghost use Rattle.cmwq_ledger.specs.Ledger.{all_ticks};
    ghost use Rattle.cmwq_ledger.specs.Totals.{burner_counted_if, burners_counted, totals_begun, totals_ended, totals_moved, totals_ticked, with_idle};
    ghost use Rattle.cmwq_ledger.specs.declared.times_line.TimesLine.{TimesLine};
    ghost use Rattle.cmwq_types.specs.Scenario.{pool_count};
    ghost use Rattle.std.specs.Prelude.{◌*◌, ◌<◌, ◌≤◌, IfOk, IfSome, Some, length, option_to_list};
    ghost use Rattle.cmwq_types.specs.Setting.{IsSetting};

    /// Nothing is counted yet.
    pub(crate) fn begin(alloc: Global, scenario: &Scenario) -> Result<Totals, NoMemory>
        requires { IsSetting scenario.now }
        ensures { IfOk result (λ totals. totals ≡ totals_begun scenario.now) }
    {
        Ok(Totals {
            queues: filled(alloc, QueueTotals::nothing(), scenario.queues.len())?,
            pools: filled(alloc, 0, scenario.pool_count() as usize)?,
            idle: filled(alloc, 0, scenario.cpus as usize)?,
        })
    }

    /// A tick passes: what is burned in it, and which CPUs are idle.
    pub(crate) fn tick<R: Reads>(&mut self, signs: &Signs<'_, R>)
        requires { AreTotalsWithin (2 ^ 62) self.old }
        ensures ticked { self.new ≡ totals_ticked signs.now.scenario signs.now.state self.old }
        ensures within { AreTotalsWithin (2 ^ 63) self.new }
    {
        self.count_burners(signs);
        self.count_idle(signs);
    }

    /// Counts the tick of each work that burns.
    fn count_burners<R: Reads>(&mut self, signs: &Signs<'_, R>)
        requires { AreTotalsWithin (2 ^ 62) self.old }
        ensures counted { self.new ≡ burners_counted signs.now.scenario signs.now.state (length signs.now.scenario.works) self.old }
        ensures idle { self.new.idle ≡ self.old.idle }
        ensures within { AreTotalsWithin (2 ^ 62 + 256) self.new }
    {
        for w in 0..signs.scenario().works.len() {
            self.count_if_burns(signs, w);
        }
    }

    /// Counts the tick of the work, if it burns.
    fn count_if_burns<R: Reads>(&mut self, signs: &Signs<'_, R>, w: usize)
        requires few { w < length signs.now.scenario.works }
        requires within { AreTotalsWithin (2 ^ 64 - 2) self.old }
        ensures counted { self.new ≡ burner_counted_if signs.now.scenario signs.now.state w self.old }
        ensures idle { self.new.idle ≡ self.old.idle }
        ensures within { (n : ℕ) → AreTotalsWithin n self.old → AreTotalsWithin (n + 1) self.new }
    {
        let scenario = signs.scenario();
        if let Some(r) = signs.running_of(w) {
            if signs.burns(w, r) {
                self.count_burner(scenario, w as u16, r.pool);
            }
        }
    }

    /// Counts a tick that the work burns in the pool.
    fn count_burner(&mut self, scenario: &Scenario, w: u16, pool: u8)
        requires { AreTotalsWithin (2 ^ 64 - 2) self.old }
        ensures counted { self.new ≡ record self.old { queues = for_work Count.Burned scenario.now (Some w) self.old.queues; pools = one_more_at pool self.old.pools } }
        ensures within { (n : ℕ) → AreTotalsWithin n self.old → AreTotalsWithin (n + 1) self.new }
    {
        let Totals {
            queues,
            pools,
            idle: _,
        } = self;
        count_of_work(queues, scenario, Count::Burned, Some(w));
        count_one(pools, pool as usize);
    }

    /// What an instruction does, behind the ticks that passed in it, where this is the line of what it ended. The list is for counts.
    pub(crate) fn record<R: Reads>(
        &mut self,
        machine: &R,
        active: &mut [u32],
        instr: Instr,
        reply: Reply,
        line: Option<TimesLine>,
    )
        requires within { AreQueuesWithin (2 ^ 63) self.old.queues }
        requires few { IfSome line (λ told. all_ticks told.account.ticks ≤ 2 ^ 63) }
        requires room { length (R.loaded machine.now).queues * pool_count (R.loaded machine.now) ≤ length active.old }
        ensures { self.new ≡ totals_moved (R.loaded machine.now) self.old (R.state machine.now) instr reply (option_to_list line) }
    {
        let scenario = machine.scenario();
        let places = scenario.queues.len() * scenario.pool_count() as usize;
        let active = &mut active[..places];
        count_active(machine, active);
        let Totals {
            queues,
            pools: _,
            idle: _,
        } = self;
        count_instances(queues, scenario, instr, reply);
        if let Some(line) = line {
            count_line(queues, scenario, line);
        }
        count_most(queues, machine, active);
    }

    /// Counts the lines of what is still there.
    pub(crate) fn count_lines(&mut self, scenario: &Scenario, lines: &[TimesLine])
        requires { AreLinesWithin (2 ^ 62) lines.now }
        ensures { self.new ≡ totals_ended scenario.now lines.now self.old }
    {
        let Totals {
            queues,
            pools: _,
            idle: _,
        } = self;
        count_lines(queues, scenario, lines);
    }

    /// Counts the tick of each CPU that is idle.
    fn count_idle<R: Reads>(&mut self, signs: &Signs<'_, R>)
        requires { AreTotalsWithin (2 ^ 62 + 256) self.old }
        ensures counted { self.new ≡ with_idle signs.now.scenario signs.now.state self.old }
        ensures within { AreTotalsWithin (2 ^ 63) self.new }
    {
        let Totals {
            queues: _,
            pools: _,
            idle,
        } = self;
        count_idle(idle, signs);
    }
}

fn count_idle<R: Reads>(counts: &mut [u64], signs: &Signs<'_, R>)
    requires { AreCountsWithin (2 ^ 62 + 256) counts.old }
    ensures counted { counts.new ≡ idle_counted signs.now.scenario signs.now.state signs.now.scenario.cpus counts.old }
    ensures within { AreCountsWithin (2 ^ 63) counts.new }
{
    for cpu in 0..signs.scenario().cpus {
        if signs.is_idle_cpu(cpu) {
            count_one(counts, cpu as usize);
        }
    }
}

/// One more at that number.
fn count_one(counts: &mut [u64], k: usize)
    requires { AreCountsWithin (2 ^ 64 - 2) counts.old }
    ensures counted { counts.new ≡ one_more_at k counts.old }
    ensures within { (n : ℕ) → AreCountsWithin n counts.old → AreCountsWithin (n + 1) counts.new }
{
    if k < counts.len() {
        counts[k] += 1;
    }
}

/// One more of the work's queue, if it is a work.
fn count_of_work(totals: &mut [QueueTotals], scenario: &Scenario, what: Count, w: Option<u16>)
    requires { AreQueuesWithin (2 ^ 64 - 2) totals.old }
    ensures counted { totals.new ≡ for_work what scenario.now w totals.old }
    ensures within { (n : ℕ) → AreQueuesWithin n totals.old → AreQueuesWithin (n + 1) totals.new }
{
    let Some(w) = w else {
        return;
    };
    let queue = scenario.queue_of(w as usize) as usize;
    if queue < totals.len() {
        totals[queue] = totals[queue].one_counted(what);
    }
}

/// Counts what the reply tells of instances.
fn count_instances(totals: &mut [QueueTotals], scenario: &Scenario, instr: Instr, reply: Reply)
    requires { AreQueuesWithin (2 ^ 63) totals.old }
    ensures { totals.new ≡ instances_counted scenario.now instr reply totals.old }
{
    count_of_work(totals, scenario, Count::Finished, finished_by(reply));
    count_of_work(totals, scenario, Count::Started, started_by(reply));
    count_of_work(totals, scenario, Count::Rescued, rescued_by(reply));
    count_of_work(
        totals,
        scenario,
        Count::Cancelled,
        cancelled_by(instr, reply),
    );
}

fn count_lines(totals: &mut [QueueTotals], scenario: &Scenario, lines: &[TimesLine])
    requires { AreLinesWithin (2 ^ 62) lines.now }
    ensures { totals.new ≡ lines_counted scenario.now lines.now totals.old }
{
    for line in lines {
        count_line(totals, scenario, *line);
    }
}

/// Counts for how long the line's instance was queued.
fn count_line(totals: &mut [QueueTotals], scenario: &Scenario, line: TimesLine)
    requires { all_ticks line.account.ticks < 2 ^ 64 }
    ensures { totals.new ≡ at_queue (as_long_as (queued_ticks line.account.ticks)) (queue_of scenario.now line.work.0) totals.old }
{
    let queue = scenario.queue_of(line.work.0 as usize) as usize;
    if queue < totals.len() {
        totals[queue] = totals[queue].as_long_as(line.account.ticks.queued());
    }
}

/// Counts how many works of each queue are active in one pool at most.
fn count_most<R: Reads>(totals: &mut [QueueTotals], machine: &R, active: &[u32])
    requires { HasActive (R.loaded machine.now) (R.state machine.now) active.now }
    ensures { totals.new ≡ most_counted (R.loaded machine.now) (R.state machine.now) (length (R.loaded machine.now).queues) totals.old }
{
    let scenario = machine.scenario();
    for queue in 0..scenario.queues.len() {
        let most = most_active(machine, active, queue);
        if queue < totals.len() {
            totals[queue] = totals[queue].at_most(u64::from(most));
        }
    }
}
