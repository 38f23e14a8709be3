//! What an instruction is refused for before anything of its situation is looked at.
ghost use Rattle.cmwq_table.specs.Counts.{or_else};
ghost use Rattle.cmwq_table.specs.Table.{no_work, no_work_or_cpu, operands, refuse_unless};
ghost use Rattle.cmwq_types.specs.Faults.{within};
ghost use Rattle.cmwq_types.specs.declared.limits.TheConstants.{MAX_MAX_ACTIVE};
ghost use Rattle.cmwq_types.specs.declared.reply.Refusal.TheVariants.{BadCount, NoSuchQueue, Spent};
ghost use Rattle.std.specs.Prelude.{◌≡◌, ◌||◌, length, nat_lt};

use cmwq_table::Reads;
use cmwq_types::{Instr, MAX_MAX_ACTIVE, QueueId, Refusal, Scenario, WorkId};

/// What the instruction's operands are refused for, and else, where it isn't free, whether the steps are spent.
#[inline(always)]
pub fn refused_at_once<R: Reads>(machine: &R, instr: Instr, free: bool) -> Option<Refusal>
    ensures { result ≡ or_else (operands (R.loaded machine.now) (R.state machine.now) instr)
        (refuse_unless (free || nat_lt (R.state machine.now).spent (R.loaded machine.now).steps) Spent) }
{
    if let Some(why) = operands(machine, instr) {
        return Some(why);
    }
    let left = machine.spent() < machine.scenario().steps;
    refuse_unless(free || left, Refusal::Spent)
}

/// What the operands are refused for, judged from left to right.
#[inline(always)]
pub fn operands<R: Reads>(machine: &R, instr: Instr) -> Option<Refusal>
    ensures { result ≡ operands (R.loaded machine.now) (R.state machine.now) instr }
{
    let scenario = machine.scenario();
    match instr {
        Instr::Queue(w, cpu) | Instr::Delay(w, cpu, _) | Instr::Mod(w, cpu, _) => {
            no_work_or_cpu(scenario, w, cpu)
        }
        Instr::Cancel(w)
        | Instr::CancelSync(w)
        | Instr::Flush(w)
        | Instr::FlushDelayed(w)
        | Instr::State(w)
        | Instr::Disable(w)
        | Instr::Enable(w) => no_work(scenario, w),
        Instr::FlushQueue(q) => no_queue(scenario, q),
        Instr::SetMax(q, max) => no_queue_or_count(scenario, q, max),
        Instr::Step(pool) => refuse_unless(pool < scenario.pool_count(), Refusal::NoSuchPool),
        Instr::Ask(flush) | Instr::Wait(flush) => refuse_unless(
            (flush as usize) < machine.flush_count(),
            Refusal::NoSuchFlush,
        ),
        _ => None,
    }
}

#[inline(always)]
fn no_work(scenario: &Scenario, w: WorkId) -> Option<Refusal>
    ensures { result ≡ no_work scenario.now w }
{
    refuse_unless((w.0 as usize) < scenario.works.len(), Refusal::NoSuchWork)
}

#[inline(always)]
fn no_work_or_cpu(scenario: &Scenario, w: WorkId, cpu: u8) -> Option<Refusal>
    ensures { result ≡ no_work_or_cpu scenario.now w cpu }
{
    match no_work(scenario, w) {
        Some(why) => Some(why),
        None => refuse_unless(cpu < scenario.cpus, Refusal::NoSuchCpu),
    }
}

#[inline(always)]
fn no_queue(scenario: &Scenario, q: QueueId) -> Option<Refusal>
    ensures { result ≡ refuse_unless (nat_lt q.0 (length scenario.now.queues)) NoSuchQueue }
{
    refuse_unless((q.0 as usize) < scenario.queues.len(), Refusal::NoSuchQueue)
}

/// The `max` of a queue is 1 to 512.
#[inline(always)]
fn no_queue_or_count(scenario: &Scenario, q: QueueId, max: u32) -> Option<Refusal>
    ensures { result ≡ or_else (refuse_unless (nat_lt q.0 (length scenario.now.queues)) NoSuchQueue) (refuse_unless (within 1 MAX_MAX_ACTIVE max) BadCount) }
{
    match no_queue(scenario, q) {
        Some(why) => Some(why),
        None => refuse_unless(
            1 <= max && max <= u32::from(MAX_MAX_ACTIVE),
            Refusal::BadCount,
        ),
    }
}

/// A refusal where the test fails.
#[inline(always)]
fn refuse_unless(holds: bool, why: Refusal) -> Option<Refusal>
    ensures { result ≡ refuse_unless holds why }
{
    if holds { None } else { Some(why) }
}
