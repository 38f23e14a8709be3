//! The instructions: each one's situation is judged and its effect carried out together, so that what was
//! found for the one serves the other.
ghost use Rattle.cmwq_exec.specs.Answered.{answered, event_reply, next_reply, reply_in};
ghost use Rattle.cmwq_exec.specs.Performing.{Performs};
ghost use Rattle.cmwq_parts.specs.FoundMoves.{IsFound, move_of};
ghost use Rattle.cmwq_parts.specs.SettledTicks.{IsSettled};
ghost use Rattle.cmwq_table.specs.Counts.{first_due, is_done};
ghost use Rattle.cmwq_table.specs.Moves.{first_moving};
ghost use Rattle.cmwq_table.specs.Ready.{IsKept};
ghost use Rattle.cmwq_table.specs.State.{pending_at};
ghost use Rattle.cmwq_table.specs.Table.{cancelled, fired_first, is_free, next, next_unless, operands, stepped, table, target_at, yes_or_no};
ghost use Rattle.cmwq_types.specs.declared.instr.Instr.TheVariants as instr;
ghost use Rattle.cmwq_types.specs.declared.limits.TheConstants.{MAX_MAX_ACTIVE, MAX_WORKS};
ghost use Rattle.std.specs.Prelude.{◌≡◌, ◌<◌, ◌≤◌, ◌+◌, ◌^◌, IfNone, IfSome, None, Ok, Some, length};

use crate::answer::Answer;
use crate::disabling::{disable, enable};
use crate::flushing::{cancel_sync, flush_delayed, flush_last, flush_queue};
use cmwq_parts::{Going, Parts};
use cmwq_reads::{flush_target, is_free, refused_at_once};
use cmwq_table::Happened;
use cmwq_types::{Cause, Event, Instr, QueueId, Refusal, Reply, WorkId};

/// The line of an instruction. What is given most has a branch of its own, in which the compiler knows the instruction, and leaves out what is
/// asked of others.
#[inline(never)]
pub(crate) fn exec<P: Parts>(going: &mut Going<P>, instr: Instr) -> Reply
    requires { IsKept going.old }
    ensures state { going.new ≡ record going.old { state = (table going.old.scenario going.old.state instr).0 } }
    ensures reply { result ≡ (table going.old.scenario going.old.state instr).1 }
{
    match instr {
        Instr::Queue(w, cpu) => exec_one(going, Instr::Queue(w, cpu)),
        Instr::Mod(w, cpu, ticks) => exec_one(going, Instr::Mod(w, cpu, ticks)),
        other => exec_one(going, other),
    }
}

/// A refusal changes nothing, and what is accepted is spent, but for what is free.
#[tactic(auto, unfolding(cmwq_table::specs::Table::table))]
#[inline(always)]
fn exec_one<P: Parts>(going: &mut Going<P>, instr: Instr) -> Reply
    requires { IsKept going.old }
    ensures state { going.new ≡ record going.old { state = (table going.old.scenario going.old.state instr).0 } }
    ensures reply { result ≡ (table going.old.scenario going.old.state instr).1 }
{
    let free = is_free(&going.parts, instr);
    if let Some(why) = refused_at_once(&going.parts, instr, free) {
        return Reply::Refused(why);
    }
    match perform(going, instr, free) {
        Ok(answer) => {
            if !free {
                spend(going, 1);
            }
            answer.reply(going)
        }
        Err(why) => Reply::Refused(why),
    }
}

/// Counts so many more instructions as spent.
pub(crate) fn spend<P: Parts>(going: &mut Going<P>, count: u32)
    requires { going.old.state.spent + count ≤ going.old.scenario.steps }
    ensures { going.new ≡ record going.old { state = record going.old.state { spent = going.old.state.spent + count } } }
{
    going.parts.spend(count);
}

/// Carries out an instruction whose operands are right, or says what its situation is refused for. Of an until, a wait or a quiet
/// `free` tells whether what it goes on for has come.
#[inline(always)]
fn perform<P: Parts>(going: &mut Going<P>, instr: Instr, free: bool) -> Result<Answer, Refusal>
    requires free { free ≡ is_free going.old.scenario going.old.state instr }
    requires operands { operands going.old.scenario going.old.state instr ≡ None }
    requires time { going.old.state.time < 2 ^ 60 }
    requires stamps { going.old.state.next < 2 ^ 60 }
    ensures { Performs going.old instr going.new result }
{
    match instr {
        Instr::Queue(w, cpu) => queue(going, w, cpu),
        Instr::Delay(w, cpu, ticks) => delay(going, w, cpu, ticks),
        Instr::Mod(w, cpu, ticks) => modify(going, w, cpu, ticks),
        Instr::Cancel(w) => Ok(cancel(going, w.0 as usize)),
        Instr::CancelSync(w) => cancel_sync(going, w),
        Instr::Flush(w) => flush_last(going, w),
        Instr::FlushDelayed(w) => flush_delayed(going, w),
        Instr::FlushQueue(queue) => flush_queue(going, queue),
        Instr::SetMax(q, max) => change_max(going, q, max),
        Instr::Freeze => freeze(going),
        Instr::Thaw => thaw(going),
        Instr::Fire => fire_first(going),
        Instr::Step(pool) => step(going, pool),
        Instr::Tick => tick_if_settled(going),
        Instr::Next => next_reply(going),
        Instr::Ask(flush) => Ok(ask(going, flush as usize)),
        Instr::Busy => Ok(Answer::yes_or_no(going.parts.is_busy())),
        Instr::State(w) => Ok(Answer::Found(w)),
        Instr::Disable(w) => disable(going, w),
        Instr::Enable(w) => enable(going, w),
        Instr::Pressure => press(going),
        Instr::Relief => relieve(going),
        Instr::Until(_) | Instr::Wait(_) | Instr::Quiet => next_unless(going, free),
    }
}

/// Queues the work on the CPU, unless it is disabled or pending.
#[inline(always)]
fn queue<P: Parts>(going: &mut Going<P>, w: WorkId, cpu: u8) -> Result<Answer, Refusal>
    requires work { w.0 < length going.old.scenario.works }
    requires cpu { cpu < going.old.scenario.cpus }
    requires stamps { going.old.state.next < 2 ^ 60 }
    ensures { Performs going.old (instr.Queue w cpu) going.new result }
{
    if going.is_disabled(w) {
        return Err(Refusal::Disabled);
    }
    if going.parts.pending(w.0 as usize).is_some() {
        return Ok(Answer::Already);
    }
    going.place(w.0 as usize, cpu);
    Ok(Answer::Queued)
}

/// Queues the work on the CPU after so many ticks, unless it is disabled or pending.
#[inline(always)]
fn delay<P: Parts>(going: &mut Going<P>, w: WorkId, cpu: u8, ticks: u32) -> Result<Answer, Refusal>
    requires work { w.0 < length going.old.scenario.works }
    requires cpu { cpu < going.old.scenario.cpus }
    requires time { going.old.state.time < 2 ^ 60 }
    requires stamps { going.old.state.next < 2 ^ 60 }
    ensures { Performs going.old (instr.Delay w cpu ticks) going.new result }
{
    if going.is_disabled(w) {
        return Err(Refusal::Disabled);
    }
    if going.parts.pending(w.0 as usize).is_some() {
        return Ok(Answer::Already);
    }
    going.place_after(w.0 as usize, cpu, ticks);
    Ok(Answer::Queued)
}

/// The same, but a pending work is taken off first.
#[inline(always)]
fn modify<P: Parts>(going: &mut Going<P>, w: WorkId, cpu: u8, ticks: u32) -> Result<Answer, Refusal>
    requires work { w.0 < length going.old.scenario.works }
    requires cpu { cpu < going.old.scenario.cpus }
    requires time { going.old.state.time < 2 ^ 60 }
    requires stamps { going.old.state.next < 2 ^ 60 }
    ensures { Performs going.old (instr.Mod w cpu ticks) going.new result }
{
    if going.is_disabled(w) {
        return Err(Refusal::Disabled);
    }
    match going.parts.pending(w.0 as usize) {
        Some(p) => {
            going.replace(w.0 as usize, p, cpu, ticks);
            Ok(Answer::Changed)
        }
        None => {
            going.place_after(w.0 as usize, cpu, ticks);
            Ok(Answer::Queued)
        }
    }
}

/// Takes a pending work off.
pub(crate) fn cancel<P: Parts>(going: &mut Going<P>, w: usize) -> Answer
    requires work { w < length going.old.scenario.works }
    requires stamps { going.old.state.next < 2 ^ 60 }
    ensures state { going.new ≡ record going.old { state = (cancelled going.old.scenario going.old.state w (pending_at going.old.state w)).0 } }
    ensures reply { reply_in going.new.state result ≡ (cancelled going.old.scenario going.old.state w (pending_at going.old.state w)).1 }
{
    if going.parts.pending(w).is_none() {
        return Answer::NotPending;
    }
    going.take_off(w);
    Answer::Cancelled
}

/// Sets the queue's `max`, unless it is ordered.
fn change_max<P: Parts>(going: &mut Going<P>, q: QueueId, max: u32) -> Result<Answer, Refusal>
    requires queue { q.0 < length going.old.scenario.queues }
    requires count { max ≤ MAX_MAX_ACTIVE }
    requires stamps { going.old.state.next < 2 ^ 60 }
    ensures { Performs going.old (instr.SetMax q max) going.new result }
{
    if going.parts.scenario().flags_of(q.0).ordered {
        return Err(Refusal::Ordered);
    }
    going.set_max_active(q.0, max as u16);
    Ok(Answer::Done)
}

/// Freezes, unless there is a freeze: nothing of a freezable queue is activated until the thaw.
fn freeze<P: Parts>(going: &mut Going<P>) -> Result<Answer, Refusal>
    ensures { Performs going.old instr.Freeze going.new result }
{
    if going.parts.is_frozen() {
        return Err(Refusal::AlreadyFrozen);
    }
    going.parts.set_frozen(true);
    Ok(Answer::Done)
}

/// Thaws, if there is a freeze.
fn thaw<P: Parts>(going: &mut Going<P>) -> Result<Answer, Refusal>
    requires { going.old.state.next < 2 ^ 60 }
    ensures { Performs going.old instr.Thaw going.new result }
{
    if !going.parts.is_frozen() {
        return Err(Refusal::NotFrozen);
    }
    going.thaw();
    Ok(Answer::Done)
}

/// Brings memory pressure, unless there is some.
fn press<P: Parts>(going: &mut Going<P>) -> Result<Answer, Refusal>
    ensures { Performs going.old instr.Pressure going.new result }
{
    if going.parts.is_pressed() {
        return Err(Refusal::AlreadyPressed);
    }
    going.parts.set_pressed(true);
    Ok(Answer::Done)
}

/// Ends the memory pressure, if there is some.
fn relieve<P: Parts>(going: &mut Going<P>) -> Result<Answer, Refusal>
    ensures { Performs going.old instr.Relief going.new result }
{
    if !going.parts.is_pressed() {
        return Err(Refusal::NotPressed);
    }
    going.parts.set_pressed(false);
    Ok(Answer::Done)
}

/// Fires the timer of the work, the first one that has run out.
#[inline(always)]
fn fire_due<P: Parts>(going: &mut Going<P>, w: usize) -> Happened
    requires work { w < length going.old.scenario.works }
    requires few { w < MAX_WORKS }
    requires stamps { going.old.state.next < 2 ^ 60 }
    ensures state { going.new ≡ record going.old { state = (fired_first going.old.scenario going.old.state (Some w)).0 } }
    ensures happened { event_reply result ≡ (fired_first going.old.scenario going.old.state (Some w)).1 }
{
    going.fire(w);
    Happened {
        work: WorkId(w as u16),
        event: Event::Fires,
    }
}

/// Fires the first timer that has run out, if there is one.
fn fire_first<P: Parts>(going: &mut Going<P>) -> Result<Answer, Refusal>
    requires { going.old.state.next < 2 ^ 60 }
    ensures { Performs going.old instr.Fire going.new result }
{
    match going.parts.first_due() {
        Some(w) => Ok(Answer::Happened(fire_due(going, w))),
        None => Err(Refusal::NothingToDo),
    }
}

/// Lets the pool make its next move, if it has one.
fn step<P: Parts>(going: &mut Going<P>, pool: u8) -> Result<Answer, Refusal>
    requires time { going.old.state.time < 2 ^ 60 }
    requires stamps { going.old.state.next < 2 ^ 60 }
    ensures { Performs going.old (instr.Step pool) going.new result }
{
    match going.next_move(pool) {
        Some(next) => Ok(Answer::Happened(going.make_move::<true>(pool, next))),
        None => Err(Refusal::NothingToDo),
    }
}

/// Lets a tick pass, if nothing can happen without time: no timer is due, and no pool has a move.
fn tick_if_settled<P: Parts>(going: &mut Going<P>) -> Result<Answer, Refusal>
    requires { going.old.state.time < 2 ^ 60 }
    ensures { Performs going.old instr.Tick going.new result }
{
    if going.parts.first_due().is_some() {
        return Err(Refusal::Unsettled(Cause::Due));
    }
    match going.first_move() {
        Some((pool, _)) => Err(Refusal::Unsettled(Cause::Pool(pool))),
        None => {
            going.parts.pass(1);
            Ok(Answer::Done)
        }
    }
}

/// Nothing where what is gone on for has come, else as `next`.
fn next_unless<P: Parts>(going: &mut Going<P>, has_come: bool) -> Result<Answer, Refusal>
    requires time { going.old.state.time < 2 ^ 60 }
    requires stamps { going.old.state.next < 2 ^ 60 }
    ensures state { going.new ≡ record going.old { state = (next_unless going.old.scenario going.old.state has_come).0 } }
    ensures reply { answered going.new.state result ≡ Ok (next_unless going.old.scenario going.old.state has_come).1 }
{
    if has_come {
        return Ok(Answer::Done);
    }
    next_reply(going)
}

/// Fires a due timer, else lets the least pool that has a move make it, else ticks.
#[inline(never)]
fn next_reply<P: Parts>(going: &mut Going<P>) -> Result<Answer, Refusal>
    requires time { going.old.state.time < 2 ^ 60 }
    requires stamps { going.old.state.next < 2 ^ 60 }
    ensures { Performs going.old instr.Next going.new result }
{
    match next(going) {
        Some(happened) => Ok(Answer::Happened(happened)),
        None => Ok(Answer::Done),
    }
}

/// Fires a due timer, else lets the least pool that has a move make it, else ticks. Answers what happened: nothing where it ticked.
fn next<P: Parts>(going: &mut Going<P>) -> Option<Happened>
    requires time { going.old.state.time < 2 ^ 60 }
    requires stamps { going.old.state.next < 2 ^ 60 }
    ensures state { going.new ≡ record going.old { state = (next going.old.scenario going.old.state (first_due going.old.scenario going.old.state)).0 } }
    ensures happened { next_reply result ≡ (next going.old.scenario going.old.state (first_due going.old.scenario going.old.state)).1 }
{
    let happened = happen::<P, true>(going);
    if happened.is_none() {
        going.parts.pass(1);
    }
    happened
}

/// Fires a due timer, else lets the least pool that has a move make it. Answers what happened: nothing where the machine is settled.
#[inline(always)]
pub(crate) fn happen<P: Parts, const ALONE: bool>(going: &mut Going<P>) -> Option<Happened>
    requires time { going.old.state.time < 2 ^ 60 }
    requires stamps { going.old.state.next < 2 ^ 60 }
    ensures state { IfSome result (λ _. going.new ≡ record going.old { state = (next going.old.scenario going.old.state (first_due going.old.scenario going.old.state)).0 }) }
    ensures happened { IfSome result (λ happened. event_reply happened ≡ (next going.old.scenario going.old.state (first_due going.old.scenario going.old.state)).1) }
    ensures same { IfNone result (going.new ≡ going.old) }
    ensures settled { IfNone result (IsSettled going.old.scenario going.old.state) }
{
    if let Some(w) = going.parts.first_due() {
        return Some(fire_due(going, w));
    }
    let (pool, next) = going.first_move()?;
    Some(going.make_move::<ALONE>(pool, next))
}

/// Whether what the flush of this number waits for is done.
fn ask<P: Parts>(going: &mut Going<P>, flush: usize) -> Answer
    ensures same { going.new ≡ going.old }
    ensures reply { reply_in going.new.state result ≡ yes_or_no (is_done going.old.scenario going.old.state (target_at going.old.state flush)) }
{
    let target = flush_target(&going.parts, flush);
    Answer::yes_or_no(going.parts.is_done(target))
}
