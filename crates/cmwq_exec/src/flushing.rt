//! The instructions that give a flush, and what each one is on.
ghost use Rattle.cmwq_exec.specs.Performing.{Performs};
ghost use Rattle.cmwq_table.specs.Moves.{last_instance, running_instance};
ghost use Rattle.cmwq_table.specs.State.{pending_at, running_at};
ghost use Rattle.cmwq_table.specs.Table.{no_more_flushes};
ghost use Rattle.cmwq_types.specs.declared.instr.Instr.TheVariants as instr;
ghost use Rattle.std.specs.Prelude.{◌≡◌, ◌<◌, ◌^◌, IfErr, IfOk, None, Some, length};

use crate::answer::Answer;
use cmwq_parts::{Going, Parts};
use cmwq_table::FlushTarget;
use cmwq_types::{QueueId, Refusal, WorkId};

/// The number of the next flush, if a further one can be given.
fn next_flush<P: Parts>(going: &Going<P>) -> Result<u16, Refusal>
    ensures room { IfOk result (λ _. length going.now.state.flushes < going.now.scenario.flushes) }
    ensures number { IfOk result (λ flush. flush ≡ length going.now.state.flushes) }
    ensures given { IfOk result (λ _. no_more_flushes going.now.scenario going.now.state ≡ None) }
    ensures refused { IfErr result (λ why. no_more_flushes going.now.scenario going.now.state ≡ Some why) }
{
    let count = going.parts.flush_count();
    if count < going.parts.scenario().flushes as usize {
        Ok(count as u16)
    } else {
        Err(Refusal::TooManyFlushes)
    }
}

/// Takes a pending work off, and gives a flush on the running instance.
pub(crate) fn cancel_sync<P: Parts>(going: &mut Going<P>, w: WorkId) -> Result<Answer, Refusal>
    requires work { w.0 < length going.old.scenario.works }
    requires stamps { going.old.state.next < 2 ^ 60 }
    ensures { Performs going.old (instr.CancelSync w) going.new result }
{
    let flush = next_flush(going)?;
    let was = going.parts.pending_of(w.0 as usize).is_some();
    going.take_off(w.0 as usize);
    let target = running_instance(going, w);
    going.parts.push_flush(target);
    Ok(Answer::Sync { was, flush })
}

/// Gives a flush on the last instance of the work.
pub(crate) fn flush_last<P: Parts>(going: &mut Going<P>, w: WorkId) -> Result<Answer, Refusal>
    ensures { Performs going.old (instr.Flush w) going.new result }
{
    let flush = next_flush(going)?;
    let target = last_instance(going, w);
    going.parts.push_flush(target);
    Ok(Answer::Flush(flush))
}

/// Fires the work's timer, if it has one, and gives a flush on its last instance.
pub(crate) fn flush_delayed<P: Parts>(going: &mut Going<P>, w: WorkId) -> Result<Answer, Refusal>
    requires work { w.0 < length going.old.scenario.works }
    requires stamps { going.old.state.next < 2 ^ 60 }
    ensures { Performs going.old (instr.FlushDelayed w) going.new result }
{
    next_flush(going)?;
    going.fire(w.0 as usize);
    flush_last(going, w)
}

/// Gives a flush on what was queued on the queue so far.
pub(crate) fn flush_queue<P: Parts>(going: &mut Going<P>, queue: QueueId) -> Result<Answer, Refusal>
    ensures { Performs going.old (instr.FlushQueue queue) going.new result }
{
    let flush = next_flush(going)?;
    let bound = going.parts.next_stamp();
    going.parts.push_flush(FlushTarget::Queue { queue, bound });
    Ok(Answer::Flush(flush))
}

/// The running instance of the work, by its birth, as what a flush waits for; nothing where it
/// doesn't run.
fn running_instance<P: Parts>(going: &Going<P>, w: WorkId) -> FlushTarget
    ensures { result ≡ running_instance w.0 (running_at going.now.state w.0) }
{
    match going.parts.running_of(w.0 as usize) {
        Some(r) => FlushTarget::Instance {
            work: w,
            born: r.born,
        },
        None => FlushTarget::Nothing,
    }
}

/// The last instance of the work, by its birth, as what a flush waits for: the one placed in a
/// pool, else the running one, else nothing. A timer's instance isn't placed yet.
fn last_instance<P: Parts>(going: &Going<P>, w: WorkId) -> FlushTarget
    ensures { result ≡ last_instance w.0 (pending_at going.now.state w.0) (running_at going.now.state w.0) }
{
    match going.parts.pending_of(w.0 as usize) {
        Some(p) if p.place.is_placed() => FlushTarget::Instance {
            work: w,
            born: p.born,
        },
        _ => running_instance(going, w),
    }
}
