//! Why a work that runs isn't further.
ghost use Rattle.cmwq_reasons.specs.Reasons.{reason_if_running, reason_of, reason_of_head, reason_of_running};
ghost use Rattle.cmwq_table.specs.State.{running_at};
ghost use Rattle.std.specs.Prelude.{◌≡◌};

use crate::going_first::{other_mover, work_above, work_before};
use crate::pending::pending_reason;
use cmwq_reasons::{Instance, Reason};
use cmwq_table::{Reads, Running};
use cmwq_types::{Mode, WorkId};

/// Why the instance isn't further, if there is such an instance. The reasons are this project's own.
pub fn reason_of<R: Reads>(machine: &R, instance: Instance) -> Option<Reason>
    ensures { result ≡ reason_of (R.loaded machine.now) (R.state machine.now) instance }
{
    match instance {
        Instance::Pending(w) => {
            machine.pending_of(w.0 as usize)?;
            Some(pending_reason(machine, w))
        }
        Instance::Running(w) => running_reason(machine, w),
    }
}

/// Why what runs of the work isn't further, if it runs. The reasons are this project's own.
pub fn running_reason<R: Reads>(machine: &R, w: WorkId) -> Option<Reason>
    ensures { result ≡ reason_if_running (R.loaded machine.now) (R.state machine.now) w.0 (running_at (R.state machine.now) w.0) }
{
    let r = machine.running_of(w.0 as usize)?;
    Some(reason_of_running(machine, w, r))
}

/// Why the work, which runs so, isn't further.
fn reason_of_running<R: Reads>(machine: &R, w: WorkId, r: Running) -> Reason
    ensures { result ≡ reason_of_running (R.loaded machine.now) (R.state machine.now) w.0 r }
{
    match r.mode {
        Mode::Runnable => match work_before(machine, w.0 as usize, r.pool) {
            Some(v) => Reason::Behind(WorkId(v as u16)),
            None => reason_of_head(machine, w, r),
        },
        Mode::Asleep(until) if machine.time() < until => Reason::Asleep(until),
        Mode::Asleep(_) => match other_mover(machine, r.pool, Instance::Running(w)) {
            Some(other) => Reason::WakesAfter(other),
            None => Reason::WakesNext,
        },
    }
}

/// Why the work isn't further, which is runnable, and which none goes before on its CPU.
fn reason_of_head<R: Reads>(machine: &R, w: WorkId, r: Running) -> Reason
    ensures { result ≡ reason_of_head (R.loaded machine.now) (R.state machine.now) w.0 r }
{
    if r.left != 0 {
        return match work_above(machine, r.pool) {
            Some(v) => Reason::HighHas(WorkId(v as u16)),
            None => Reason::Burns,
        };
    }
    match other_mover(machine, r.pool, Instance::Running(w)) {
        Some(other) => Reason::ReadyAfter(other),
        None => Reason::ReadyNext,
    }
}
