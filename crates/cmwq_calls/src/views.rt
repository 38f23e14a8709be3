//! Prints a machine's whole state.

use crate::showing::say;
use cmwq_play::PlayError;
use cmwq_table::{FlushTarget, IdleWorker, Machine, Pending, PlaceWords, Running, View};
use cmwq_types::{Mode, Place, WorkId};

/// Prints a machine's whole state.
pub(crate) fn show_machine<M: Machine, R: Print>(rt: &R, machine: &M) -> Result<(), PlayError> {
    let view = machine.look()?;
    show_view(rt, &view)
}

/// Prints each part of a view, with lines of its own for each work item, idle worker and flush.
pub(crate) fn show_view<R: Print>(rt: &R, view: &View) -> Result<(), PlayError> {
    let View {
        time,
        next,
        spent,
        frozen,
        pressed,
        max,
        pending,
        running,
        depth,
        idle,
        made,
        flushes,
    } = view;
    say(rt, format_args!("time {time} next {next} spent {spent}"))?;
    say(rt, format_args!("frozen {frozen} pressed {pressed}"))?;
    say(
        rt,
        format_args!("max {max:?} depth {depth:?} made {made:?}"),
    )?;
    show_works(rt, pending, running)?;
    show_waits(rt, idle, flushes)
}

/// Prints the pending and the running work items.
fn show_works<R: Print>(
    rt: &R,
    pending: &[(WorkId, Pending)],
    running: &[(WorkId, Running)],
) -> Result<(), PlayError> {
    for (work, pending) in pending {
        show_pending(rt, *work, *pending)?;
    }
    for (work, running) in running {
        show_running(rt, *work, *running)?;
    }
    Ok(())
}

/// Prints the idle workers, and what the flushes wait for.
fn show_waits<R: Print>(
    rt: &R,
    idle: &[IdleWorker],
    flushes: &[FlushTarget],
) -> Result<(), PlayError> {
    for worker in idle {
        show_idle(rt, *worker)?;
    }
    for target in flushes {
        show_flush(rt, *target)?;
    }
    Ok(())
}

/// Prints a pending work item.
fn show_pending<R: Print>(rt: &R, work: WorkId, pending: Pending) -> Result<(), PlayError> {
    let Pending { born, stamp, place } = pending;
    let work = work.0;
    say(rt, format_args!("pending {work} born {born} stamp {stamp}"))?;
    match place {
        Place::Timer { due, cpu } => say(rt, format_args!("timer {due} cpu {cpu}")),
        _ => say(rt, PlaceWords(Some(place))),
    }
}

/// Prints a running work item.
fn show_running<R: Print>(rt: &R, work: WorkId, running: Running) -> Result<(), PlayError> {
    let Running {
        born,
        pool,
        worker,
        pc,
        left,
        mode,
        stamp,
    } = running;
    let work = work.0;
    say(rt, format_args!("running {work} born {born} stamp {stamp}"))?;
    say(rt, format_args!("on {pool}/{worker} pc {pc} left {left}"))?;
    match mode {
        Mode::Runnable => say(rt, "runnable"),
        Mode::Asleep(until) => say(rt, format_args!("asleep {until}")),
    }
}

/// Prints an idle worker.
fn show_idle<R: Print>(rt: &R, idle: IdleWorker) -> Result<(), PlayError> {
    let IdleWorker {
        pool,
        worker,
        stamp,
    } = idle;
    say(rt, format_args!("idle {pool}/{worker} stamp {stamp}"))
}

/// Prints what a flush waits for.
fn show_flush<R: Print>(rt: &R, target: FlushTarget) -> Result<(), PlayError> {
    match target {
        FlushTarget::Instance { work, born } => {
            let work = work.0;
            say(rt, format_args!("flush of work {work} born {born}"))
        }
        FlushTarget::Queue { queue, bound } => {
            let queue = queue.0;
            say(rt, format_args!("flush of queue {queue} before {bound}"))
        }
        FlushTarget::Nothing => say(rt, "flush of nothing"),
    }
}
