//! The instructions of the machine.

/// The number of a queue, from 0 in the order of declaration. There are at most 32.
#[derive(Clone, Copy, PartialEq, Eq)]
pub struct QueueId(pub u8);

/// The number of a work, from 0 in the order of declaration. There are at most 256.
#[derive(Clone, Copy, PartialEq, Eq)]
pub struct WorkId(pub u16);

/// One instruction: what an actor may ask of the machine.
///
/// Its operands are judged when it is carried out; an operand out of range is refused. Each instruction is also
/// refused, as `Spent`, where the scenario's `steps` are spent: but for the three questions `Ask`, `Busy` and
/// `State`, and `Until`, `Wait` and `Quiet` where they do nothing.
/// The instructions are calls of the kernel's, as each says; their refusals are this project's own.
#[derive(Clone, Copy, PartialEq, Eq)]
pub enum Instr {
    /// Queues the work on the CPU, as the kernel's `queue_work_on` does. A pending work stays as it is.
    ///
    /// Refused where there is no such work, the CPU isn't below `cpus`, or the work is disabled.
    Queue(WorkId, u8),
    /// Queues the work on the CPU after so many ticks, as the kernel's `queue_delayed_work_on` does. A
    /// pending work stays as it is, and a delay of 0 queues at once.
    ///
    /// Refused as `Queue` is.
    Delay(WorkId, u8, u32),
    /// The same, but a pending work is taken off first, as by the kernel's `mod_delayed_work_on`.
    ///
    /// Refused as `Queue` is.
    Mod(WorkId, u8, u32),
    /// Takes a pending work off, as the kernel's `cancel_work` does.
    ///
    /// Refused where there is no such work.
    Cancel(WorkId),
    /// The same, and gives a flush on the running instance of the work: the kernel's
    /// `cancel_work_sync` waits for that.
    ///
    /// Refused where there is no such work, or no further flush can be given.
    CancelSync(WorkId),
    /// Gives a flush on the last instance of the work that was queued, as the kernel's `flush_work`
    /// waits for it. A work whose timer runs isn't placed yet.
    ///
    /// Refused as `CancelSync` is.
    Flush(WorkId),
    /// Ends the timer of the work, if it has one, and places the work; then as `Flush`. The kernel's
    /// `flush_delayed_work`.
    ///
    /// Refused as `CancelSync` is.
    FlushDelayed(WorkId),
    /// Gives a flush on what was queued on the queue so far, as the kernel's `flush_workqueue` waits
    /// for it.
    ///
    /// Refused where there is no such queue, or no further flush can be given.
    FlushQueue(QueueId),
    /// Sets the queue's `max`, as the kernel's `workqueue_set_max_active` does: of each pool the works
    /// that have room now are activated, and nothing that is active is thrown out.
    ///
    /// Refused where there is no such queue, the number is outside 1 to 512, or the queue is ordered.
    SetMax(QueueId, u32),
    /// Freezes the machine, as the kernel's `freeze_workqueues_begin` does: nothing of a freezable queue
    /// is activated until the thaw. What is on a worklist already is still started.
    ///
    /// Refused where it is frozen already.
    Freeze,
    /// Thaws the machine, as the kernel's `thaw_workqueues` does, and activates the works of freezable
    /// queues that have room. Refused where it isn't frozen.
    Thaw,
    /// Fires the first timer that has run out. Refused where there is none.
    Fire,
    /// Lets the worker pool of this number make its move.
    ///
    /// On N CPUs the pools are 0 to 2N + 1: of CPU c the normal pool 2c and the high pool 2c + 1, then
    /// the unbound normal one and the unbound high one.
    ///
    /// Refused where there is no such pool, or the pool has no move.
    Step(u8),
    /// Lets one tick of time pass. It is refused while anything could happen without time.
    Tick,
    /// Fires a due timer, else steps the least pool that has a move, else ticks.
    Next,
    /// Asks whether the flush of this number is done. Refused where no such flush was given.
    Ask(u16),
    /// Asks whether a freezable queue has an active work, as the kernel's `freeze_workqueues_busy` does.
    Busy,
    /// Asks where the work is. Refused where there is no such work.
    State(WorkId),
    /// Takes a pending work off, and disables the work once more: it isn't queued any more until it was enabled as
    /// often. A running instance goes on. The kernel's `disable_work`, from Linux 6.10 on, counts and takes off too.
    ///
    /// Refused where there is no such work, or it was disabled 65,535 times more often than enabled.
    Disable(WorkId),
    /// Takes back one `Disable`, and answers whether the work can be queued again, as the kernel's `enable_work`
    /// does, from Linux 6.10 on. It queues nothing.
    ///
    /// Refused where there is no such work, or it isn't disabled.
    Enable(WorkId),
    /// Makes memory short: no pool makes a worker until the `Relief`. It stands for what befalls a kernel, which has
    /// no such call.
    ///
    /// Refused where memory is short already.
    Pressure,
    /// Ends the shortage of memory. Refused where there is none.
    Relief,
    /// Does nothing, and isn't spent, where the time is at or past this tick; else as `Next`.
    ///
    /// This project's own, as `Next` is: a kernel's clock goes on by itself.
    Until(u32),
    /// Does nothing, and isn't spent, where the flush of this number is done; else as `Next`. It is how a caller of
    /// the kernel's `flush_work` waits: what else there is goes on meanwhile.
    ///
    /// Refused where no such flush was given.
    Wait(u16),
    /// Does nothing, and isn't spent, where no work is pending and none runs; else as `Next`.
    ///
    /// This project's own. A kernel's `drain_workqueue` waits for the works of one queue so, but for those on timers.
    Quiet,
}
