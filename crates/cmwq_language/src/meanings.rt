//! What flags and instructions mean, and what stands behind an instruction's word.
ghost use Rattle.cmwq_language.specs.Meanings.{flag_meaning, flag_word, meaning, operand_names};
ghost use Rattle.std.specs.Prelude.{◌≡◌};

use cmwq_types::{Mnemonic, Shape};

/// A flag of queues. `spelling` of the specs is the table of them.
#[derive(Clone, Copy)]
pub(crate) enum QueueFlag {
    Highpri,
    Unbound,
    CpuIntensive,
    Freezable,
    Ordered,
    MemReclaim,
}

/// The flags, in the order of a listing.
pub(crate) const FLAGS: [QueueFlag; 6] = [
    QueueFlag::Highpri,
    QueueFlag::Unbound,
    QueueFlag::CpuIntensive,
    QueueFlag::Freezable,
    QueueFlag::Ordered,
    QueueFlag::MemReclaim,
];

impl QueueFlag {
    /// How it is spelled.
    pub(crate) fn as_str(self) -> &'static str
        ensures { result.now ≡ flag_word self }
    {
        match self {
            QueueFlag::Highpri => "highpri",
            QueueFlag::Unbound => "unbound",
            QueueFlag::CpuIntensive => "cpu_intensive",
            QueueFlag::Freezable => "freezable",
            QueueFlag::Ordered => "ordered",
            QueueFlag::MemReclaim => "mem_reclaim",
        }
    }

    /// What it means.
    pub(crate) fn meaning(self) -> &'static str
        ensures { result.now ≡ flag_meaning self }
    {
        match self {
            QueueFlag::Highpri =>
                ": its work items use high-priority pools, which come first on their CPU\n",
            QueueFlag::Unbound => {
                ": its work items use an unbound pool; each runnable one burns there\n"
            }
            QueueFlag::CpuIntensive =>
                ": its work items don't keep others of their pool from starting\n",
            QueueFlag::Freezable => ": activates nothing from freeze to thaw\n",
            QueueFlag::Ordered => ": unbound, one work item at a time, with max 1\n",
            QueueFlag::MemReclaim =>
                ": has a rescuer, which runs its work items if no worker can\n",
        }
    }
}

/// What stands behind a word of this shape.
pub fn operand_names(shape: Shape) -> &'static str
    ensures { result.now ≡ operand_names shape }
{
    match shape {
        Shape::Alone => "",
        Shape::Ticks => " N",
        Shape::Work => " WORK",
        Shape::WorkCpu => " WORK CPU",
        Shape::WorkTicks => " WORK N",
        Shape::WorkCpuTicks => " WORK CPU N",
        Shape::Queue => " QUEUE",
        Shape::QueueNumber => " QUEUE N",
        Shape::Pool => " POOL",
        Shape::Flush => " F",
        Shape::Time => " N",
    }
}

/// What the instruction of this word does.
pub(crate) fn meaning(word: Mnemonic) -> &'static str
    ensures { result.now ≡ meaning word }
{
    match word {
        Mnemonic::Queue => ": queues it on a CPU, unless it is pending\n",
        Mnemonic::Delay => ": queues it in N ticks, unless it is pending\n",
        Mnemonic::Mod => ": as delay, and replaces an earlier request\n",
        Mnemonic::Cancel => ": takes it off, if it is pending\n",
        Mnemonic::CancelSync => ": as cancel, and gives a flush of the instance that runs\n",
        Mnemonic::Flush => ": gives a flush of its queued instance, or else of the running one\n",
        Mnemonic::FlushDelayed => ": queues it if it is on a timer, and then does as flush\n",
        Mnemonic::FlushQueue => ": gives a flush of all that was queued to it\n",
        Mnemonic::SetMax => ": changes its max_active\n",
        Mnemonic::Freeze => ": freezable queues activate nothing\n",
        Mnemonic::Thaw => ": ends freeze\n",
        Mnemonic::Fire => ": the first timer that is due queues its work item\n",
        Mnemonic::Step => ": one move of the pool\n",
        Mnemonic::Tick => ": a tick passes, if nothing can move\n",
        Mnemonic::Next => ": fire, else a move of the least pool that has one, else a tick\n",
        Mnemonic::Ask => ": prints whether flush F is done\n",
        Mnemonic::Busy => ": prints whether a freezable queue has an active work item\n",
        Mnemonic::State => ": prints its state\n",
        Mnemonic::Disable => ": takes it off, and refuses to queue it until enabled as often\n",
        Mnemonic::Enable => ": takes one disable back\n",
        Mnemonic::Pressure => ": memory is short: no worker is made\n",
        Mnemonic::Relief => ": ends pressure\n",
        Mnemonic::Until => ": next while the time is below N, else nothing\n",
        Mnemonic::Wait => ": next while flush F isn't done, else nothing\n",
        Mnemonic::Quiet => ": next while a work item is pending or running, else nothing\n",
    }
}
