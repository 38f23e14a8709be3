//! What a debugger can be told, and what it says.

use cmwq_types::{NoMemory, WorkId};
use thiserror::Error;

/// A command. The position is how many instructions of the list have been carried out.
#[derive(Clone, Copy, PartialEq, Eq)]
pub enum Command {
    /// Goes forward by so many instructions. Refused, as `PastEnd`, where the list hasn't so many more.
    Step(u32),
    /// Goes back by so many instructions. Refused, as `PastStart`, where fewer were carried out.
    Back(u32),
    /// Goes to the position. Refused, as `PastEnd`, where it is above the list's length.
    Goto(u32),
    /// Makes a break on each event of the kind of the work: of the work that moved, not of one that it
    /// queues or takes off.
    ///
    /// Refused, as `NoSuchWork`, where no work has the number, and then, as `TooManyBreaks`, where there
    /// are [`crate::MAX_BREAKS`] breaks.
    BreakWork { work: WorkId, event: EventKind },
    /// Makes a break on the instruction that makes the time this tick. Refused, as `TooManyBreaks`, where
    /// there are [`crate::MAX_BREAKS`] breaks.
    BreakTime(u32),
    /// Makes a break on each refused instruction. Refused as `BreakTime` is.
    BreakRefusal,
    /// Makes a break on each instruction that activates the work: its pending instance was inactive and is listed.
    /// One that is listed as it is placed isn't activated. Refused as `BreakWork` is.
    BreakActivation(WorkId),
    /// Tells the breaks.
    List,
    /// Removes the break. Refused, as `NoSuchBreak`, where no break has the number.
    Clear(u8),
    /// Goes forward by at least one instruction, up to the first after which a break matches, or to the
    /// end. Refused, as `PastEnd`, at the end.
    Run,
    /// Goes forward by at least one instruction, up to the first for which `run` prints a line, or to the end. Breaks don't count.
    /// Refused, as `PastEnd`, at the end.
    NextEvent,
    /// Tells the state.
    Dump,
    /// Tells of the state what is in the worker pool. Refused, as `NoSuchPool`, where no pool has the number.
    DumpPool(u8),
    /// Tells why the work isn't further in the state. Refused, as `NoSuchWork`, where no work has the number.
    Why(WorkId),
    /// Tells of the state what the flush of this number waits for, and why. Refused, as `NoSuchFlush`, where no such
    /// flush was given by the position.
    WhyFlush(u32),
}

/// A kind of event. An event `FinishesAndStarts` is of two kinds.
#[derive(Clone, Copy, PartialEq, Eq)]
pub enum EventKind {
    /// A worker or a rescuer takes the work from the worklist, or starts its deferred instance.
    Starts,
    /// It begins to burn CPU time.
    Burns,
    /// It goes to sleep.
    Sleeps,
    /// Its sleep is over.
    Wakes,
    /// It comes to the end of its body.
    Finishes,
    /// Its turn comes while it still runs.
    Defers,
    /// Its timer fires.
    Fires,
    /// It queues a work, or finds it pending or disabled.
    Queues,
    /// It queues a work after some ticks, or finds it pending or disabled.
    Delays,
    /// It queues a work anew after some ticks, or finds it disabled.
    Mods,
    /// It takes a work off, or finds it not pending.
    Cancels,
}

/// What a debugger says to a command that it carried out.
#[derive(Drop)]
pub enum Said {
    /// It stands at the position, where the time in ticks is `now`. A run was stopped `by` this break.
    At {
        position: u32,
        now: u64,
        by: Option<u8>,
    },
    /// The break has this number.
    Broke(u8),
    /// The break of this number is removed.
    Cleared(u8),
    /// The dump text, a pool's part of it, why a work isn't further or a flush isn't done, or the breaks, as bytes.
    Text(Vec<u8>),
}

/// Why a command wasn't carried out. Position and breaks are as before.
#[derive(Clone, Copy, Debug, PartialEq, Eq, Error)]
pub enum DebugError {
    /// No work has the number.
    #[error("NoSuchWork")]
    NoSuchWork,
    /// No worker pool has the number.
    #[error("NoSuchPool")]
    NoSuchPool,
    /// No flush of the number was given by the position.
    #[error("NoSuchFlush")]
    NoSuchFlush,
    /// No break has the number.
    #[error("NoSuchBreak")]
    NoSuchBreak,
    /// The list of instructions ends before.
    #[error("PastEnd")]
    PastEnd,
    /// The list of instructions begins after.
    #[error("PastStart")]
    PastStart,
    /// There are [`crate::MAX_BREAKS`] breaks.
    #[error("TooManyBreaks")]
    TooManyBreaks,
    /// Memory ran out.
    #[error("no memory")]
    NoMemory,
}

impl From<NoMemory> for DebugError {
    ghost use Rattle.std.specs.Prelude.{◌≡◌};
    ghost use Rattle.cmwq_debug.specs.declared.command.DebugError.TheVariants.{NoMemory as no_memory};

    ghost from_gives = { λ _ e. e ≡ no_memory };

    fn from(_refused: NoMemory) -> DebugError {
        DebugError::NoMemory
    }
}
