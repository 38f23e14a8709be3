//! What a machine is: a body that carries out the instruction table.
ghost use Rattle.cmwq_table.specs.Counts.{first_due};
ghost use Rattle.cmwq_table.specs.Moves.{first_moving};
ghost use Rattle.cmwq_table.specs.State.{start};
ghost use Rattle.cmwq_table.specs.Machine.{Loads};
ghost use Rattle.cmwq_table.specs.Repeats.{HasAnswered, HasGone, HasRepeated, reply_of};
ghost use Rattle.cmwq_table.specs.Table.{table};
ghost use Rattle.cmwq_types.specs.Faults.{IsValid};
ghost use Rattle.cmwq_table.specs.View.{view_of};
ghost use Rattle.std.specs.Prelude.{◌≡◌, ◌&&◌, ◌<◌, IfOk, is_none};

use crate::reads::Reads;
use crate::view::View;
use cmwq_types::{Event, Fault, Instr, NoMemory, Refusal, Reply, Scenario, WorkId};
use std::alloc::{AllocError, Global};
use std::sync::Arc;
use thiserror::Error;

/// Why a scenario wasn't loaded.
#[derive(Clone, Copy, Debug, PartialEq, Eq, Error)]
pub enum LoadError {
    /// The scenario isn't valid. This is judged before memory is asked for.
    #[error("{0}")]
    Fault(Fault),
    /// Memory ran out.
    #[error("no memory")]
    NoMemory,
}

/// What a machine did by itself, and the work that it did it to.
#[derive(Clone, Copy, PartialEq, Eq)]
pub struct Happened {
    /// The work that was moved.
    pub work: WorkId,
    /// What happened to it.
    pub event: Event,
}

/// How a `next` came out.
#[derive(Clone, Copy, PartialEq, Eq)]
pub enum Went {
    /// This happened to a work.
    Happened(Happened),
    /// A tick passed, which has no line.
    Ticked,
    /// It was refused, since the steps are spent.
    Spent,
}

impl Happened {
    /// The reply that tells it.
    #[inline(always)]
    pub fn reply(self) -> Reply
        ensures { result ≡ reply_of (Went.Happened self) }
    {
        Reply::Event {
            work: self.work,
            event: self.event,
        }
    }
}

impl Went {
    /// The reply that tells it.
    pub fn reply(self) -> Reply
        ensures { result ≡ reply_of self }
    {
        match self {
            Went::Happened(happened) => happened.reply(),
            Went::Ticked => Reply::Done,
            Went::Spent => Reply::Refused(Refusal::Spent),
        }
    }
}

/// A machine that carries out the instruction table on a scenario, and answers what is asked of its state.
///
/// Every machine answers alike, however it keeps its state. The table is this project's profile of
/// the kernel's workqueue.
pub trait Machine: Reads + Drop {
    /// A machine in the scenario's start state, with room for all that can come.
    ///
    /// Answers `Fault` exactly where the scenario has one, and else may answer `NoMemory`.
    fn load(alloc: Global, scenario: &Scenario) -> Result<Self, LoadError>
        ensures { Loads Self.loaded Self.state scenario.now result };

    /// A machine in the start state of a scenario that is known to be valid, with room for all that can
    /// come. The scenario is shared, and isn't judged again.
    fn begin(alloc: Global, scenario: Arc<Scenario>) -> Result<Self, NoMemory>
        requires { IsValid scenario.value }
        ensures scenario { IfOk result (λ machine. Self.loaded machine ≡ scenario.value) }
        ensures state { IfOk result (λ machine. Self.state machine ≡ start scenario.value) };

    /// Carries out one instruction, and answers it. It takes no memory.
    ///
    /// Where it answers `Refused` nothing has changed. Refusals are judged in this order: operands, from left
    /// to right (numbers that nothing has, and a `max` outside 1 to 512); then `Spent`; then what the state
    /// doesn't allow.
    fn exec(&mut self, instr: Instr) -> Reply
        ensures exact { (Self.state self.new, result) ≡ table (Self.loaded self.old) (Self.state self.old) instr }
        ensures scenario { Self.loaded self.new ≡ Self.loaded self.old };

    /// Carries out `next` until a reply has a line, at least once and at most so many times. Answers how often that was, and how the last
    /// one came out. It takes no memory.
    fn go(&mut self, most: u32) -> (u32, Went)
        requires some { 0 < most }
        ensures gone { HasGone (Self.loaded self.old) (Self.state self.old) most result.0 (Self.state self.new) (reply_of result.1) }
        ensures scenario { Self.loaded self.new ≡ Self.loaded self.old };

    /// Carries out again, at most so many times, the instruction that was the last and was answered so, as long as it comes out the same: it
    /// is answered the same, and no time passes. Answers how often that was; a machine that doesn't know may answer 0.
    fn again(&mut self, instr: Instr, reply: Reply, most: u32) -> u32
        requires answered { HasAnswered (Self.loaded self.old) (Self.state self.old) instr reply }
        ensures repeated { HasRepeated (Self.loaded self.old) (Self.state self.old) instr reply most result (Self.state self.new) }
        ensures scenario { Self.loaded self.new ≡ Self.loaded self.old }
    {
        let _ = (instr, reply, most);
        0
    }

    /// A machine in the same state, with the same room, and independent of this one but for the scenario,
    /// which they share.
    fn copy(&self) -> Result<Self, NoMemory>
        ensures scenario { IfOk result (λ copy. Self.loaded copy ≡ Self.loaded self.now) }
        ensures state { IfOk result (λ copy. Self.state copy ≡ Self.state self.now) };

    /// Every part of the state.
    fn look(&self) -> Result<View, NoMemory>
        ensures view { IfOk result (λ view. view ≡ view_of (Self.state self.now)) };

    /// Whether nothing can happen without time: no timer is due, and no pool has a move.
    fn is_settled(&self) -> bool
        ensures { result ≡ (is_none (first_due (Self.loaded self.now) (Self.state self.now)) && is_none (first_moving (Self.loaded self.now) (Self.state self.now))) };

    /// The time, in ticks since the scenario was loaded.
    fn now(&self) -> u64
        ensures { result ≡ (Self.state self.now).time };
}
