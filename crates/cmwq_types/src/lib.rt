//! The data types: scenarios, instructions, and the replies of a machine.
//!
//! Proved: `Scenario::check` returns the first fault of a scenario, or none. `copy` returns an equal scenario. An instruction is its word and its operands, and so is an operation.
//! Not proved: the texts of faults.
#![tactic(auto)]

mod by_name;
mod by_number;
mod check;
mod copying;
mod equality;
mod event_parts;
mod fields;
mod instr;
pub mod laws;
mod limits;
mod memory;
mod mnemonic;
mod moves;
mod name;
mod operation;
mod reply;
mod scenario;

pub use check::Fault;
pub use event_parts::{Object, Outcome, Verb};
pub use fields::{Fields, Shape, fields_of, instr_of, shape_of, word_of};
pub use instr::{Instr, QueueId, WorkId};
pub use limits::{
    MAX_ACTORS, MAX_CPUS, MAX_DEPTH, MAX_FLUSHES, MAX_HISTORY, MAX_LINES, MAX_MAX_ACTIVE, MAX_NAME,
    MAX_OPS, MAX_PASSES, MAX_QUEUES, MAX_STEPS, MAX_TEXT, MAX_TICKETS, MAX_TICKS, MAX_TIMES,
    MAX_WORKERS, MAX_WORKS, RESCUER,
};
pub use memory::{NoMemory, filled};
pub use mnemonic::Mnemonic;
pub use moves::Move;
pub use name::Name;
pub use operation::OpWord;
pub use reply::{Cause, Event, Mode, Place, Refusal, Reply, WorkRun, WorkState};
pub use scenario::{Actor, Flags, Line, Op, QueueDecl, Scenario, WorkDecl};
