//! The calls of either body of the machine, and of what stands on one.

use crate::debugging::{Asked, try_command, try_open};
use crate::engines::{EngineCall, try_engine};
use crate::history::show_history;
use crate::machines::{MachineCall, try_machine};
use cmwq_play::PlayError;
use cmwq_table::Machine;
use std::alloc::Global;

/// A call, by what it is made on.
#[derive(Clone, Copy)]
pub(crate) enum BodyCall {
    /// The history of the scenario's instructions, on both bodies.
    History,
    /// A call of the other body.
    Other(MachineCall),
    Machine(MachineCall),
    Engine(EngineCall),
    OpenDebugger,
    Debugger(Asked),
}

/// Makes a call of a machine of the scenario of this text, or of what stands on it.
pub(crate) fn try_body<M: Machine, Other: Machine, R: Print>(
    rt: &R,
    alloc: Global,
    call: BodyCall,
    text: &[u8],
) -> Result<(), PlayError> {
    match call {
        BodyCall::History => show_history::<M, Other, R>(rt, alloc, text),
        BodyCall::Other(call) => try_machine::<Other, R>(rt, alloc, call, text),
        BodyCall::Machine(call) => try_machine::<M, R>(rt, alloc, call, text),
        BodyCall::Engine(call) => try_engine::<M, R>(rt, alloc, call, text),
        BodyCall::OpenDebugger => try_open::<M, R>(rt, alloc, text),
        BodyCall::Debugger(asked) => try_command::<M, R>(rt, alloc, asked, text),
    }
}
