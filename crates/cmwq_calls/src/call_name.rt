//! The calls, by their names.

use crate::bodies::BodyCall;
use crate::debugging::{Asked, Way};
use crate::engines::EngineCall;
use crate::machines::MachineCall;
use crate::stores::StoreCall;
use crate::streams::StreamCall;
use crate::texts::TextCall;
use cmwq_debug::{Command, EventKind};
use cmwq_types::WorkId;

/// A call, by what it is made on.
#[derive(Clone, Copy)]
pub(crate) enum CallName {
    Text(TextCall),
    Lists(StoreCall),
    Timers(StoreCall),
    On(BodyCall),
    Stream(StreamCall),
    Debug,
    Play,
}

/// The word for a history.
const HISTORY: &str = "history";

/// The call of this name, if there is one.
pub(crate) fn call_of(word: &str) -> Option<CallName> {
    if word == HISTORY {
        return Some(CallName::On(BodyCall::History));
    }
    match word {
        "Lists::new" => Some(CallName::Lists(StoreCall::New)),
        "Lists::copy" => Some(CallName::Lists(StoreCall::Copy)),
        "Timers::new" => Some(CallName::Timers(StoreCall::New)),
        "Timers::copy" => Some(CallName::Timers(StoreCall::Copy)),
        "debug" => Some(CallName::Debug),
        "play" => Some(CallName::Play),
        _ => call_with_text(word),
    }
}

/// The call of this name that is made with a scenario's text, if there is one.
fn call_with_text(word: &str) -> Option<CallName> {
    if let Some(call) = text_call_of(word) {
        return Some(CallName::Text(call));
    }
    if let Some(call) = body_call_of(word) {
        return Some(CallName::On(call));
    }
    Some(CallName::Stream(stream_call_of(word)?))
}

fn text_call_of(word: &str) -> Option<TextCall> {
    match word {
        "Scenario::copy" => Some(TextCall::Copy),
        "assemble" => Some(TextCall::Assemble),
        "read_text" => Some(TextCall::ReadText),
        "list" => Some(TextCall::List),
        "read" => Some(TextCall::Read),
        "write" => Some(TextCall::Write),
        _ => None,
    }
}

fn body_call_of(word: &str) -> Option<BodyCall> {
    if let Some(call) = plain_call_of(word) {
        return Some(BodyCall::Other(call));
    }
    if let Some(call) = core_call_of(word) {
        return Some(BodyCall::Machine(call));
    }
    if let Some(call) = engine_call_of(word) {
        return Some(BodyCall::Engine(call));
    }
    match word {
        "Debugger::open" => Some(BodyCall::OpenDebugger),
        _ => Some(BodyCall::Debugger(asked_of(word)?)),
    }
}

fn plain_call_of(word: &str) -> Option<MachineCall> {
    match word {
        "Plain::load" => Some(MachineCall::Load),
        "Plain::copy" => Some(MachineCall::Copy),
        "Plain::look" => Some(MachineCall::Look),
        _ => None,
    }
}

fn core_call_of(word: &str) -> Option<MachineCall> {
    match word {
        "Core::load" => Some(MachineCall::Load),
        "Core::copy" => Some(MachineCall::Copy),
        "Core::look" => Some(MachineCall::Look),
        "dump_text" => Some(MachineCall::Dump),
        _ => None,
    }
}

fn engine_call_of(word: &str) -> Option<EngineCall> {
    match word {
        "Engine::open" => Some(EngineCall::Open),
        "Shared::open" => Some(EngineCall::OpenShared),
        "TicketLock::open" => Some(EngineCall::OpenLock),
        _ => None,
    }
}

/// What the debugger is told, by the name of its command.
fn asked_of(word: &str) -> Option<Asked> {
    match word {
        "Step" => Some(Asked::Going(Way::Step)),
        "Back" => Some(Asked::Going(Way::Back)),
        "Goto" => Some(Asked::Going(Way::Goto)),
        "Goto-copy" => Some(Asked::Going(Way::GotoCopy)),
        "Run" => Some(Asked::Going(Way::Run)),
        "NextEvent" => Some(Asked::Going(Way::NextEvent)),
        _ => Some(Asked::There(command_of(word)?)),
    }
}

fn command_of(word: &str) -> Option<Command> {
    match word {
        "BreakWork" => Some(Command::BreakWork {
            work: WorkId(1),
            event: EventKind::Finishes,
        }),
        "BreakTime" => Some(Command::BreakTime(9)),
        "BreakRefusal" => Some(Command::BreakRefusal),
        "BreakActivation" => Some(Command::BreakActivation(WorkId(1))),
        "List" => Some(Command::List),
        "Clear" => Some(Command::Clear(1)),
        "Dump" => Some(Command::Dump),
        "DumpPool" => Some(Command::DumpPool(0)),
        "Why" => Some(Command::Why(WorkId(1))),
        "WhyFlush" => Some(Command::WhyFlush(0)),
        _ => None,
    }
}

fn stream_call_of(word: &str) -> Option<StreamCall> {
    match word {
        "run" => Some(StreamCall::Run),
        "list_text" => Some(StreamCall::ListText),
        "to_image" => Some(StreamCall::ToImage),
        "from_image" => Some(StreamCall::FromImage),
        _ => None,
    }
}
