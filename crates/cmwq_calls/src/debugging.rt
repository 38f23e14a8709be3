//! The debugger: opened, and each of its commands.

use crate::instructions::{actor_instrs, count_of};
use crate::showing::{say, show_bytes};
use crate::trying::{Tried, try_call};
use cmwq_asm::assemble;
use cmwq_debug::{Command, DebugError, Debugger, EventKind, Said};
use cmwq_play::PlayError;
use cmwq_table::Machine;
use cmwq_types::{Instr, MAX_HISTORY, Scenario, WorkId};
use std::alloc::Global;
use std::marker::PhantomData;

/// What the debugger is told.
#[derive(Clone, Copy)]
pub(crate) enum Asked {
    /// To go somewhere.
    Going(Way),
    /// A command for which it needs not move.
    There(Command),
}

/// A command by which the debugger goes somewhere.
#[derive(Clone, Copy)]
pub(crate) enum Way {
    /// Over positions at which machines are copied.
    Step,
    /// To a position behind such a copy.
    Back,
    /// To a position before the first copy.
    Goto,
    /// Forward to a position behind a copy.
    GotoCopy,
    /// To the end, over positions at which machines are copied.
    Run,
    /// To the next instruction that prints a line, or to the end, over such positions.
    NextEvent,
}

/// The breaks that are there before the command.
const BREAKS: [Command; 3] = [
    Command::BreakWork {
        work: WorkId(9),
        event: EventKind::Fires,
    },
    Command::BreakTime(60),
    Command::BreakRefusal,
];

/// A scenario, its actor's instructions, and the copy of them that the next debugger takes.
#[derive(Drop)]
struct Opening<'s, M> {
    scenario: &'s Scenario,
    instrs: &'s [Instr],
    given: Option<Vec<Instr>>,
    machine: PhantomData<M>,
}

impl<M: Machine> Tried for Opening<'_, M> {
    type Answer = Debugger<M>;

    fn prepare(&mut self, alloc: Global) -> Result<(), PlayError> {
        self.given = Some(Vec::from_slice(alloc, self.instrs)?);
        Ok(())
    }

    fn call(&mut self, alloc: Global) -> Result<Debugger<M>, PlayError> {
        let given = self.given.take().ok_or(PlayError::Full)?;
        opened(alloc, self.scenario, given)
    }

    fn show_answer<R: Print>(
        &mut self,
        rt: &R,
        _alloc: Global,
        mut answer: Debugger<M>,
    ) -> Result<(), PlayError> {
        show_debugger(rt, &mut answer)
    }
}

/// Prints where the debugger stands, where it comes to on its way to the end, and the state there.
fn show_debugger<M: Machine, R: Print>(
    rt: &R,
    debugger: &mut Debugger<M>,
) -> Result<(), PlayError> {
    show_place(rt, debugger)?;
    show_way(rt, debugger)?;
    show_said(rt, obey(debugger, Command::Dump)?)
}

/// A debugger, and a command for it.
#[derive(Drop)]
struct Commanded<M: Machine> {
    debugger: Debugger<M>,
    command: Command,
}

impl<M: Machine> Tried for Commanded<M> {
    type Answer = Result<Said, DebugError>;

    fn show_held<R: Print>(&mut self, rt: &R) -> Result<(), PlayError> {
        show_place(rt, &mut self.debugger)
    }

    fn call(&mut self, _alloc: Global) -> Result<Result<Said, DebugError>, PlayError> {
        obey(&mut self.debugger, self.command)
    }

    /// What was said is shown, and where the debugger then comes to on its way to the end.
    fn show_answer<R: Print>(
        &mut self,
        rt: &R,
        _alloc: Global,
        answer: Result<Said, DebugError>,
    ) -> Result<(), PlayError> {
        show_said(rt, answer)?;
        show_place(rt, &mut self.debugger)?;
        show_way(rt, &mut self.debugger)
    }
}

/// What is said to the command.
fn obey<M: Machine>(
    debugger: &mut Debugger<M>,
    command: Command,
) -> Result<Result<Said, DebugError>, PlayError> {
    match debugger.command(command) {
        Err(DebugError::NoMemory) => Err(PlayError::NoMemory),
        answer => Ok(answer),
    }
}

/// Prints what was said.
fn show_said<R: Print>(rt: &R, said: Result<Said, DebugError>) -> Result<(), PlayError> {
    match said {
        Ok(Said::Text(text)) => show_bytes(rt, &text),
        Ok(Said::At { position, now, by }) => {
            say(rt, format_args!("at {position} time {now} by {by:?}"))
        }
        Ok(Said::Broke(number)) => say(rt, format_args!("break {number}")),
        Ok(Said::Cleared(number)) => say(rt, format_args!("cleared {number}")),
        Err(refused) => say(rt, format_args!("refused {refused}")),
    }
}

/// Prints where the debugger stands, and the number of its next break. It takes no memory.
fn show_place<M: Machine, R: Print>(rt: &R, debugger: &mut Debugger<M>) -> Result<(), PlayError> {
    show_said(rt, obey(debugger, Command::Step(0))?)?;
    let broke = obey(debugger, Command::BreakRefusal)?;
    if let Ok(Said::Broke(number)) = &broke {
        let _ = obey(debugger, Command::Clear(*number))?;
    }
    show_said(rt, broke)
}

/// Prints where the debugger comes to, break by break, on its way to the end.
fn show_way<M: Machine, R: Print>(rt: &R, debugger: &mut Debugger<M>) -> Result<(), PlayError> {
    for _ in 0..MAX_HISTORY {
        let said = obey(debugger, Command::Run)?;
        let is_end = said.is_err();
        show_said(rt, said)?;
        if is_end {
            return Ok(());
        }
    }
    Ok(())
}

/// A debugger of a scenario that was read, and so is valid.
fn opened<M: Machine>(
    alloc: Global,
    scenario: &Scenario,
    instrs: Vec<Instr>,
) -> Result<Debugger<M>, PlayError> {
    let _ = count_of(&instrs)?;
    Debugger::open(alloc, scenario, instrs).map_err(|_want| PlayError::NoMemory)
}

/// How often the last line of the scenario's first actor gives its instruction.
fn last_times(scenario: &Scenario) -> u32 {
    match scenario.actors.first() {
        Some(actor) => actor.lines.last().map_or(0, |line| line.times),
        None => 0,
    }
}

/// Two positions to which the debugger goes first, and the command. The instructions of the actor's last line begin behind position
/// `there`.
fn way_of(asked: Asked, there: u32, end: u32) -> ([u32; 2], Command) {
    match asked {
        Asked::Going(Way::Step) => { ([there, there], Command::Step(end.saturating_sub(there))) }
        Asked::Going(Way::Back) => ([end, end], Command::Back(1)),
        Asked::Going(Way::Goto) => ([end, end], Command::Goto(there)),
        Asked::Going(Way::GotoCopy) => ([end, there], Command::Goto(end)),
        Asked::Going(Way::Run) => ([there, there], Command::Run),
        Asked::Going(Way::NextEvent) => ([there, there], Command::NextEvent),
        Asked::There(command) => ([end, there], command),
    }
}

/// Opens a debugger of the scenario of this text.
pub(crate) fn try_open<M: Machine, R: Print>(
    rt: &R,
    alloc: Global,
    text: &[u8],
) -> Result<(), PlayError> {
    let scenario = assemble(alloc, text)?;
    let instrs = actor_instrs(alloc, &scenario)?;
    let mut tried = Opening::<M> {
        scenario: &scenario,
        instrs: &instrs,
        given: None,
        machine: PhantomData,
    };
    try_call(rt, alloc, &mut tried)
}

/// Makes the breaks, and goes to two positions, one after the other.
fn set_up<M: Machine>(debugger: &mut Debugger<M>, way: [u32; 2]) -> Result<(), PlayError> {
    for on in BREAKS {
        let _ = obey(debugger, on)?;
    }
    for position in way {
        let _ = obey(debugger, Command::Goto(position))?;
    }
    Ok(())
}

/// Has a debugger carry out a command, once it has gone this way.
fn try_behind<M: Machine, R: Print>(
    rt: &R,
    alloc: Global,
    debugger: Debugger<M>,
    way: [u32; 2],
    command: Command,
) -> Result<(), PlayError> {
    let mut tried = Commanded { debugger, command };
    set_up(&mut tried.debugger, way)?;
    try_call(rt, alloc, &mut tried)
}

/// Has a debugger of the scenario of this text carry out a command.
pub(crate) fn try_command<M: Machine, R: Print>(
    rt: &R,
    alloc: Global,
    asked: Asked,
    text: &[u8],
) -> Result<(), PlayError> {
    let scenario = assemble(alloc, text)?;
    let instrs = actor_instrs(alloc, &scenario)?;
    let end = count_of(&instrs)?;
    let (way, command) = way_of(asked, end.saturating_sub(last_times(&scenario)), end);
    let debugger: Debugger<M> = opened(alloc, &scenario, instrs)?;
    try_behind(rt, alloc, debugger, way, command)
}
