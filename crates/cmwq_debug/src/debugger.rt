//! The debugger.
ghost use Rattle.cmwq_debug.specs.Debugging.{Answer, At, Meets, OpensDebugger, answer_of, breaks_on, breaks_on_work, does, dumps_pool, goes, goes_back, goes_to_event, last_of, opened, removed, runs_on, says, state_at, tells_waits, tells_why, time_at, Text};
ghost use Rattle.cmwq_debug.specs.BreakLines.{list_text};
ghost use Rattle.cmwq_debug.specs.Breaks.{break_at};
ghost use Rattle.cmwq_debug.specs.Checkpoints.{AreRising};
ghost use Rattle.cmwq_debug.specs.declared.checkpoints.TheConstants.{MAX_CHECKPOINTS};
ghost use Rattle.cmwq_dump.specs.Dump.{dump, pool_lines};
ghost use Rattle.cmwq_flush_waits.specs.FlushText.{flush_lines};
ghost use Rattle.cmwq_why_text.specs.WhyText.{why_line};
ghost use Rattle.cmwq_types.specs.Faults.{IsValid};
ghost use Rattle.cmwq_types.specs.Scenario.{pool_count};
ghost use Rattle.cmwq_types.specs.declared.limits.TheConstants.{MAX_HISTORY};
ghost use Rattle.std.specs.List.{All};
ghost use Rattle.std.specs.Prelude.{◌≡◌, ◌+◌, ◌⊎◌, ◌<◌, ◌≤◌, Err, IfErr, IfOk, IfSome, MatchOption, None, Ok, OnErr, OnOk, Some, length, string_bytes};

use crate::break_lines::list_text;
use crate::breaks::{Break, MAX_BREAKS, free};
use crate::checkpoints::Checkpoint;
use crate::command::{Command, DebugError, Said};
use crate::replay::Replay;
use cmwq_dump::{dump_text, pool_text};
use cmwq_flush_waits::flush_text;
use cmwq_table::{LoadError, Machine};
use cmwq_types::{Instr, NoMemory, Reply, Scenario, WorkId};
use cmwq_why_text::work_text;
use std::alloc::Global;
use std::marker::Model;
use std::sync::Arc;

/// A debugger over a scenario and a list of instructions: it stands at a position, which is how many of them
/// have been carried out, and has up to [`MAX_BREAKS`] breaks.
///
/// On its way forward it makes checkpoints, so that on its way back it carries out no more instructions than lie between two of them.
///
/// In the contracts it is a `Session`. Commands and answers are this project's own.
#[derive(Drop)]
pub struct Debugger<M: Machine> {
    alloc: Global,
    replay: Replay<M>,
    breaks: [Option<Break>; MAX_BREAKS],
}

impl<M: Machine> Model for Debugger<M> {
    ghost use Rattle.cmwq_debug.specs.Debugging.{Session, session_of};
    ghost use Rattle.cmwq_debug.specs.declared.breaks.TheConstants.{MAX_BREAKS};
    ghost use Rattle.std.specs.Prelude.{◌≡◌, length};

    ghost Value = { Session };

    ghost view = { λ d. session_of d.replay.scenario d.replay.instrs d.replay.position d.breaks };

    ghost invariant = { λ d. length d.breaks ≡ MAX_BREAKS };
}

impl<M: Machine> Debugger<M> {
    /// A debugger of the scenario and the instructions, at the start and with no break.
    ///
    /// Answers `Fault` exactly where the scenario has one, and else may answer `NoMemory`.
    pub fn open(
        alloc: Global,
        scenario: &Scenario,
        instrs: Vec<Instr>,
    ) -> Result<Debugger<M>, LoadError>
        requires { length instrs.items ≤ MAX_HISTORY }
        ensures { OpensDebugger (λ debugger. debugger) scenario.now instrs.items result }
    {
        scenario.check().map_err(LoadError::Fault)?;
        Debugger::of_copy(alloc, scenario, instrs).map_err(|_| LoadError::NoMemory)
    }

    /// A debugger of the instructions and of a scenario that is known to be valid, at the start and with no break. The scenario is
    /// shared, and isn't judged again.
    pub fn begin(
        alloc: Global,
        scenario: Arc<Scenario>,
        instrs: Vec<Instr>,
    ) -> Result<Debugger<M>, NoMemory>
        requires valid { IsValid scenario.value }
        requires short { length instrs.items ≤ MAX_HISTORY }
        ensures debugger { IfOk result (λ debugger. debugger ≡ opened scenario.value instrs.items) }
    {
        Ok(Debugger {
            alloc,
            replay: Replay::begin(alloc, scenario, instrs)?,
            breaks: [None; MAX_BREAKS],
        })
    }

    /// Carries out the command, and says what it came to.
    ///
    /// Where it isn't carried out, position and breaks are as before.
    pub fn command(&mut self, command: Command) -> Result<Said, DebugError>
        ensures said { IfOk result (λ said. does self.old command ≡ (self.new, Ok (answer_of said))) }
        ensures refused { IfErr result (λ why. (why ≡ DebugError.NoMemory) ⊎ (does self.old command ≡ (self.old, Err why))) }
        ensures same { OnErr result (self.new ≡ self.old) }
    {
        self.obey(command)
    }

    /// How many instructions of the list were carried out.
    pub fn position(&self) -> u32
        ensures { result ≡ self.now.position }
    {
        self.replay.position() as u32
    }

    /// The time where it stands, in ticks.
    pub fn now(&self) -> u64
        ensures { result ≡ time_at self.now self.now.position }
    {
        self.replay.machine().now()
    }

    /// The instruction that brought it to where it stands, and the reply to that; none at the start. The only error is want of memory.
    ///
    /// It is carried out once more, from the nearest checkpoint before it.
    pub fn last(&mut self) -> Result<Option<(Instr, Reply)>, NoMemory>
        ensures last { IfOk result (λ last. last ≡ last_of self.old) }
        ensures same { self.new ≡ self.old }
    {
        self.replay.last(self.alloc)
    }

    /// The checkpoints, by position: copies of the machine that were made on the way forward. It takes no memory.
    ///
    /// They stand at multiples of a spacing of [`crate::FIRST_SPACING`] instructions, which is doubled, while those at its odd multiples are
    /// dropped, where there would be more than [`MAX_CHECKPOINTS`]. One for which there was no memory is missing.
    pub fn checkpoints(&self) -> &[Checkpoint<M>]
        ensures rising { AreRising result.now }
        ensures few { length result.now ≤ MAX_CHECKPOINTS }
        ensures behind_start { All (λ c. 0 < c.at) result.now }
        ensures within { All (λ c. c.at ≤ length self.now.instrs) result.now }
        ensures loaded { All (λ c. M.loaded c.machine ≡ self.now.scenario) result.now }
        ensures state { All (λ c. M.state c.machine ≡ state_at self.now c.at) result.now }
    {
        self.replay.checkpoints()
    }

    fn obey(&mut self, command: Command) -> Result<Said, DebugError>
        ensures { Meets (does self.old command) self.old self.new result }
    {
        match command {
            Command::Step(n) => self.step(n),
            Command::Back(n) => self.back(n),
            Command::Goto(to) => self.go(u64::from(to)),
            Command::BreakWork { work, event } => self.break_on_work(
                work,
                Break::OnWork(work, event),
            ),
            Command::BreakTime(time) => self.break_on(Break::OnTime(time)),
            Command::BreakRefusal => self.break_on(Break::OnRefusal),
            Command::BreakActivation(work) => self.break_on_work(work, Break::OnActivation(work)),
            Command::List => self.list(),
            Command::Clear(number) => self.clear(number),
            Command::Run => self.run(),
            Command::NextEvent => self.next_event(),
            Command::Dump => self.dump(),
            Command::DumpPool(pool) => self.dump_pool(pool),
            Command::Why(work) => self.why(work),
            Command::WhyFlush(flush) => self.why_flush(flush),
        }
    }

    /// A debugger at the start of a valid scenario, which is copied.
    fn of_copy(
        alloc: Global,
        scenario: &Scenario,
        instrs: Vec<Instr>,
    ) -> Result<Debugger<M>, NoMemory>
        requires valid { IsValid scenario.now }
        requires short { length instrs.items ≤ MAX_HISTORY }
        ensures { IfOk result (λ debugger. debugger ≡ opened scenario.now instrs.items) }
    {
        let scenario = Arc::new(alloc, scenario.copy()?)?;
        Debugger::begin(alloc, scenario, instrs)
    }

    fn step(&mut self, n: u32) -> Result<Said, DebugError>
        ensures { Meets (goes self.old (self.old.position + n)) self.old self.new result }
    {
        let position = self.replay.position() as u64;
        self.go(position + u64::from(n))
    }

    fn back(&mut self, n: u32) -> Result<Said, DebugError>
        ensures { Meets (goes_back self.old n) self.old self.new result }
    {
        let position = self.replay.position() as u64;
        if u64::from(n) > position {
            return Err(DebugError::PastStart);
        }
        self.go(position - u64::from(n))
    }

    /// Goes to the position.
    fn go(&mut self, to: u64) -> Result<Said, DebugError>
        ensures { Meets (goes self.old to) self.old self.new result }
    {
        if to > self.replay.end() as u64 {
            return Err(DebugError::PastEnd);
        }
        self.replay.reach(self.alloc, to as usize)?;
        Ok(self.at(None))
    }

    /// Where the debugger stands.
    fn at(&self, by: Option<u8>) -> Said
        ensures { answer_of result ≡ At self.now.position (time_at self.now self.now.position) by }
    {
        Said::At {
            position: self.position(),
            now: self.now(),
            by,
        }
    }

    /// Goes forward up to the first instruction after which a break matches, or to the end.
    fn run(&mut self) -> Result<Said, DebugError>
        ensures { Meets (runs_on self.old) self.old self.new result }
    {
        if self.replay.position() == self.replay.end() {
            return Err(DebugError::PastEnd);
        }
        let by = self.replay.run_on(&self.breaks);
        Ok(self.at(by.map(|by| by as u8)))
    }

    /// Goes forward up to the first instruction for which `run` prints a line, or to the end.
    fn next_event(&mut self) -> Result<Said, DebugError>
        ensures { Meets (goes_to_event self.old) self.old self.new result }
    {
        if self.replay.position() == self.replay.end() {
            return Err(DebugError::PastEnd);
        }
        self.replay.run_to_event();
        Ok(self.at(None))
    }

    /// Makes a break on the work, if there is such a work.
    fn break_on_work(&mut self, work: WorkId, on: Break) -> Result<Said, DebugError>
        ensures { Meets (breaks_on_work self.old work on) self.old self.new result }
    {
        if work.0 as usize >= self.replay.scenario().works.len() {
            return Err(DebugError::NoSuchWork);
        }
        self.break_on(on)
    }

    /// Makes a break at the lowest free place.
    fn break_on(&mut self, on: Break) -> Result<Said, DebugError>
        ensures { Meets (breaks_on self.old on) self.old self.new result }
    {
        match free(&self.breaks) {
            Some(place) => {
                self.breaks[place] = Some(on);
                Ok(Said::Broke(place as u8))
            }
            None => Err(DebugError::TooManyBreaks),
        }
    }

    fn list(&self) -> Result<Said, DebugError>
        ensures { Meets (says self.now (Text (list_text self.now.scenario self.now.breaks))) self.now self.now result }
    {
        let lines = list_text(self.alloc, self.replay.scenario(), &self.breaks)?;
        Ok(Said::Text(lines.into_bytes()))
    }

    fn clear(&mut self, number: u8) -> Result<Said, DebugError>
        ensures { Meets (removed self.old number (break_at self.old.breaks number)) self.old self.new result }
    {
        match self.breaks.get(number as usize) {
            Some(Some(_)) => {
                self.breaks[number as usize] = None;
                Ok(Said::Cleared(number))
            }
            _ => Err(DebugError::NoSuchBreak),
        }
    }

    fn dump(&self) -> Result<Said, DebugError>
        ensures { Meets (says self.now (Text (dump self.now.scenario (state_at self.now self.now.position)))) self.now self.now result }
    {
        Ok(Said::Text(dump_text(self.alloc, self.replay.machine())?))
    }

    fn dump_pool(&self, pool: u8) -> Result<Said, DebugError>
        ensures { Meets (dumps_pool self.now pool) self.now self.now result }
    {
        let machine = self.replay.machine();
        if pool >= machine.scenario().pool_count() {
            return Err(DebugError::NoSuchPool);
        }
        Ok(Said::Text(pool_text(self.alloc, machine, pool)?))
    }

    fn why(&self, work: WorkId) -> Result<Said, DebugError>
        ensures { Meets (tells_why self.now work.0) self.now self.now result }
    {
        if (work.0 as usize) < self.replay.scenario().works.len() {
            let line = work_text(self.alloc, self.replay.machine(), work)?;
            Ok(Said::Text(line.into_bytes()))
        } else {
            Err(DebugError::NoSuchWork)
        }
    }

    fn why_flush(&self, flush: u32) -> Result<Said, DebugError>
        ensures { Meets (tells_waits self.now (flush_lines self.now.scenario (state_at self.now self.now.position) flush)) self.now self.now result }
    {
        match flush_text(self.alloc, self.replay.machine(), flush as usize)? {
            Some(lines) => Ok(Said::Text(lines.into_bytes())),
            None => Err(DebugError::NoSuchFlush),
        }
    }
}
