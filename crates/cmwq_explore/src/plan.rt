//! What is explored: a scenario, the lines of its actors, and who has to wait for whom.
ghost use Rattle.cmwq_explore.specs.Plans.{flush_count, gives_flush, line_count, plan_of};
ghost use Rattle.cmwq_orders.specs.Orders.{apart, lines_at, lines_of, stands};
ghost use Rattle.cmwq_table.specs.Laws.{goes_on};
ghost use Rattle.cmwq_types.specs.Faults.{IsValid};
ghost use Rattle.cmwq_types.specs.Scenario.{pool_count};
ghost use Rattle.cmwq_types.specs.declared.limits.TheConstants.{MAX_LINES};
ghost use Rattle.std.specs.Prelude.{◌≡◌, ◌++◌, ◌<◌, ◌≤◌, Err, IfOk, IfSome, OnOk, [], ◌∷◌, count_by, length, map, slice_get};

use cmwq_orders::Before;
use cmwq_runs::Instructions;
use cmwq_types::{Actor, Instr, Line, MAX_LINES, NoMemory, Scenario};
use std::alloc::Global;
use std::marker::Model;
use std::sync::Arc;
use thiserror::Error;

/// Why a scenario can't be explored.
#[derive(Clone, Copy, Debug, PartialEq, Eq, Error)]
pub enum PlanError {
    /// Its actors have more than 4,096 lines in all, a `cancel_sync` being three of them, and an `until`, a `wait` or a `quiet` one,
    /// however often it stands.
    #[error("full")]
    Full,
    /// Memory ran out.
    #[error("no memory")]
    NoMemory,
}

impl From<NoMemory> for PlanError {
    ghost use Rattle.cmwq_explore.specs.declared.plan.PlanError.TheVariants as error;

    ghost from_gives = { λ _ e. e ≡ error.NoMemory };

    fn from(_refused: NoMemory) -> PlanError {
        PlanError::NoMemory
    }
}

/// An actor's lines, one after another, each as often as the actor stands at it.
#[derive(Drop)]
pub(crate) struct Lines {
    instrs: Vec<Instr>,
}

impl Model for Lines {
    ghost use Rattle.cmwq_types.specs.declared.instr.Instr.{Instr};
    ghost use Rattle.std.specs.Prelude.{List};

    ghost Value = { List Instr };

    ghost view = { λ lines. lines.instrs.items };
}

impl Lines {
    /// How many lines there are.
    fn len(&self) -> usize
        ensures { result ≡ length self.now }
    {
        self.instrs.len()
    }

    /// How many of them give a flush.
    fn flush_count(&self) -> u16
        requires { length self.now ≤ MAX_LINES }
        ensures { result ≡ count_by gives_flush self.now }
    {
        let mut count = 0;
        for instr in &self.instrs {
            if gives_flush(*instr) {
                count += 1;
            }
        }
        count
    }
}

/// Whether the instruction gives a flush.
fn gives_flush(instr: Instr) -> bool
    ensures { result ≡ gives_flush instr }
{
    matches!(
        instr,
        Instr::Flush(_) | Instr::FlushDelayed(_) | Instr::FlushQueue(_) | Instr::CancelSync(_)
    )
}

/// What is explored: a scenario whose actors are few enough of lines, and who of them has to wait for whom.
#[derive(Drop)]
pub struct Plan {
    scenario: Arc<Scenario>,
    before: Vec<Before>,
    lines: Vec<Lines>,
}

impl Model for Plan {
    ghost use Rattle.cmwq_explore.specs.Plans.{IsPlanned, PlanContents, plan_of};

    ghost Value = { PlanContents };

    ghost view = { λ plan. plan_of plan.scenario.value plan.before.items };

    ghost invariant = { λ plan. IsPlanned plan.scenario.value plan.lines.items };
}

impl Plan {
    /// The plan of a scenario that is known to be valid. In each pair the second actor begins only once the first has ended.
    ///
    /// Answers `Full` exactly where the actors have more than 4,096 lines in all, and else may answer `NoMemory`.
    pub fn new(alloc: Global, scenario: Scenario, before: Vec<Before>) -> Result<Plan, PlanError>
        requires valid { IsValid scenario }
        ensures plan { IfOk result (λ plan. plan ≡ plan_of scenario before.items) }
        ensures few { OnOk result (line_count scenario.actors ≤ MAX_LINES) }
        ensures full { result ≡ Err PlanError.Full → MAX_LINES < line_count scenario.actors }
    {
        let lines = lines_of_all(alloc, &scenario.actors)?;
        Ok(Plan {
            scenario: shared(alloc, scenario)?,
            before,
            lines,
        })
    }

    /// The scenario, shared.
    pub fn shared_scenario(&self) -> Result<Arc<Scenario>, NoMemory>
        ensures scenario { IfOk result (λ scenario. scenario.value ≡ self.now.scenario) }
        ensures valid { IsValid self.now.scenario }
    {
        Ok(Arc::clone(&self.scenario)?)
    }

    /// The same scenario, in which in each pair the second actor begins only once the first has ended.
    pub fn with_before(self, before: Vec<Before>) -> Plan
        ensures { result ≡ plan_of self.scenario before.items }
    {
        let mut plan = self;
        plan.before = before;
        plan
    }

    /// How many flushes the actors give in all.
    pub fn flush_count(&self) -> u16
        ensures { result ≡ flush_count self.now.scenario.actors }
    {
        let mut count = 0;
        for lines in &self.lines {
            count += lines.flush_count();
        }
        count
    }

    /// The scenario.
    pub fn scenario(&self) -> &Scenario
        ensures scenario { result.now ≡ self.now.scenario }
        ensures valid { IsValid self.now.scenario }
    {
        &self.scenario
    }

    /// How many worker pools there are.
    #[tactic(auto, using(crate::proofs::PlanLemmas::setting_of))]
    pub(crate) fn pool_count(&self) -> u8
        ensures { result ≡ pool_count self.now.scenario }
    {
        self.scenario.pool_count()
    }

    /// How many actors there are.
    pub(crate) fn actor_count(&self) -> u8
        ensures { result ≡ length self.now.scenario.actors }
    {
        self.scenario.actors.len() as u8
    }

    /// Who has to wait for whom.
    pub(crate) fn before(&self) -> &[Before]
        ensures { result.now ≡ self.now.before }
    {
        &self.before
    }

    /// The actor's line at this place, both from 0; `None` where there is none.
    pub(crate) fn line(&self, actor: u8, at: u16) -> Option<Instr>
        ensures line { result ≡ slice_get (lines_at self.now.scenario actor) at }
        ensures there { IfSome result (λ _. actor < length self.now.scenario.actors) }
        ensures early { IfSome result (λ _. at < MAX_LINES) }
    {
        self.line_at(actor, at)
    }

    /// The actor's line at this place; and all actors have few enough.
    fn line_at(&self, actor: u8, at: u16) -> Option<Instr>
        ensures line { result ≡ slice_get (lines_at self.now.scenario actor) at }
        ensures there { IfSome result (λ _. actor < length self.now.scenario.actors) }
        ensures few { line_count self.now.scenario.actors ≤ MAX_LINES }
    {
        match self.lines.get(actor as usize) {
            Some(lines) => lines.instrs.get(at as usize).copied(),
            None => None,
        }
    }
}

fn shared(alloc: Global, scenario: Scenario) -> Result<Arc<Scenario>, NoMemory>
    ensures { IfOk result (λ shared. shared.value ≡ scenario) }
{
    Ok(Arc::new(alloc, scenario)?)
}

/// The lines of each actor. Answers `Full` exactly where they are more than 4,096 in all, and else may answer `NoMemory`.
fn lines_of_all(alloc: Global, actors: &[Actor]) -> Result<Vec<Lines>, PlanError>
    ensures lines { IfOk result (λ lines. lines.items ≡ map lines_of actors.now) }
    ensures few { OnOk result (line_count actors.now ≤ MAX_LINES) }
    ensures full { result ≡ Err PlanError.Full → MAX_LINES < line_count actors.now }
{
    let mut all = Vec::new(alloc);
    let mut room = MAX_LINES;
    for actor in actors {
        match lines_within(alloc, actor, room) {
            Ok(lines) => {
                room -= lines.len();
                put(&mut all, lines)?;
            }
            Err(why) => return Err(why),
        }
    }
    Ok(all)
}

fn put(all: &mut Vec<Lines>, lines: Lines) -> Result<(), NoMemory>
    ensures { OnOk result (all.new.items ≡ all.old.items ++ lines ∷ []) }
{
    all.push(lines)?;
    Ok(())
}

/// The actor's lines, if they are at most so many. Answers `Full` exactly where they are more, and else may answer `NoMemory`.
fn lines_within(alloc: Global, actor: &Actor, room: usize) -> Result<Lines, PlanError>
    ensures lines { IfOk result (λ lines. lines ≡ lines_of actor.now) }
    ensures few { OnOk result (length (lines_of actor.now) ≤ room) }
    ensures full { result ≡ Err PlanError.Full → room < length (lines_of actor.now) }
{
    let stood = stood_lines(alloc, &actor.lines)?;
    let mut instrs = Vec::new(alloc);
    for instr in Instructions::of(&stood) {
        put_apart(&mut instrs, instr)?;
        if instrs.len() > room {
            return Err(PlanError::Full);
        }
    }
    Ok(Lines { instrs })
}

/// The lines, each as often as an actor stands at it.
fn stood_lines(alloc: Global, lines: &[Line]) -> Result<Vec<Line>, NoMemory>
    ensures { IfOk result (λ stood. stood.items ≡ map stands lines.now) }
{
    let mut stood = Vec::new(alloc);
    for line in lines {
        stood.push(stands(*line))?;
    }
    Ok(stood)
}

/// The line, as often as an actor stands at it: once at what it goes on for.
fn stands(line: Line) -> Line
    ensures { result ≡ stands line }
{
    let instr = line.instr;
    if goes_on(instr) {
        Line { instr, times: 1 }
    } else {
        line
    }
}

/// Whether the instruction goes on for something, at which an actor stands until it has come.
pub(crate) fn goes_on(instr: Instr) -> bool
    ensures { result ≡ goes_on instr }
{
    matches!(instr, Instr::Until(_) | Instr::Wait(_) | Instr::Quiet)
}

/// Puts an instruction behind the others: three for a `cancel_sync`.
fn put_apart(instrs: &mut Vec<Instr>, instr: Instr) -> Result<(), NoMemory>
    ensures { OnOk result (instrs.new.items ≡ instrs.old.items ++ apart instr) }
{
    match instr {
        Instr::CancelSync(w) => {
            instrs.push(Instr::Disable(w))?;
            instrs.push(Instr::Flush(w))?;
            instrs.push(Instr::Enable(w))?;
        }
        _ => instrs.push(instr)?,
    }
    Ok(())
}
