//! The scenario that a text has told so far, with its names.
ghost use Rattle.cmwq_grammar.specs.Instructions.{actor_names, queue_names, work_names};
ghost use Rattle.cmwq_grammar.specs.Stages.{head_of};
ghost use Rattle.std.specs.List.{list_any};
ghost use Rattle.std.specs.Prelude.{◌≡◌, ◌<◌, ◌≤◌, ◌++◌, ◌∷◌, [], IfOk, false, length, map};
ghost use Rattle.std.specs.Str.{bytes_eq};

use cmwq_scan::{Named, Names};
use cmwq_types::{
    Actor, Flags, Line, MAX_QUEUES, MAX_WORKS, NoMemory, QueueDecl, QueueId, Scenario, WorkDecl,
};
use std::alloc::Global;
use std::marker::Model;

/// The scenario that is told so far, with the names by their numbers.
#[derive(Drop)]
struct DraftParts<'t> {
    scenario: Scenario,
    queue_names: Names<'t>,
    work_names: Names<'t>,
    actor_names: Names<'t>,
}

/// The scenario that is told so far. Contracts see it alone.
///
/// The parts lie in a box, so that a draft is moved at small cost.
#[derive(Drop)]
pub struct Draft<'t> {
    parts: Box<DraftParts<'t>>,
}

impl<'t> Model for Draft<'t> {
    ghost use Rattle.cmwq_types.specs.Contents.{ScenarioContents};
    ghost use Rattle.std.specs.Prelude.{◌≡◌, map};

    ghost Value = { ScenarioContents };

    ghost view = { λ d. d.parts.value.scenario };

    ghost use Rattle.cmwq_types.specs.declared.limits.TheConstants.{MAX_QUEUES, MAX_WORKS};
    ghost use Rattle.std.specs.Prelude.{◌≤◌, length};

    ghost invariant = { λ d.
        (length d.parts.value.scenario.queues ≤ MAX_QUEUES) × (length d.parts.value.scenario.works ≤ MAX_WORKS)
        × (d.parts.value.queue_names ≡ map (λ queue. queue.name) d.parts.value.scenario.queues)
        × (d.parts.value.work_names ≡ map (λ work. work.name) d.parts.value.scenario.works)
        × (d.parts.value.actor_names ≡ map (λ actor. actor.name) d.parts.value.scenario.actors) };
}

impl<'t> Draft<'t> {
    /// A scenario of these numbers alone.
    pub fn new(
        alloc: Global,
        cpus: u8,
        workers: u8,
        steps: u32,
        flushes: u16,
    ) -> Result<Draft<'t>, NoMemory>
        ensures { IfOk result (λ draft. draft ≡ head_of cpus workers steps flushes) }
    {
        let scenario = Scenario {
            cpus,
            workers,
            steps,
            flushes,
            queues: Vec::new(alloc),
            works: Vec::new(alloc),
            actors: Vec::new(alloc),
        };
        let parts = DraftParts {
            scenario,
            queue_names: Names::new(alloc),
            work_names: Names::new(alloc),
            actor_names: Names::new(alloc),
        };
        let parts = Box::new(alloc, parts)?;
        Ok(Draft { parts })
    }

    pub fn cpus(&self) -> u8
        ensures { result ≡ self.now.cpus }
    {
        self.parts.scenario.cpus
    }

    pub fn queues(&self) -> &[QueueDecl]
        ensures { result.now ≡ self.now.queues }
    {
        &self.parts.scenario.queues
    }

    pub fn works(&self) -> &[WorkDecl]
        ensures { result.now ≡ self.now.works }
    {
        &self.parts.scenario.works
    }

    pub fn actors(&self) -> &[Actor]
        ensures { result.now ≡ self.now.actors }
    {
        &self.parts.scenario.actors
    }

    /// The queues' names, by their numbers.
    pub fn queue_names(&self) -> &Names<'t>
        ensures names { result.now ≡ queue_names self.now }
        ensures few { length result.now ≤ MAX_QUEUES }
    {
        &self.parts.queue_names
    }

    /// The works' names, by their numbers.
    pub fn work_names(&self) -> &Names<'t>
        ensures names { result.now ≡ work_names self.now }
        ensures few { length result.now ≤ MAX_WORKS }
    {
        &self.parts.work_names
    }

    /// The actors' names.
    pub fn actor_names(&self) -> &Names<'t>
        ensures { result.now ≡ actor_names self.now }
    {
        &self.parts.actor_names
    }

    /// With a further queue.
    pub fn with_queue(self, name: &Named<'t>, max: u16, flags: Flags) -> Result<Draft<'t>, NoMemory>
        requires room { length self.queues < MAX_QUEUES }
        requires new { list_any (λ other. bytes_eq other name.now) (queue_names self) ≡ false }
        ensures { IfOk result (λ draft. draft
            ≡ record self.entry { queues = self.entry.queues ++ record { name = name.now; max = max; flags = flags } ∷ [] }) }
    {
        let Draft { mut parts } = self;
        parts.queue_names.add(name)?;
        parts.scenario.queues.push(QueueDecl {
            name: name.name(),
            max,
            flags,
        })?;
        Ok(Draft { parts })
    }

    /// With a further work, which has no body yet.
    pub fn with_work(
        self,
        alloc: Global,
        name: &Named<'t>,
        queue: QueueId,
    ) -> Result<Draft<'t>, NoMemory>
        requires room { length self.works < MAX_WORKS }
        requires new { list_any (λ other. bytes_eq other name.now) (work_names self) ≡ false }
        ensures { IfOk result (λ draft. draft
            ≡ record self.entry { works = self.entry.works ++ record { name = name.now; queue = queue; body = [] } ∷ [] }) }
    {
        let Draft { mut parts } = self;
        parts.work_names.add(name)?;
        parts.scenario.works.push(WorkDecl {
            name: name.name(),
            queue,
            body: Vec::new(alloc),
        })?;
        Ok(Draft { parts })
    }

    /// With a further actor.
    pub fn with_actor(self, name: &Named<'t>, lines: Vec<Line>) -> Result<Draft<'t>, NoMemory>
        requires { list_any (λ other. bytes_eq other name.now) (actor_names self) ≡ false }
        ensures { IfOk result (λ draft. draft
            ≡ record self.entry { actors = self.entry.actors ++ record { name = name.now; lines = lines.items } ∷ [] }) }
    {
        let Draft { mut parts } = self;
        parts.actor_names.add(name)?;
        parts.scenario.actors.push(Actor {
            name: name.name(),
            lines,
        })?;
        Ok(Draft { parts })
    }

    /// With these works, of the same names.
    pub fn with_works(self, works: Vec<WorkDecl>) -> Draft<'t>
        requires count { length works.items ≡ length self.works }
        requires names { map (λ work. work.name) works.items ≡ work_names self }
        ensures { result ≡ record self.entry { works = works.items } }
    {
        let Draft { mut parts } = self;
        parts.scenario.works = works;
        Draft { parts }
    }

    /// The scenario of what was told.
    pub fn into_scenario(self) -> Scenario
        ensures { result ≡ self.entry }
    {
        let Draft { parts } = self;
        Box::into_inner(parts).scenario
    }
}
