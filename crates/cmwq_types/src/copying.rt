//! A copy of a scenario.
ghost use Rattle.std.specs.Prelude.{◌≡◌, IfOk};

use crate::memory::NoMemory;
use crate::scenario::{Actor, Scenario, WorkDecl};
use std::alloc::Global;

impl Scenario {
    /// A scenario equal to this one. The only error is want of memory.
    pub fn copy(&self) -> Result<Scenario, NoMemory>
        ensures { IfOk result (λ copy. copy ≡ self.now) }
    {
        let alloc = *self.queues.allocator();
        let queues = Vec::from_slice(alloc, &self.queues)?;
        let works = copied_works(alloc, &self.works)?;
        let actors = copied_actors(alloc, &self.actors)?;
        Ok(Scenario {
            cpus: self.cpus,
            workers: self.workers,
            steps: self.steps,
            flushes: self.flushes,
            queues,
            works,
            actors,
        })
    }
}

fn copied_works(alloc: Global, works: &[WorkDecl]) -> Result<Vec<WorkDecl>, NoMemory>
    ensures { IfOk result (λ copy. copy.items ≡ works.now) }
{
    let mut copy = Vec::with_capacity(alloc, works.len())?;
    for work in works {
        copy.push(copied_work(alloc, work)?)?;
    }
    Ok(copy)
}

fn copied_work(alloc: Global, work: &WorkDecl) -> Result<WorkDecl, NoMemory>
    ensures { IfOk result (λ copy. copy ≡ work.now) }
{
    let body = Vec::from_slice(alloc, &work.body)?;
    Ok(WorkDecl {
        name: work.name,
        queue: work.queue,
        body,
    })
}

fn copied_actors(alloc: Global, actors: &[Actor]) -> Result<Vec<Actor>, NoMemory>
    ensures { IfOk result (λ copy. copy.items ≡ actors.now) }
{
    let mut copy = Vec::with_capacity(alloc, actors.len())?;
    for actor in actors {
        copy.push(copied_actor(alloc, actor)?)?;
    }
    Ok(copy)
}

fn copied_actor(alloc: Global, actor: &Actor) -> Result<Actor, NoMemory>
    ensures { IfOk result (λ copy. copy ≡ actor.now) }
{
    let lines = Vec::from_slice(alloc, &actor.lines)?;
    Ok(Actor {
        name: actor.name,
        lines,
    })
}
