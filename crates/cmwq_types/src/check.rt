//! The first fault of a scenario.
ghost use Rattle.cmwq_types.specs.Faults.{Judges, actor_fault, body_fault, counts_fault, fields_fault, first_along, first_fault, fits_flags, is_body, is_declared, is_finish, is_some_finish, line_fault, names_declared, numbers_fault, op_fault, queue_fault, work_fault};
ghost use Rattle.std.specs.List.{list_any};
ghost use Rattle.std.specs.Prelude.{◌≡◌, ◌-◌, [], IfErr, OnOk, length, slice_get};
ghost use Rattle.std.specs.Str.{bytes_eq};

use crate::fields::{Fields, Shape, fields_of, shape_of, word_of};
use crate::instr::Instr;
use crate::limits::{
    MAX_ACTORS, MAX_CPUS, MAX_FLUSHES, MAX_LINES, MAX_MAX_ACTIVE, MAX_OPS, MAX_QUEUES, MAX_STEPS,
    MAX_TICKS, MAX_TIMES, MAX_WORKERS, MAX_WORKS,
};
use crate::name::Name;
use crate::scenario::{Actor, Line, Op, QueueDecl, Scenario, WorkDecl};
use thiserror::Error;

/// Why a scenario isn't valid. The limits and the order of the faults are this project's own.
#[derive(Clone, Copy, Debug, PartialEq, Eq, Error)]
pub enum Fault {
    /// A number is out of its limits.
    #[error("Range")]
    Range,
    /// There are more queues, works, actors, operations or lines than there may be.
    #[error("TooMany")]
    TooMany,
    /// Two queues, works or actors have one name.
    #[error("Duplicate")]
    Duplicate,
    /// A work or queue is named that isn't declared.
    #[error("Unknown")]
    Unknown,
    /// A body's last operation isn't `finish`, or another one is.
    #[error("BadBody")]
    BadBody,
    /// A queue's `max` is outside 1 to 512, or isn't 1 though the queue is ordered.
    #[error("BadFlags")]
    BadFlags,
}

impl Scenario {
    /// The first fault of the scenario, or `Ok` where it is valid.
    ///
    /// Faults are judged in this order, which is this project's own: `Range` of CPUs, workers, steps and
    /// flushes; `TooMany` queues, works or actors; then
    /// - of each queue `Duplicate`, `BadFlags`;
    /// - of each work `Duplicate`, its queue `Unknown`, `TooMany` operations, `BadBody`, and of each
    ///   operation its work `Unknown`, then `Range`;
    /// - of each actor `Duplicate`, `TooMany` lines, and of each line its work or queue `Unknown`, then `Range`
    ///   of its times.
    ///
    /// CPU and pool numbers of an actor's lines aren't judged here: the machine refuses them.
    pub fn check(&self) -> Result<(), Fault>
        ensures valid { OnOk result (first_fault self.now ≡ None) }
        ensures fault { IfErr result (λ fault. first_fault self.now ≡ Some fault) }
    {
        self.check_numbers()?;
        self.check_counts()?;
        check_queues(&self.queues)?;
        self.check_works()?;
        self.check_actors()
    }

    fn check_numbers(&self) -> Result<(), Fault>
        ensures { Judges result (numbers_fault self.now) }
    {
        let cpus = 1 <= self.cpus && self.cpus <= MAX_CPUS;
        let workers = 1 <= self.workers && self.workers <= MAX_WORKERS;
        let steps = 1 <= self.steps && self.steps <= MAX_STEPS;
        if cpus && workers && steps && self.flushes <= MAX_FLUSHES {
            Ok(())
        } else {
            Err(Fault::Range)
        }
    }

    fn check_counts(&self) -> Result<(), Fault>
        ensures { Judges result (counts_fault self.now) }
    {
        let queues = self.queues.len() <= MAX_QUEUES;
        let works = self.works.len() <= MAX_WORKS;
        if queues && works && self.actors.len() <= MAX_ACTORS {
            Ok(())
        } else {
            Err(Fault::TooMany)
        }
    }

    fn check_works(&self) -> Result<(), Fault>
        ensures { Judges result (first_along (work_fault self.now) [] self.now.works) }
    {
        for (i, work) in self.works.iter().enumerate() {
            self.check_work(&self.works[..i], work)?;
        }
        Ok(())
    }

    fn check_work(&self, before: &[WorkDecl], work: &WorkDecl) -> Result<(), Fault>
        ensures { Judges result (work_fault self.now before.now work.now) }
    {
        if is_work_name(before, &work.name) {
            return Err(Fault::Duplicate);
        }
        if work.queue.0 as usize >= self.queues.len() {
            return Err(Fault::Unknown);
        }
        self.check_body(&work.body)
    }

    fn check_body(&self, body: &[Op]) -> Result<(), Fault>
        ensures { Judges result (body_fault self.now body.now) }
    {
        if body.len() > MAX_OPS {
            return Err(Fault::TooMany);
        }
        if !is_body(body) {
            return Err(Fault::BadBody);
        }
        self.check_ops(body)
    }

    fn check_ops(&self, body: &[Op]) -> Result<(), Fault>
        ensures { Judges result (first_along (λ before op. op_fault self.now op) [] body.now) }
    {
        for op in body {
            self.check_op(*op)?;
        }
        Ok(())
    }

    fn check_op(&self, op: Op) -> Result<(), Fault>
        ensures { Judges result (op_fault self.now op) }
    {
        self.check_fields(op.word().shape(), op.fields())
    }

    /// Returns the fault of an operation's operands, or none.
    fn check_fields(&self, shape: Shape, fields: Fields) -> Result<(), Fault>
        ensures { Judges result (fields_fault self.now shape fields) }
    {
        let Fields { cpu, id, number } = fields;
        match shape {
            Shape::Ticks if number < 1 || number > MAX_TICKS => Err(Fault::Range),
            Shape::Work | Shape::WorkCpu | Shape::WorkTicks if id as usize >= self.works.len() => {
                Err(Fault::Unknown)
            }
            Shape::WorkCpu if cpu >= self.cpus => Err(Fault::Range),
            Shape::WorkTicks if number > MAX_TICKS => Err(Fault::Range),
            _ => Ok(()),
        }
    }

    fn check_actors(&self) -> Result<(), Fault>
        ensures { Judges result (first_along (actor_fault self.now) [] self.now.actors) }
    {
        for (i, actor) in self.actors.iter().enumerate() {
            self.check_actor(&self.actors[..i], actor)?;
        }
        Ok(())
    }

    fn check_actor(&self, before: &[Actor], actor: &Actor) -> Result<(), Fault>
        ensures { Judges result (actor_fault self.now before.now actor.now) }
    {
        if is_actor_name(before, &actor.name) {
            return Err(Fault::Duplicate);
        }
        if actor.lines.len() > MAX_LINES {
            return Err(Fault::TooMany);
        }
        self.check_lines(&actor.lines)
    }

    fn check_lines(&self, lines: &[Line]) -> Result<(), Fault>
        ensures { Judges result (first_along (λ before line. line_fault self.now line) [] lines.now) }
    {
        for line in lines {
            self.check_line(*line)?;
        }
        Ok(())
    }

    fn check_line(&self, line: Line) -> Result<(), Fault>
        ensures { Judges result (line_fault self.now line) }
    {
        if !self.declares_names_of(line.instr) {
            return Err(Fault::Unknown);
        }
        if line.times < 1 || line.times > MAX_TIMES {
            return Err(Fault::Range);
        }
        Ok(())
    }

    /// Whether the work or queue that the instruction names, if it names one, is declared.
    fn declares_names_of(&self, instr: Instr) -> bool
        ensures { result ≡ names_declared self.now instr }
    {
        self.declares(shape_of(word_of(instr)), fields_of(instr).id)
    }

    /// Whether the work or queue of this number is declared, where the shape has one.
    fn declares(&self, shape: Shape, id: u16) -> bool
        ensures { result ≡ is_declared self.now shape id }
    {
        match shape {
            Shape::Work | Shape::WorkCpu | Shape::WorkTicks | Shape::WorkCpuTicks => {
                (id as usize) < self.works.len()
            }
            Shape::Queue | Shape::QueueNumber => (id as usize) < self.queues.len(),
            Shape::Alone | Shape::Ticks | Shape::Pool | Shape::Flush | Shape::Time => true,
        }
    }
}

fn check_queues(queues: &[QueueDecl]) -> Result<(), Fault>
    ensures { Judges result (first_along queue_fault [] queues.now) }
{
    for (i, queue) in queues.iter().enumerate() {
        check_queue(&queues[..i], queue)?;
    }
    Ok(())
}

fn check_queue(before: &[QueueDecl], queue: &QueueDecl) -> Result<(), Fault>
    ensures { Judges result (queue_fault before.now queue.now) }
{
    if is_queue_name(before, &queue.name) {
        return Err(Fault::Duplicate);
    }
    if !fits_flags(queue) {
        return Err(Fault::BadFlags);
    }
    Ok(())
}

/// Whether the queue's `max` is within its limits, and 1 where the queue is ordered.
fn fits_flags(queue: &QueueDecl) -> bool
    ensures { result ≡ fits_flags queue.now }
{
    let in_range = 1 <= queue.max && queue.max <= MAX_MAX_ACTIVE;
    in_range && (!queue.flags.ordered || queue.max == 1)
}

fn is_queue_name(queues: &[QueueDecl], name: &Name) -> bool
    ensures { result ≡ list_any (λ other. bytes_eq other.name name.now) queues.now }
{
    queues.iter().any(|other| same_name(&other.name, name))
}

fn is_work_name(works: &[WorkDecl], name: &Name) -> bool
    ensures { result ≡ list_any (λ other. bytes_eq other.name name.now) works.now }
{
    works.iter().any(|other| same_name(&other.name, name))
}

fn is_actor_name(actors: &[Actor], name: &Name) -> bool
    ensures { result ≡ list_any (λ other. bytes_eq other.name name.now) actors.now }
{
    actors.iter().any(|other| same_name(&other.name, name))
}

fn same_name(a: &Name, b: &Name) -> bool
    ensures { result ≡ bytes_eq a.now b.now }
{
    a.as_bytes() == b.as_bytes()
}

/// Whether the last operation is `finish`, and no other one is.
fn is_body(body: &[Op]) -> bool
    ensures { result ≡ is_body body.now }
{
    ends_with_finish(body) && body.iter().filter(|op| is_finish(op)).count() == 1
}

fn ends_with_finish(body: &[Op]) -> bool
    ensures { result ≡ is_some_finish (slice_get body.now (length body.now - 1)) }
{
    match body.last() {
        Some(op) => is_finish(op),
        None => false,
    }
}

fn is_finish(op: &Op) -> bool
    ensures { result ≡ is_finish op.now }
{
    matches!(op, Op::Finish)
}
