//! Two threads that issue on one shared engine at once.
ghost use Rattle.cmwq_engine.specs.Shared.{IsPassOf};
ghost use Rattle.std.specs.List.{All};

use cmwq_engine::{Engine, IssueError, Receipt, Shared};
use cmwq_lock::Pass;
use cmwq_table::Machine;
use cmwq_types::{Instr, Reply, WorkId};
use std::alloc::Global;
use std::process::Abort;
use std::sync::{Barrier, Wait};
use std::thread::{self, Threads};
use std::time::{Clock, Duration};

/// What a thread does.
#[derive(Clone, Copy)]
pub(crate) enum Part {
    /// Asks four times whether anything is busy.
    Ask,
    /// Queues its own work, and waits for the other's to be pending.
    See { own: WorkId, other: WorkId },
}

/// What came of it.
#[derive(Clone, Copy, PartialEq, Eq)]
pub(crate) enum Done {
    /// How its questions went.
    Asked(Outcomes),
    /// Whether the other's work came to be pending.
    Sees(bool),
}

/// How many instructions came into the history, and how many found it full.
#[derive(Clone, Copy, PartialEq, Eq)]
pub(crate) struct Outcomes {
    pub(crate) entered: u32,
    pub(crate) full: u32,
}

impl Outcomes {
    /// With one outcome more.
    fn with(self, outcome: Result<Receipt, IssueError>) -> Outcomes {
        let entered = u32::from(outcome.is_ok());
        let full = u32::from(outcome == Err(IssueError::Full));
        Outcomes {
            entered: self.entered.saturating_add(entered),
            full: self.full.saturating_add(full),
        }
    }

    /// Those of both threads.
    pub(crate) fn and(self, other: Outcomes) -> Outcomes {
        Outcomes {
            entered: self.entered.saturating_add(other.entered),
            full: self.full.saturating_add(other.full),
        }
    }
}

/// Asks four times whether anything is busy.
fn four_questions<M: Machine, R: Wait>(
    rt: &R,
    shared: &Shared<M>,
    pass: Pass<Engine<M>>,
) -> (Pass<Engine<M>>, Outcomes)
    requires { IsPassOf shared.now pass }
    ensures { IsPassOf shared.now result.0 }
{
    let mut pass = pass;
    let mut outcomes = Outcomes {
        entered: 0,
        full: 0,
    };
    for _ in 0..4 {
        let (back, outcome) = shared.issue(rt, pass, Instr::Busy);
        pass = back;
        outcomes = outcomes.with(outcome);
    }
    (pass, outcomes)
}

/// Whether the work that was asked for is pending.
pub(crate) fn is_pending(outcome: Result<Receipt, IssueError>) -> bool {
    match outcome {
        Ok(receipt) => matches!(receipt.reply, Reply::Found(state) if state.place.is_some()),
        Err(_) => false,
    }
}

/// Asks for the work until it is pending, at most 10,000 times, with a millisecond's sleep after each. Whether it
/// came to be.
fn sees_pending<M: Machine, R: Wait + Clock>(
    rt: &R,
    shared: &Shared<M>,
    pass: Pass<Engine<M>>,
    work: WorkId,
) -> (Pass<Engine<M>>, bool)
    requires { IsPassOf shared.now pass }
    ensures { IsPassOf shared.now result.0 }
{
    let mut pass = pass;
    for _ in 0..10_000 {
        let (back, outcome) = shared.issue(rt, pass, Instr::State(work));
        pass = back;
        if is_pending(outcome) {
            return (pass, true);
        }
        thread::sleep(rt, Duration::from_millis(1));
    }
    (pass, false)
}

/// Does a thread's part.
fn do_part<M: Machine, R: Wait + Clock>(
    rt: &R,
    shared: &Shared<M>,
    pass: Pass<Engine<M>>,
    part: Part,
) -> (Pass<Engine<M>>, Done)
    requires { IsPassOf shared.now pass }
    ensures { IsPassOf shared.now result.0 }
{
    match part {
        Part::Ask => {
            let (pass, outcomes) = four_questions(rt, shared, pass);
            (pass, Done::Asked(outcomes))
        }
        Part::See { own, other } => {
            let (pass, _) = shared.issue(rt, pass, Instr::Queue(own, 0));
            let (pass, sees) = sees_pending(rt, shared, pass, other);
            (pass, Done::Sees(sees))
        }
    }
}

/// A caller, and what its thread does.
pub(crate) type Job<M> = (Pass<Engine<M>>, Part);

/// A caller, and what came of it.
pub(crate) type Came<M> = (Pass<Engine<M>>, Done);

/// Does a thread's part once both threads are there.
fn do_with_the_other<M: Machine, R: Wait + Clock>(
    rt: &R,
    start: &Barrier,
    shared: &Shared<M>,
    job: Job<M>,
) -> Came<M>
    requires { IsPassOf shared.now job.0 }
    ensures { IsPassOf shared.now result.0 }
{
    start.wait(rt);
    do_part(rt, shared, job.0, job.1)
}

/// Does each thread's part, and gives what came of it once all threads have ended.
fn all_done<M: Machine + Send + Sync, R: Threads + Wait + Clock + Abort + Sync>(
    rt: &R,
    shared: &Shared<M>,
    jobs: Vec<Job<M>>,
) -> Vec<Came<M>>
    requires { All (λ job. IsPassOf shared.now job.0) jobs.items }
    ensures { All (λ came. IsPassOf shared.now came.0) result.items }
{
    let start = Barrier::new(jobs.len());
    thread::map_vec(
        rt,
        jobs,
        &|job| { do_with_the_other(rt, &start, shared, job) },
    )
    .expect(rt, "memory is left")
}

/// Takes the last one.
fn last_of<M: Machine>(rt: &impl Abort, shared: &Shared<M>, all: &mut Vec<Came<M>>) -> Came<M>
    requires { All (λ came. IsPassOf shared.now came.0) all.old.items }
    ensures all { All (λ came. IsPassOf shared.now came.0) all.new.items }
    ensures last { IsPassOf shared.now result.0 }
{
    let _ = shared;
    match all.pop() {
        Some(came) => came,
        None => panic!(rt; "a thread has ended"),
    }
}

/// Two threads, each with a part of its own.
pub(crate) fn at_once<M: Machine + Send + Sync, R: Threads + Wait + Clock + Abort + Sync>(
    rt: &R,
    alloc: Global,
    shared: &Shared<M>,
    one: Job<M>,
    other: Job<M>,
) -> (Came<M>, Came<M>)
    requires one { IsPassOf shared.now one.0 }
    requires other { IsPassOf shared.now other.0 }
    ensures one { IsPassOf shared.now result.0.0 }
    ensures other { IsPassOf shared.now result.1.0 }
{
    let mut jobs = Vec::new(alloc);
    jobs.push(one).expect(rt, "memory is left");
    jobs.push(other).expect(rt, "memory is left");
    let mut all = all_done(rt, shared, jobs);
    let other = last_of(rt, shared, &mut all);
    let one = last_of(rt, shared, &mut all);
    (one, other)
}
