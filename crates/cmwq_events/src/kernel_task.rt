//! The tasks of a kernel that a trace names: workers and rescuers.
ghost use Rattle.cmwq_events.specs.KernelTasks.{actor_name, cpu_of_pool, executor, pool_mark, priority_mark, task_cpu, task_name, task_pid};
ghost use Rattle.cmwq_types.specs.Scenario.{is_unbound};
ghost use Rattle.std.specs.Fmt.{decimal};
ghost use Rattle.std.specs.Prelude.{◌≡◌, ◌≤◌, Some, length};

use cmwq_types::{MAX_WORKERS, QueueId, RESCUER, Scenario};
use std::fmt;

/// A task of a kernel.
#[derive(Clone, Copy, PartialEq, Eq)]
pub enum KernelTask {
    /// The worker of this number of the pool.
    Worker { pool: u8, worker: u8 },
    /// The rescuer of the queue, at work in the pool.
    Rescuer { queue: QueueId, pool: u8 },
    /// The task that the scenario's first actor stands for.
    Actor,
    /// The task of a CPU that has nothing to do, in which timers fire.
    Idle { cpu: u8 },
}

impl KernelTask {
    /// Who executes the work, which runs in the pool on this worker, or on `RESCUER`.
    pub fn executor(scenario: &Scenario, work: usize, pool: u8, worker: u8) -> KernelTask
        ensures { result ≡ executor scenario.now work pool worker }
    {
        if worker == RESCUER {
            let queue = QueueId(scenario.queue_of(work));
            return KernelTask::Rescuer { queue, pool };
        }
        KernelTask::Worker { pool, worker }
    }

    /// The number of its CPU. Unbound workers, and rescuers at work in an unbound pool, have the number of CPUs; the actor has 0.
    pub fn cpu(self, scenario: &Scenario) -> u8
        ensures { result ≡ task_cpu scenario.now self }
    {
        match self {
            KernelTask::Worker { pool, .. } | KernelTask::Rescuer { pool, .. } => {
                cpu_of_pool(scenario, pool)
            }
            KernelTask::Actor => 0,
            KernelTask::Idle { cpu } => cpu,
        }
    }

    /// Its process identifier: of worker W of pool P 100 + 64 P + W, of the rescuer of queue Q 3000 + Q, of the actor 10, of an idle CPU 0.
    pub fn pid(self) -> u32
        ensures { result ≡ task_pid self }
    {
        match self {
            KernelTask::Worker { pool, worker } => {
                100 + u32::from(MAX_WORKERS) * u32::from(pool) + u32::from(worker)
            }
            KernelTask::Rescuer { queue, .. } => 3000 + u32::from(queue.0),
            KernelTask::Actor => 10,
            KernelTask::Idle { .. } => 0,
        }
    }
}

/// The CPU of the pool; behind the last one's number one that stands for all unbound workers.
fn cpu_of_pool(scenario: &Scenario, pool: u8) -> u8
    ensures { result ≡ cpu_of_pool scenario.now pool }
{
    if is_unbound(scenario, pool) {
        scenario.cpus
    } else {
        pool / 2
    }
}

/// The name of a task: of a worker `kworker/CPU:W`, with `H` behind it where its pool has high priority, or `kworker/uPOOL:W` where
/// that is unbound; of a rescuer the name of its queue; of the actor its name, and of an idle CPU `<idle>`.
#[derive(Clone, Copy)]
pub struct TaskName<'a> {
    /// The scenario.
    pub scenario: &'a Scenario,
    /// The task.
    pub task: KernelTask,
}

impl TaskName<'_> {
    /// How many bytes the name has.
    #[tactic(auto, using(crate::proofs::NameLemmas::worker_name_length))]
    pub fn len(&self) -> usize
        ensures { result ≡ length (task_name self.now.scenario.now self.now.task) }
    {
        match self.task {
            KernelTask::Worker { pool, worker } => {
                let priority = priority_mark(self.scenario, pool);
                9 + mark_len(self.scenario, pool) + decimal_len(worker) + priority.len()
            }
            KernelTask::Rescuer { queue, .. } => self.scenario.queue_name(queue.0 as usize).len(),
            KernelTask::Actor => actor_name(self.scenario).len(),
            KernelTask::Idle { .. } => 6,
        }
    }
}

/// How many bytes the pool has in a worker's name.
fn mark_len(scenario: &Scenario, pool: u8) -> usize
    ensures long { result ≡ length (pool_mark scenario.now pool) }
    ensures short { result ≤ 4 }
{
    if is_unbound(scenario, pool) {
        1 + decimal_len(pool)
    } else {
        decimal_len(pool / 2)
    }
}

/// How many digits the number has.
#[tactic(auto, using(crate::proofs::NameLemmas::one_digit, crate::proofs::NameLemmas::two_digits, crate::proofs::NameLemmas::three_digits))]
fn decimal_len(number: u8) -> usize
    ensures long { result ≡ length (decimal number) }
    ensures short { result ≤ 3 }
{
    if number < 10 {
        1
    } else if number < 100 {
        2
    } else {
        3
    }
}

impl fmt::Display for TaskName<'_> {
    ghost output = { λ name. Some (task_name name.scenario.now name.task) };

    fn fmt<W: fmt::Write>(&self, f: &mut fmt::Formatter<W>) -> fmt::Result {
        match self.task {
            KernelTask::Worker { pool, worker } => {
                let scenario = self.scenario;
                let mark = PoolMark { scenario, pool };
                let priority = priority_mark(scenario, pool);
                write!(f, "kworker/{mark}:{worker}{priority}")
            }
            KernelTask::Rescuer { queue, .. } => {
                f.write_str(self.scenario.queue_name(queue.0 as usize))
            }
            KernelTask::Actor => f.write_str(actor_name(self.scenario)),
            KernelTask::Idle { .. } => f.write_str("<idle>"),
        }
    }
}

/// The name of the scenario's first actor, and none where it has none.
fn actor_name(scenario: &Scenario) -> &str
    ensures { result.now ≡ actor_name scenario.now }
{
    match scenario.actors.first() {
        Some(actor) => actor.name.as_str(),
        None => "",
    }
}

/// The pool in a worker's name.
#[derive(Clone, Copy)]
struct PoolMark<'a> {
    scenario: &'a Scenario,
    pool: u8,
}

impl fmt::Display for PoolMark<'_> {
    ghost output = { λ mark. Some (pool_mark mark.scenario.now mark.pool) };

    fn fmt<W: fmt::Write>(&self, f: &mut fmt::Formatter<W>) -> fmt::Result {
        let pool = self.pool;
        if is_unbound(self.scenario, pool) {
            return write!(f, "u{pool}");
        }
        let cpu = pool / 2;
        write!(f, "{cpu}")
    }
}

/// Whether the pool is one of the two unbound ones.
pub(crate) fn is_unbound(scenario: &Scenario, pool: u8) -> bool
    ensures { result ≡ is_unbound scenario.now pool }
{
    2 * u16::from(scenario.cpus) <= u16::from(pool)
}

fn priority_mark(scenario: &Scenario, pool: u8) -> &'static str
    ensures { result.now ≡ priority_mark scenario.now pool }
{
    if !is_unbound(scenario, pool) && pool % 2 == 1 {
        "H"
    } else {
        ""
    }
}
