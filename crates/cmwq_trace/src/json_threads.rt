//! The threads that executions stand on, and which of them have their names.
ghost use Rattle.cmwq_trace.specs.Json.{is_named, is_same_thread, named_with, thread_of};
ghost use Rattle.std.specs.Prelude.{◌≡◌, IfOk, OnOk, not};

use cmwq_events::KernelTask;
use cmwq_types::{NoMemory, Scenario};
use std::alloc::Global;
use std::marker::Model;

/// A thread of a process.
#[derive(Clone, Copy, PartialEq, Eq)]
pub(crate) struct JsonThread {
    /// The number of its process.
    pub(crate) process: u32,
    /// Its number in the process.
    pub(crate) id: u32,
}

impl JsonThread {
    /// The thread on which stands what the task executes.
    pub(crate) fn of(scenario: &Scenario, task: KernelTask) -> JsonThread
        ensures { result ≡ thread_of scenario.now task }
    {
        JsonThread {
            process: 2 + u32::from(task.cpu(scenario)),
            id: task.pid(),
        }
    }
}

fn is_same_thread(thread: JsonThread, other: JsonThread) -> bool
    ensures { result ≡ is_same_thread thread other }
{
    thread.process == other.process && thread.id == other.id
}

/// The threads that have their names.
#[derive(Drop)]
pub(crate) struct JsonThreads(Vec<JsonThread>);

impl Model for JsonThreads {
    ghost use Rattle.cmwq_trace.specs.declared.json_threads.JsonThread.{JsonThread};
    ghost use Rattle.std.specs.Prelude.{List};

    ghost Value = { List JsonThread };

    ghost view = { λ threads. threads.0.items };
}

impl JsonThreads {
    ghost use Rattle.std.specs.Prelude.{[]};

    /// None has its name.
    pub(crate) fn none(alloc: Global) -> JsonThreads
        ensures { result ≡ [] }
    {
        JsonThreads(Vec::new(alloc))
    }

    /// Notes that the thread has its name. Answers whether it hadn't it before.
    pub(crate) fn note(&mut self, thread: JsonThread) -> Result<bool, NoMemory>
        ensures first { IfOk result (λ is_first. is_first ≡ not (is_named self.old thread)) }
        ensures named { OnOk result (self.new ≡ named_with self.old thread) }
    {
        if is_named(&self.0, thread) {
            return Ok(false);
        }
        self.0.push(thread)?;
        Ok(true)
    }
}

fn is_named(named: &[JsonThread], thread: JsonThread) -> bool
    ensures { result ≡ is_named named.now thread }
{
    named.iter().any(|other| is_same_thread(thread, *other))
}
