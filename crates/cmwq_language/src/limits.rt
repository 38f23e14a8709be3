//! The limits of a scenario, each behind what it limits.
ghost use Rattle.cmwq_language.specs.Limits.{before, limit, limited_text};
ghost use Rattle.std.specs.List.{flat_map};
ghost use Rattle.std.specs.Prelude.{◌≡◌, ◌++◌, OnOk, string_bytes};

use cmwq_types::{
    MAX_ACTORS, MAX_CPUS, MAX_FLUSHES, MAX_LINES, MAX_MAX_ACTIVE, MAX_OPS, MAX_QUEUES, MAX_STEPS,
    MAX_TICKS, MAX_TIMES, MAX_WORKERS, MAX_WORKS, NoMemory,
};
use itoa::Buffer;

/// What is limited. `before` of the specs has the texts.
#[derive(Clone, Copy)]
pub(crate) enum Limited {
    Cpus,
    Workers,
    Steps,
    Flushes,
    MaxActive,
    Queues,
    Works,
    Operations,
    Lines,
    Actors,
    Burn,
    Sleep,
    Delay,
    Mod,
    Times,
}

/// What is limited in the lines, in their order.
pub(crate) const IN_LINES: [Limited; 10] = [
    Limited::Cpus,
    Limited::Workers,
    Limited::Steps,
    Limited::Flushes,
    Limited::MaxActive,
    Limited::Queues,
    Limited::Works,
    Limited::Operations,
    Limited::Lines,
    Limited::Actors,
];

/// What is limited in the operations of bodies, and in an actor's lines.
pub(crate) const IN_BODIES: [Limited; 5] = [
    Limited::Burn,
    Limited::Sleep,
    Limited::Delay,
    Limited::Mod,
    Limited::Times,
];

impl Limited {
    /// The greatest number.
    fn limit(self) -> u32
        ensures { result ≡ limit self }
    {
        match self {
            Limited::Cpus => MAX_CPUS as u32,
            Limited::Workers => MAX_WORKERS as u32,
            Limited::Steps => MAX_STEPS,
            Limited::Flushes => MAX_FLUSHES as u32,
            Limited::MaxActive => MAX_MAX_ACTIVE as u32,
            Limited::Queues => MAX_QUEUES as u32,
            Limited::Works => MAX_WORKS as u32,
            Limited::Operations => MAX_OPS as u32,
            Limited::Lines => MAX_LINES as u32,
            Limited::Actors => MAX_ACTORS as u32,
            Limited::Burn | Limited::Sleep | Limited::Delay | Limited::Mod => MAX_TICKS,
            Limited::Times => MAX_TIMES,
        }
    }

    /// What stands in front of it.
    fn before(self) -> &'static str
        ensures { result.now ≡ before self }
    {
        match self {
            Limited::Cpus => "  cpus N: CPUs, 1 to ",
            Limited::Workers => "\n  workers N: the most workers of a pool, 1 to ",
            Limited::Steps => "\n  steps N: the most instructions that are accepted, 1 to ",
            Limited::Flushes => "\n  flushes N: how many flushes can be given, 0 to ",
            Limited::MaxActive => "\n  queue NAME max N FLAG..: its max_active is N, 1 to ",
            Limited::Queues => "; queues are at most ",
            Limited::Works =>
                "\n  work NAME QUEUE: a work item of a declared queue; work items are at most ",
            Limited::Operations => {
                "\n  body NAME: begins the body of the next work item; operations are at most "
            }
            Limited::Lines => "\n  actor NAME: begins a caller; lines are at most ",
            Limited::Actors => "; actors are at most ",
            Limited::Burn => "  burn N: keeps the CPU for N ticks, 1 to ",
            Limited::Sleep => "\n  sleep N: sleeps for N ticks, 1 to ",
            Limited::Delay => {
                "\n  queue WORK CPU: queues a work item on a CPU, from 0 on, unless it is pending\n  delay WORK N: as queue, on this body's CPU in N ticks, 0 to "
            }
            Limited::Mod => "\n  mod WORK N: as delay, and replaces an earlier request, 0 to ",
            Limited::Times => {
                "\n  cancel WORK: takes it off, if it is pending\n  finish: ends the body\n\nInstructions of an actor; `* N` after one gives it N times, 1 to "
            }
        }
    }
}

/// Appends what is limited, with the limits.
pub(crate) fn push_limits(page: &mut String, limits: &[Limited]) -> Result<(), NoMemory>
    ensures { OnOk result (string_bytes page.new ≡ string_bytes page.old ++ flat_map limited_text limits.now) }
{
    for limited in limits {
        push_limit(page, *limited)?;
    }
    Ok(())
}

/// Appends what is limited, with its limit.
fn push_limit(page: &mut String, limited: Limited) -> Result<(), NoMemory>
    ensures { OnOk result (string_bytes page.new ≡ string_bytes page.old ++ limited_text limited) }
{
    page.push_str(limited.before())?;
    page.push_str(Buffer::new().format(limited.limit()))?;
    Ok(())
}
