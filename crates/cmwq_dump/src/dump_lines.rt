//! The lines of a dump.
ghost use Rattle.cmwq_dump.specs.Dump.{asleep_line, at_worker, clock_line, cpu_of, disabled_line, dump, flush_line, group_lines, idle_workers, left_of, name_line, pc_of, pool_line, pool_lines, pressed_line, dumped_queue, run_line, spaced, timer_cpu, timer_line, dumped_work, worker_of, yes_or_no_text};
ghost use Rattle.cmwq_dump.specs.Order.{each_below};
ghost use Rattle.cmwq_table.specs.Counts.{pending_due, running_until};
ghost use Rattle.cmwq_types.specs.Contents.{ScenarioContents};
ghost use Rattle.cmwq_types.specs.Scenario.{pool_count};
ghost use Rattle.std.specs.List.{flat_map};
ghost use Rattle.std.specs.Prelude.{◌≡◌, ◌<◌, ◌++◌, OnOk, Some, length, string_bytes};

use crate::dumping::Dumping;
use crate::group::Group;
use cmwq_reads::{flush_target, is_done, level};
use cmwq_table::{Pending, Reads, Running, WorkerWords};
use cmwq_types::{NoMemory, Place, Scenario};
use std::fmt;

impl<R: Reads> Dumping<'_, R> {
    /// Writes the whole dump.
    pub(crate) fn push_dump(&self, text: &mut String) -> Result<(), NoMemory>
        ensures { OnOk result (string_bytes text.new ≡ string_bytes text.old ++ dump self.now.scenario self.now.state) }
    {
        self.push_clock(text)?;
        self.push_pressed(text)?;
        self.push_queues(text)?;
        self.push_pools(text)?;
        self.push_group(text, Group::Timed)?;
        self.push_group(text, Group::Disabled)?;
        self.push_flushes(text)
    }

    fn push_clock(&self, text: &mut String) -> Result<(), NoMemory>
        ensures { OnOk result (string_bytes text.new ≡ string_bytes text.old ++ clock_line self.now.state) }
    {
        let time = self.machine.time();
        let spent = self.machine.spent();
        let frozen = yes_or_no_text(self.machine.is_frozen());
        write!(text, "now {time} spent {spent} frozen {frozen}\n")?;
        Ok(())
    }

    /// Writes the line that a pressed machine has, and no other one.
    fn push_pressed(&self, text: &mut String) -> Result<(), NoMemory>
        ensures { OnOk result (string_bytes text.new ≡ string_bytes text.old ++ pressed_line self.now.state) }
    {
        if self.machine.is_pressed() {
            text.push_str("pressed\n")?;
        }
        Ok(())
    }

    fn push_queues(&self, text: &mut String) -> Result<(), NoMemory>
        ensures { OnOk result (string_bytes text.new ≡ string_bytes text.old
            ++ each_below (dumped_queue self.now.scenario self.now.state) (length self.now.scenario.queues)) }
    {
        for queue in 0..self.machine.scenario().queues.len() as u8 {
            self.push_queue(text, queue)?;
        }
        Ok(())
    }

    fn push_queue(&self, text: &mut String, queue: u8) -> Result<(), NoMemory>
        ensures { OnOk result (string_bytes text.new ≡ string_bytes text.old ++ dumped_queue self.now.scenario self.now.state queue) }
    {
        let name = self.machine.scenario().queue_name(queue as usize);
        let max = self.machine.max_of(queue);
        write!(text, "queue {name} max {max}\n")?;
        Ok(())
    }

    fn push_pools(&self, text: &mut String) -> Result<(), NoMemory>
        ensures { OnOk result (string_bytes text.new ≡ string_bytes text.old
            ++ each_below (pool_lines self.now.scenario self.now.state) (pool_count self.now.scenario)) }
    {
        for pool in 0..self.machine.scenario().pool_count() {
            self.push_pool(text, pool)?;
        }
        Ok(())
    }

    /// Writes the lines of one pool.
    pub(crate) fn push_pool(&self, text: &mut String, pool: u8) -> Result<(), NoMemory>
        ensures { OnOk result (string_bytes text.new ≡ string_bytes text.old ++ pool_lines self.now.scenario self.now.state pool) }
    {
        self.push_workers(text, pool)?;
        self.push_group(text, Group::Running(pool))?;
        self.push_group(text, Group::Asleep(pool))?;
        self.push_group(text, Group::Listed(pool))?;
        self.push_group(text, Group::Deferred(pool))?;
        self.push_group(text, Group::Inactive(pool))
    }

    /// Writes the pool's own line: its concurrency level and its workers.
    fn push_workers(&self, text: &mut String, pool: u8) -> Result<(), NoMemory>
        ensures { OnOk result (string_bytes text.new ≡ string_bytes text.old ++ pool_line self.now.scenario self.now.state pool) }
    {
        let counted = level(self.machine, pool);
        let made = self.machine.made_of(pool);
        let idle = self.idle_workers(pool)?;
        write!(text, "pool {pool} counted {counted} made {made} idle")?;
        for worker in &idle {
            write!(text, " {worker}")?;
        }
        text.push_str("\n")?;
        Ok(())
    }

    /// Writes the line of each work of the group, in order.
    fn push_group(&self, text: &mut String, group: Group) -> Result<(), NoMemory>
        ensures { OnOk result (string_bytes text.new ≡ string_bytes text.old ++ group_lines self.now.scenario self.now.state group) }
    {
        let works = self.members(group)?;
        for w in &works {
            self.push_work(text, group, *w)?;
        }
        Ok(())
    }

    /// Writes the line of a work of the group.
    fn push_work(&self, text: &mut String, group: Group, w: usize) -> Result<(), NoMemory>
        ensures { OnOk result (string_bytes text.new ≡ string_bytes text.old ++ dumped_work self.now.scenario self.now.state group w) }
    {
        match group {
            Group::Running(_) => self.push_run(text, w),
            Group::Asleep(_) => self.push_asleep(text, w),
            Group::Listed(_) => self.push_name(text, "listed ", w),
            Group::Deferred(_) => self.push_name(text, "deferred ", w),
            Group::Inactive(_) => self.push_name(text, "inactive ", w),
            Group::Timed => self.push_timer(text, w),
            Group::Disabled => self.push_disabled(text, w),
        }
    }

    fn push_run(&self, text: &mut String, w: usize) -> Result<(), NoMemory>
        ensures { OnOk result (string_bytes text.new ≡ string_bytes text.old ++ run_line self.now.scenario self.now.state w) }
    {
        let name = self.machine.scenario().work_name(w);
        let running = self.machine.running_of(w);
        let worker = AtWorker(running);
        let left = left_of(running);
        write!(text, "run {name}{worker} {left}\n")?;
        Ok(())
    }

    fn push_asleep(&self, text: &mut String, w: usize) -> Result<(), NoMemory>
        ensures { OnOk result (string_bytes text.new ≡ string_bytes text.old ++ asleep_line self.now.scenario self.now.state w) }
    {
        let name = self.machine.scenario().work_name(w);
        let running = self.machine.running_of(w);
        let worker = AtWorker(running);
        let until = until(running);
        write!(text, "asleep {name}{worker} {until}\n")?;
        Ok(())
    }

    /// Writes a line that has no more than the word and the name of the work.
    fn push_name(&self, text: &mut String, word: &str, w: usize) -> Result<(), NoMemory>
        ensures { OnOk result (string_bytes text.new ≡ string_bytes text.old ++ name_line self.now.scenario word.now w) }
    {
        let name = self.machine.scenario().work_name(w);
        write!(text, "{word}{name}\n")?;
        Ok(())
    }

    fn push_timer(&self, text: &mut String, w: usize) -> Result<(), NoMemory>
        ensures { OnOk result (string_bytes text.new ≡ string_bytes text.old ++ timer_line self.now.scenario self.now.state w) }
    {
        let name = self.machine.scenario().work_name(w);
        let pending = self.machine.pending_of(w);
        let cpu = timer_cpu(pending);
        let due = due(pending);
        write!(text, "timer {name} {cpu} {due}\n")?;
        Ok(())
    }

    fn push_disabled(&self, text: &mut String, w: usize) -> Result<(), NoMemory>
        ensures { OnOk result (string_bytes text.new ≡ string_bytes text.old ++ disabled_line self.now.scenario self.now.state w) }
    {
        let name = self.machine.scenario().work_name(w);
        let depth = self.machine.depth_of(w);
        write!(text, "disabled {name} {depth}\n")?;
        Ok(())
    }

    fn push_flushes(&self, text: &mut String) -> Result<(), NoMemory>
        ensures { OnOk result (string_bytes text.new ≡ string_bytes text.old
            ++ each_below (flush_line self.now.scenario self.now.state) (length self.now.state.flushes)) }
    {
        for flush in 0..self.machine.flush_count() {
            self.push_flush(text, flush)?;
        }
        Ok(())
    }

    fn push_flush(&self, text: &mut String, flush: usize) -> Result<(), NoMemory>
        ensures { OnOk result (string_bytes text.new ≡ string_bytes text.old ++ flush_line self.now.scenario self.now.state flush) }
    {
        let done = yes_or_no_text(is_done(self.machine, flush_target(self.machine, flush)));
        write!(text, "flush {flush} {done}\n")?;
        Ok(())
    }
}

/// The worker of a running work, or `rescuer`, and its place in the body, each behind a space.
#[derive(Clone, Copy)]
struct AtWorker(Option<Running>);

impl fmt::Display for AtWorker {
    ghost output = { λ at. Some (at_worker at.0) };

    fn fmt<W: fmt::Write>(&self, f: &mut fmt::Formatter<W>) -> fmt::Result {
        let worker = WorkerWords(worker_of(self.0));
        let pc = pc_of(self.0);
        write!(f, " {worker} {pc}")
    }
}

/// The tick at which the work's timer runs out, and 0 where it waits for none.
fn due(pending: Option<Pending>) -> u64
    ensures { result ≡ pending_due pending }
{
    pending.map_or(0, |p| p.place.due())
}

/// The tick until which the work sleeps, and 0 where it doesn't.
fn until(running: Option<Running>) -> u64
    ensures { result ≡ running_until running }
{
    running.map_or(0, |r| r.mode.until())
}

fn worker_of(running: Option<Running>) -> u8
    ensures { result ≡ worker_of running }
{
    running.map_or(0, |r| r.worker)
}

fn pc_of(running: Option<Running>) -> u8
    ensures { result ≡ pc_of running }
{
    running.map_or(0, |r| r.pc)
}

fn left_of(running: Option<Running>) -> u32
    ensures { result ≡ left_of running }
{
    running.map_or(0, |r| r.left)
}

/// The CPU of the timer for which the work waits, and 0 where it waits for none.
fn timer_cpu(pending: Option<Pending>) -> u8
    ensures { result ≡ timer_cpu pending }
{
    pending.map_or(0, |p| cpu_of(p.place))
}

fn cpu_of(place: Place) -> u8
    ensures { result ≡ cpu_of place }
{
    match place {
        Place::Timer { cpu, .. } => cpu,
        _ => 0,
    }
}

fn yes_or_no_text(holds: bool) -> &'static str
    ensures { result.now ≡ yes_or_no_text holds }
{
    if holds { "yes" } else { "no" }
}
