//! Why a work isn't further, as text.
ghost use Rattle.cmwq_reasons.specs.Reasons.{counted_works, running_half, work_of, works_on_workers};
ghost use Rattle.cmwq_why_text.specs.WhyText.{beside_run, inactive_text, listed_text, name_of, items, pending_text, plain_text, reason_text, room_text, spaced_name, spent_text, timer_text, turn_text, why_text, worker_words};
ghost use Rattle.cmwq_types.specs.Scenario.{queue_of};
ghost use Rattle.std.specs.Fmt.{decimal};
ghost use Rattle.std.specs.List.{flat_map};
ghost use Rattle.std.specs.Prelude.{◌≡◌, ◌++◌, OnOk, codes, map, string_bytes};

use crate::wording::Wording;
use cmwq_reads::{active, is_spent, limit};
use cmwq_reasons::{Instance, Reason, Turn};
use cmwq_table::Reads;
use cmwq_types::{NoMemory, WorkId};
use cmwq_why::{ReasonGroup, group_works, holders, on_workers, pending_reason, running_reason};

impl<R: Reads> Wording<'_, R> {
    /// Writes why the work isn't further: what runs of it and what pends of it, and whether the scenario's steps are spent.
    pub(crate) fn push_why(&self, text: &mut String, w: WorkId) -> Result<(), NoMemory>
        ensures { OnOk result (string_bytes text.new ≡ string_bytes text.old ++ why_text (R.loaded self.now.machine.now) (R.state self.now.machine.now) w.0) }
    {
        match running_reason(self.machine, w) {
            Some(reason) => {
                self.push_reason(text, w, reason)?;
                self.push_beside_run(text, w)?;
            }
            None => self.push_pending(text, w)?,
        }
        self.push_spent(text)
    }

    /// Writes what is told of the pending half of a work that runs.
    fn push_beside_run(&self, text: &mut String, w: WorkId) -> Result<(), NoMemory>
        ensures { OnOk result (string_bytes text.new ≡ string_bytes text.old ++ beside_run (R.loaded self.now.machine.now) (R.state self.now.machine.now) w.0) }
    {
        if self.machine.pending_of(w.0 as usize).is_none()
            && self.machine.depth_of(w.0 as usize) == 0
        {
            return Ok(());
        }
        text.push_str("; ")?;
        self.push_pending(text, w)
    }

    fn push_pending(&self, text: &mut String, w: WorkId) -> Result<(), NoMemory>
        ensures { OnOk result (string_bytes text.new ≡ string_bytes text.old ++ pending_text (R.loaded self.now.machine.now) (R.state self.now.machine.now) w.0) }
    {
        self.push_reason(text, w, pending_reason(self.machine, w))
    }

    fn push_spent(&self, text: &mut String) -> Result<(), NoMemory>
        ensures { OnOk result (string_bytes text.new ≡ string_bytes text.old ++ spent_text (R.loaded self.now.machine.now) (R.state self.now.machine.now)) }
    {
        if is_spent(self.machine) {
            text.push_str("; spent")?;
        }
        Ok(())
    }

    /// Appends the text of the reason, which is one of the work's. The only error is want of memory; then a part of it may be
    /// appended.
    pub fn push_reason(&self, text: &mut String, w: WorkId, reason: Reason) -> Result<(), NoMemory>
        ensures { OnOk result (string_bytes text.new ≡ string_bytes text.old ++ reason_text (R.loaded self.now.machine.now) (R.state self.now.machine.now) w.0 reason) }
    {
        match reason {
            Reason::Frozen(pool) => {
                self.push_inactive(text, w, pool)?;
                text.push_str(" is frozen")?;
                Ok(())
            }
            Reason::Inactive(pool) => {
                self.push_inactive(text, w, pool)?;
                self.push_room(text, w, pool)
            }
            Reason::Held(pool) => self.push_held(text, w, pool),
            Reason::Free { pool, turn } => {
                self.push_listed(text, w, pool)?;
                push_free(text, turn)
            }
            Reason::After { pool, first } => {
                self.push_listed(text, w, pool)?;
                self.push_named(text, "after ", first)
            }
            Reason::NoWorker(pool) => self.push_no_worker(text, w, pool),
            _ => self.push_plain(text, reason),
        }
    }

    /// Writes the reason of a work that doesn't wait in a pool.
    fn push_plain(&self, text: &mut String, reason: Reason) -> Result<(), NoMemory>
        ensures { OnOk result (string_bytes text.new ≡ string_bytes text.old ++ plain_text (R.loaded self.now.machine.now) reason) }
    {
        match reason {
            Reason::Asleep(until) => push_number(text, "asleep until ", until),
            Reason::WakesNext => push_text(text, "sleep is over, wakes next"),
            Reason::WakesAfter(x) => self.push_named(text, "sleep is over, after ", x),
            Reason::Behind(v) => self.push_named(text, "runnable, behind ", Instance::Running(v)),
            Reason::ReadyNext => push_text(text, "ready, goes on next"),
            Reason::ReadyAfter(x) => self.push_named(text, "ready, after ", x),
            Reason::HighHas(v) => self.push_high(text, v),
            Reason::Burns => push_text(text, "burns"),
            Reason::Disabled(depth) => push_number(text, "disabled ", u64::from(depth)),
            Reason::NotPending => push_text(text, "not pending"),
            Reason::Timer { due, cpu } => push_timer(text, due, cpu),
            Reason::FiresNext => push_text(text, "timer is due, fires next"),
            Reason::FiresAfter(v) => {
                self.push_named(text, "timer is due, after ", Instance::Pending(v))
            }
            Reason::Deferred(pool) => push_deferred(text, pool),
            _ => Ok(()),
        }
    }

    /// Writes the words and the name of the instance's work.
    fn push_named(&self, text: &mut String, words: &str, x: Instance) -> Result<(), NoMemory>
        ensures { OnOk result (string_bytes text.new ≡ string_bytes text.old ++ (words.now ++ name_of (R.loaded self.now.machine.now) (work_of x))) }
    {
        text.push_str(words)?;
        text.push_str(self.instance_name(x))?;
        Ok(())
    }

    /// Writes that the high pool of the work's CPU has another work to run.
    fn push_high(&self, text: &mut String, v: WorkId) -> Result<(), NoMemory>
        ensures { OnOk result (string_bytes text.new ≡ string_bytes text.old ++ (codes "runnable, high " ++ name_of (R.loaded self.now.machine.now) v.0 ++ codes " has the CPU")) }
    {
        let name = self.name(v.0);
        write!(text, "runnable, high {name} has the CPU")?;
        Ok(())
    }

    /// Writes that the work is on the pool's worklist, and behind whom.
    fn push_listed(&self, text: &mut String, w: WorkId, pool: u8) -> Result<(), NoMemory>
        ensures { OnOk result (string_bytes text.new ≡ string_bytes text.old ++ listed_text (R.loaded self.now.machine.now) (R.state self.now.machine.now) w.0 pool) }
    {
        let work = w.0 as usize;
        let before = group_works(
            self.alloc,
            self.machine,
            ReasonGroup::ListedBefore { pool, work },
        )?;
        write!(text, "listed {pool}")?;
        self.push_ahead(text, &before)?;
        text.push_str(": ")?;
        Ok(())
    }

    /// Writes that the work waits in the pool for room in its queue, behind whom, and the queue's name.
    fn push_inactive(&self, text: &mut String, w: WorkId, pool: u8) -> Result<(), NoMemory>
        ensures { OnOk result (string_bytes text.new ≡ string_bytes text.old ++ inactive_text (R.loaded self.now.machine.now) (R.state self.now.machine.now) w.0 pool) }
    {
        let work = w.0 as usize;
        let before = group_works(
            self.alloc,
            self.machine,
            ReasonGroup::InactiveBefore { pool, work },
        )?;
        write!(text, "inactive {pool}")?;
        self.push_ahead(text, &before)?;
        text.push_str(": ")?;
        text.push_str(self.queue_name(work))?;
        Ok(())
    }

    /// Writes how much of its queue's limit is taken up in the pool, and by whom.
    fn push_room(&self, text: &mut String, w: WorkId, pool: u8) -> Result<(), NoMemory>
        ensures { OnOk result (string_bytes text.new ≡ string_bytes text.old ++ room_text (R.loaded self.now.machine.now) (R.state self.now.machine.now) (queue_of (R.loaded self.now.machine.now) w.0) pool) }
    {
        let queue = self.machine.scenario().queue_of(w.0 as usize);
        let holders = holders(self.alloc, self.machine, queue, pool)?;
        let active = active(self.machine, queue, pool);
        let limit = limit(self.machine, queue);
        write!(text, " has {active} of {limit} active")?;
        self.push_items(text, &holders)
    }

    /// Writes that the work is held by the pool's concurrency level, and who makes it up.
    fn push_held(&self, text: &mut String, w: WorkId, pool: u8) -> Result<(), NoMemory>
        ensures { OnOk result (string_bytes text.new ≡ string_bytes text.old ++ listed_text (R.loaded self.now.machine.now) (R.state self.now.machine.now) w.0 pool ++ codes "held by" ++ flat_map (spaced_name (R.loaded self.now.machine.now)) (counted_works (R.loaded self.now.machine.now) (R.state self.now.machine.now) pool)) }
    {
        let counted = group_works(self.alloc, self.machine, ReasonGroup::Counted(pool))?;
        self.push_listed(text, w, pool)?;
        text.push_str("held by")?;
        self.push_names(text, &counted)
    }

    /// Writes that there is no free worker for the work, and who has those that there are.
    fn push_no_worker(&self, text: &mut String, w: WorkId, pool: u8) -> Result<(), NoMemory>
        ensures { OnOk result (string_bytes text.new ≡ string_bytes text.old ++ listed_text (R.loaded self.now.machine.now) (R.state self.now.machine.now) w.0 pool ++ worker_words (R.state self.now.machine.now) ++ items (R.loaded self.now.machine.now) (R.state self.now.machine.now) (map running_half (works_on_workers (R.loaded self.now.machine.now) (R.state self.now.machine.now) (queue_of (R.loaded self.now.machine.now) w.0) pool))) }
    {
        let queue = self.machine.scenario().queue_of(w.0 as usize);
        let running = on_workers(self.alloc, self.machine, queue, pool)?;
        self.push_listed(text, w, pool)?;
        text.push_str(if self.machine.is_pressed() {
            "no free worker under pressure"
        } else {
            "no free worker"
        })?;
        self.push_items(text, &running)
    }
}

/// Writes the words.
fn push_text(text: &mut String, words: &str) -> Result<(), NoMemory>
    ensures { OnOk result (string_bytes text.new ≡ string_bytes text.old ++ words.now) }
{
    text.push_str(words)?;
    Ok(())
}

/// Appends the words and the number, in decimal. The only error is want of memory.
pub fn push_number(text: &mut String, words: &str, number: u64) -> Result<(), NoMemory>
    ensures { OnOk result (string_bytes text.new ≡ string_bytes text.old ++ (words.now ++ decimal number)) }
{
    write!(text, "{words}{number}")?;
    Ok(())
}

/// Writes that the work waits for its own end.
fn push_deferred(text: &mut String, pool: u8) -> Result<(), NoMemory>
    ensures { OnOk result (string_bytes text.new ≡ string_bytes text.old ++ (codes "deferred " ++ decimal pool ++ codes ": it still runs")) }
{
    write!(text, "deferred {pool}: it still runs")?;
    Ok(())
}

/// Writes until when a timer runs, and on which CPU it places its work then.
fn push_timer(text: &mut String, due: u64, cpu: u8) -> Result<(), NoMemory>
    ensures { OnOk result (string_bytes text.new ≡ string_bytes text.old ++ timer_text due cpu) }
{
    write!(text, "timer until {due} cpu {cpu}")?;
    Ok(())
}

/// Writes that a work is free to go, and what becomes of it.
fn push_free(text: &mut String, turn: Turn) -> Result<(), NoMemory>
    ensures { OnOk result (string_bytes text.new ≡ string_bytes text.old ++ codes "free to go, " ++ turn_text turn) }
{
    text.push_str("free to go, ")?;
    text.push_str(turn_text(turn))?;
    Ok(())
}

fn turn_text(turn: Turn) -> &'static str
    ensures { result.now ≡ turn_text turn }
{
    match turn {
        Turn::Starts => "starts next",
        Turn::Defers => "defers next",
        Turn::StartsOnRescuer => "starts next on rescuer",
    }
}
