//! The fields of an object, and its line.
ghost use Rattle.cmwq_trace.specs.Lines.{already_field, changed_field, cpu_field, found_field, object_fields, object_line, outcome_field, reply_fields, seat_fields, ticks_field, timed_fields, work_fields, worker_field};
ghost use Rattle.cmwq_table.specs.Events.{asked_name, was_text};
ghost use Rattle.cmwq_types.specs.Scenario.{is_unbound};
ghost use Rattle.std.specs.Prelude.{◌≡◌, Some};

use crate::seat::Seat;
use cmwq_table::{PlaceWords, RunWords, is_silent, refusal_name};
use cmwq_types::{Event, Instr, Outcome, RESCUER, Reply, Scenario, WorkId};
use std::fmt;

/// The object of a reply at a time, on a line, or nothing where the run prints no line.
#[derive(Clone, Copy)]
pub(crate) struct ObjectLine<'a> {
    pub(crate) scenario: &'a Scenario,
    /// In ticks.
    pub(crate) time: u64,
    pub(crate) instr: Instr,
    pub(crate) reply: Reply,
    pub(crate) seat: Option<Seat>,
}

impl fmt::Display for ObjectLine<'_> {
    ghost output = { λ line. Some (object_line line.scenario.now line.time line.instr line.reply line.seat) };

    fn fmt<W: fmt::Write>(&self, f: &mut fmt::Formatter<W>) -> fmt::Result {
        if is_silent(self.reply) {
            return Ok(());
        }
        let time = self.time;
        let fields = ReplyFields {
            scenario: self.scenario,
            instr: self.instr,
            reply: self.reply,
            seat: self.seat,
        };
        write!(f, "{{\"time\":{time}{fields}}}\n")
    }
}

/// The fields of a reply.
#[derive(Clone, Copy)]
struct ReplyFields<'a> {
    scenario: &'a Scenario,
    instr: Instr,
    reply: Reply,
    seat: Option<Seat>,
}

impl fmt::Display for ReplyFields<'_> {
    ghost output = { λ fields. Some (reply_fields fields.scenario.now fields.instr fields.reply fields.seat) };

    fn fmt<W: fmt::Write>(&self, f: &mut fmt::Formatter<W>) -> fmt::Result {
        match self.reply {
            Reply::Queued | Reply::Done => Ok(()),
            Reply::Already => f.write_str(",\"event\":\"already\""),
            Reply::Changed => f.write_str(",\"event\":\"changed\""),
            Reply::Cancelled => f.write_str(",\"event\":\"cancelled\""),
            Reply::NotPending => f.write_str(",\"event\":\"not pending\""),
            Reply::Sync { was, flush } => {
                let was = was_text(was);
                write!(f, ",\"event\":\"{was}\",\"flush\":{flush}")
            }
            Reply::Flush(flush) => write!(f, ",\"event\":\"flush\",\"flush\":{flush}"),
            Reply::Yes => f.write_str(",\"event\":\"yes\""),
            Reply::No => f.write_str(",\"event\":\"no\""),
            Reply::Found(state) => {
                let work = asked_name(self.scenario, self.instr);
                let place = PlaceWords(state.place);
                let run = RunWords(state.run);
                write!(
                    f,
                    ",\"event\":\"state\",\"work\":\"{work}\",\"pending\":\"{place}\",\"running\":\"{run}\""
                )
            }
            Reply::Event { work, event } => {
                let scenario = self.scenario;
                let verb = event.verb().as_str();
                let work = WorkFields { scenario, work };
                let seat = SeatFields {
                    scenario,
                    seat: self.seat,
                };
                let object = ObjectFields { scenario, event };
                write!(f, ",\"event\":\"{verb}\"{work}{seat}{object}")
            }
            Reply::Refused(why) => {
                let name = refusal_name(why);
                write!(f, ",\"event\":\"refused\",\"reason\":\"{name}\"")
            }
        }
    }
}

/// The names of a work and of its queue.
#[derive(Clone, Copy)]
struct WorkFields<'a> {
    scenario: &'a Scenario,
    work: WorkId,
}

impl fmt::Display for WorkFields<'_> {
    ghost output = { λ fields. Some (work_fields fields.scenario.now fields.work) };

    fn fmt<W: fmt::Write>(&self, f: &mut fmt::Formatter<W>) -> fmt::Result {
        let w = self.work.0 as usize;
        let work = self.scenario.work_name(w);
        let queue = self.scenario.queue_name(self.scenario.queue_of(w) as usize);
        write!(f, ",\"work\":\"{work}\",\"queue\":\"{queue}\"")
    }
}

/// Where an instance is, and its birth.
#[derive(Clone, Copy)]
struct SeatFields<'a> {
    scenario: &'a Scenario,
    seat: Option<Seat>,
}

impl fmt::Display for SeatFields<'_> {
    ghost output = { λ fields. Some (seat_fields fields.scenario.now fields.seat) };

    fn fmt<W: fmt::Write>(&self, f: &mut fmt::Formatter<W>) -> fmt::Result {
        let Some(seat) = self.seat else {
            return Ok(());
        };
        let pool = seat.pool;
        let cpu = CpuField {
            scenario: self.scenario,
            pool,
        };
        let worker = WorkerField(seat.worker);
        let born = seat.born;
        write!(f, ",\"pool\":{pool}{cpu}{worker},\"born\":{born}")
    }
}

/// The CPU of a pool that is on one.
#[derive(Clone, Copy)]
struct CpuField<'a> {
    scenario: &'a Scenario,
    pool: u8,
}

impl fmt::Display for CpuField<'_> {
    ghost output = { λ field. Some (cpu_field field.scenario.now field.pool) };

    fn fmt<W: fmt::Write>(&self, f: &mut fmt::Formatter<W>) -> fmt::Result {
        if is_unbound(self.scenario, self.pool) {
            return Ok(());
        }
        let cpu = self.pool / 2;
        write!(f, ",\"cpu\":{cpu}")
    }
}

/// Whether the pool is one of the two unbound ones.
fn is_unbound(scenario: &Scenario, pool: u8) -> bool
    ensures { result ≡ is_unbound scenario.now pool }
{
    2 * u16::from(scenario.cpus) <= u16::from(pool)
}

/// The worker on which an instance runs, if it runs.
#[derive(Clone, Copy)]
struct WorkerField(Option<u8>);

impl fmt::Display for WorkerField {
    ghost output = { λ field. Some (worker_field field.0) };

    fn fmt<W: fmt::Write>(&self, f: &mut fmt::Formatter<W>) -> fmt::Result {
        match self.0 {
            Some(RESCUER) => f.write_str(",\"rescuer\":true"),
            Some(worker) => write!(f, ",\"worker\":{worker}"),
            None => Ok(()),
        }
    }
}

/// For how long a work burns or sleeps, or which work it queues or takes off, and what came of it.
#[derive(Clone, Copy)]
struct ObjectFields<'a> {
    scenario: &'a Scenario,
    event: Event,
}

impl fmt::Display for ObjectFields<'_> {
    ghost output = { λ fields. Some (object_fields fields.scenario.now fields.event) };

    fn fmt<W: fmt::Write>(&self, f: &mut fmt::Formatter<W>) -> fmt::Result {
        match (self.event.ticks(), self.event.object()) {
            (None, None) => Ok(()),
            (Some(ticks), None) => {
                let ticks = TicksField(ticks);
                write!(f, "{ticks}")
            }
            (None, Some(object)) => {
                let other = self.scenario.work_name(object.work.0 as usize);
                let outcome = outcome_field(object.outcome);
                write!(f, ",\"other\":\"{other}\"{outcome}")
            }
            (Some(ticks), Some(object)) => {
                let timed = TimedFields {
                    scenario: self.scenario,
                    other: object.work,
                    ticks,
                    outcome: outcome_field(object.outcome),
                };
                write!(f, "{timed}")
            }
        }
    }
}

/// Returns the field of an outcome, after a comma, or nothing.
fn outcome_field(outcome: Outcome) -> &'static str
    ensures { result.now ≡ outcome_field outcome }
{
    match outcome {
        Outcome::Queued { already } => already_field(already),
        Outcome::Modified { changed } => changed_field(changed),
        Outcome::Cancelled { was } => found_field(was),
        Outcome::Disabled => ",\"disabled\":true",
    }
}

/// A work that a body queues after some ticks, and what came of it.
#[derive(Clone, Copy)]
struct TimedFields<'a> {
    scenario: &'a Scenario,
    other: WorkId,
    ticks: u32,
    outcome: &'static str,
}

impl fmt::Display for TimedFields<'_> {
    ghost output = { λ fields. Some (timed_fields fields.scenario.now fields.other fields.ticks fields.outcome.now) };

    fn fmt<W: fmt::Write>(&self, f: &mut fmt::Formatter<W>) -> fmt::Result {
        let other = self.scenario.work_name(self.other.0 as usize);
        let ticks = TicksField(self.ticks);
        let outcome = self.outcome;
        write!(f, ",\"other\":\"{other}\"{ticks}{outcome}")
    }
}

/// For how many ticks a work burns or sleeps, or after how many it is queued.
#[derive(Clone, Copy)]
struct TicksField(u32);

impl fmt::Display for TicksField {
    ghost output = { λ field. Some (ticks_field field.0) };

    fn fmt<W: fmt::Write>(&self, f: &mut fmt::Formatter<W>) -> fmt::Result {
        let ticks = self.0;
        write!(f, ",\"ticks\":{ticks}")
    }
}

/// Whether the work that was queued was pending already.
fn already_field(already: bool) -> &'static str
    ensures { result.now ≡ already_field already }
{
    if already { ",\"already\":true" } else { "" }
}

/// Whether the work that was queued anew was pending.
fn changed_field(changed: bool) -> &'static str
    ensures { result.now ≡ changed_field changed }
{
    if changed { ",\"changed\":true" } else { "" }
}

/// Whether the work that a body cancels was pending.
fn found_field(was: bool) -> &'static str
    ensures { result.now ≡ found_field was }
{
    if was { "" } else { ",\"not_pending\":true" }
}

/// Whether the work was taken off.
fn was_text(was: bool) -> &'static str
    ensures { result.now ≡ was_text was }
{
    if was { "cancelled" } else { "not pending" }
}

/// The name of the work that the instruction asks for.
fn asked_name(scenario: &Scenario, instr: Instr) -> &str
    ensures { result.now ≡ asked_name scenario.now instr }
{
    match instr {
        Instr::State(work) => scenario.work_name(work.0 as usize),
        _ => "",
    }
}
