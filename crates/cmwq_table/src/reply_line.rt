//! The line that a reply prints.
ghost use Rattle.cmwq_table.specs.Events.{already_text, asked_name, changed_text, event_text, found_text, is_silent, outcome_text, place_text, refusal_text, reply_line, reply_words, run_text, was_text, worker_number};
ghost use Rattle.std.specs.Prelude.{◌≡◌, Some};

use cmwq_types::{Event, Instr, Mode, Outcome, Place, RESCUER, Refusal, Reply, Scenario, WorkRun};
use std::fmt;

/// A reply at a time, to be printed for a reader of the scenario.
///
/// Its text is a line `TIME WORD ..` with a line feed at its end, or no text for `Queued` and `Done`,
/// which say nothing. The format is this project's own.
#[derive(Clone, Copy)]
pub struct ReplyLine<'a> {
    /// The scenario whose names the line has.
    pub scenario: &'a Scenario,
    /// The time of the reply, in ticks.
    pub time: u64,
    /// The instruction that is answered: the line of an answer to `State` names its work.
    pub instr: Instr,
    /// The answer.
    pub reply: Reply,
}

impl fmt::Display for ReplyLine<'_> {
    ghost output = { λ line. Some (reply_line line.scenario.now line.time line.instr line.reply) };

    #[tactic(auto, unfolding(crate::specs::Events::reply_line))]
    fn fmt<W: fmt::Write>(&self, f: &mut fmt::Formatter<W>) -> fmt::Result {
        if is_silent(self.reply) {
            return Ok(());
        }
        let time = self.time;
        let words = ReplyWords {
            scenario: self.scenario,
            instr: self.instr,
            reply: self.reply,
        };
        write!(f, "{time} {words}\n")
    }
}

/// Whether the reply has no line.
pub fn is_silent(reply: Reply) -> bool
    ensures { result ≡ is_silent reply }
{
    matches!(reply, Reply::Queued | Reply::Done)
}

/// What a reply's line says behind the time.
#[derive(Clone, Copy)]
struct ReplyWords<'a> {
    scenario: &'a Scenario,
    instr: Instr,
    reply: Reply,
}

impl fmt::Display for ReplyWords<'_> {
    ghost output = { λ words. Some (reply_words words.scenario.now words.instr words.reply) };

    fn fmt<W: fmt::Write>(&self, f: &mut fmt::Formatter<W>) -> fmt::Result {
        match self.reply {
            Reply::Queued | Reply::Done => Ok(()),
            Reply::Already => f.write_str("already"),
            Reply::Changed => f.write_str("changed"),
            Reply::Cancelled => f.write_str("cancelled"),
            Reply::NotPending => f.write_str("not pending"),
            Reply::Sync { was, flush } => {
                let was = was_text(was);
                write!(f, "{was} flush {flush}")
            }
            Reply::Flush(flush) => write!(f, "flush {flush}"),
            Reply::Yes => f.write_str("yes"),
            Reply::No => f.write_str("no"),
            Reply::Found(state) => {
                let work = asked_name(self.scenario, self.instr);
                let place = PlaceWords(state.place);
                let run = RunWords(state.run);
                write!(f, "{work} {place} {run}")
            }
            Reply::Event { work, event } => {
                let work = self.scenario.work_name(work.0 as usize);
                let words = EventWords {
                    scenario: self.scenario,
                    event,
                };
                write!(f, "{work} {words}")
            }
            Reply::Refused(why) => {
                let name = refusal_name(why);
                write!(f, "refused {name}")
            }
        }
    }
}

/// What an event's line says behind the name of its work.
#[derive(Clone, Copy)]
struct EventWords<'a> {
    scenario: &'a Scenario,
    event: Event,
}

impl fmt::Display for EventWords<'_> {
    ghost output = { λ words. Some (event_text words.scenario.now words.event) };

    fn fmt<W: fmt::Write>(&self, f: &mut fmt::Formatter<W>) -> fmt::Result {
        f.write_str(self.event.verb().as_str())?;
        match (self.event.ticks(), self.event.object()) {
            (None, None) => Ok(()),
            (Some(ticks), None) => write!(f, " {ticks}"),
            (None, Some(object)) => {
                let other = self.scenario.work_name(object.work.0 as usize);
                let outcome = outcome_text(object.outcome);
                write!(f, " {other}{outcome}")
            }
            (Some(ticks), Some(object)) => {
                let other = self.scenario.work_name(object.work.0 as usize);
                let outcome = outcome_text(object.outcome);
                write!(f, " {other} {ticks}{outcome}")
            }
        }
    }
}

/// Returns the words of an outcome, after a space, or nothing.
fn outcome_text(outcome: Outcome) -> &'static str
    ensures { result.now ≡ outcome_text outcome }
{
    match outcome {
        Outcome::Queued { already } => already_text(already),
        Outcome::Modified { changed } => changed_text(changed),
        Outcome::Cancelled { was } => found_text(was),
        Outcome::Disabled => " disabled",
    }
}

/// Whether the work that was queued was pending already.
fn already_text(already: bool) -> &'static str
    ensures { result.now ≡ already_text already }
{
    if already { " already" } else { "" }
}

/// Whether the work that was queued anew was pending.
fn changed_text(changed: bool) -> &'static str
    ensures { result.now ≡ changed_text changed }
{
    if changed { " changed" } else { "" }
}

/// Whether the work that a body cancels was pending.
fn found_text(was: bool) -> &'static str
    ensures { result.now ≡ found_text was }
{
    if was { "" } else { " not pending" }
}

/// The words of where a work waits: `idle`, `timer DUE`, `inactive P`, `listed P` or `deferred P`, as the
/// answer to `State` has them. DUE is a tick, P a pool's number.
#[derive(Clone, Copy)]
pub struct PlaceWords(pub Option<Place>);

impl fmt::Display for PlaceWords {
    ghost output = { λ words. Some (place_text words.0) };

    fn fmt<W: fmt::Write>(&self, f: &mut fmt::Formatter<W>) -> fmt::Result {
        match self.0 {
            None => write!(f, "idle"),
            Some(Place::Timer { due, .. }) => write!(f, "timer {due}"),
            Some(Place::Inactive(pool)) => write!(f, "inactive {pool}"),
            Some(Place::Listed(pool)) => write!(f, "listed {pool}"),
            Some(Place::Deferred(pool)) => write!(f, "deferred {pool}"),
        }
    }
}

/// The words of where a work runs: `still`, `runs P/WORKER` or `asleep P/WORKER UNTIL`, as the answer to
/// `State` has them. P is a pool's number, WORKER that of a worker of the pool or `rescuer`, UNTIL a tick.
#[derive(Clone, Copy)]
pub struct RunWords(pub Option<WorkRun>);

impl fmt::Display for RunWords {
    ghost output = { λ words. Some (run_text words.0) };

    fn fmt<W: fmt::Write>(&self, f: &mut fmt::Formatter<W>) -> fmt::Result {
        let Some(run) = self.0 else {
            return write!(f, "still");
        };
        let pool = run.pool;
        let worker = WorkerWords(run.worker);
        match run.mode {
            Mode::Runnable => write!(f, "runs {pool}/{worker}"),
            Mode::Asleep(until) => write!(f, "asleep {pool}/{worker} {until}"),
        }
    }
}

/// The number of a worker of a pool, or `rescuer` where it is `RESCUER`, as the answer to `State` has it.
#[derive(Clone, Copy)]
pub struct WorkerWords(pub u8);

impl fmt::Display for WorkerWords {
    ghost output = { λ words. Some (worker_number words.0) };

    fn fmt<W: fmt::Write>(&self, f: &mut fmt::Formatter<W>) -> fmt::Result {
        if self.0 == RESCUER {
            return f.write_str("rescuer");
        }
        let number = self.0;
        write!(f, "{number}")
    }
}

/// Whether the work was taken off.
fn was_text(was: bool) -> &'static str
    ensures { result.now ≡ was_text was }
{
    if was { "cancelled" } else { "not pending" }
}

/// The name of the work that the instruction asks for.
fn asked_name(scenario: &Scenario, instr: Instr) -> &str
    ensures { result.now ≡ asked_name scenario.now instr }
{
    match instr {
        Instr::State(work) => scenario.work_name(work.0 as usize),
        _ => "",
    }
}

/// The refusal's name, as its line has it, without the cause of `Unsettled`.
pub fn refusal_name(why: Refusal) -> &'static str
    ensures { result.now ≡ refusal_text why }
{
    match why {
        Refusal::NoSuchWork => "NoSuchWork",
        Refusal::NoSuchQueue => "NoSuchQueue",
        Refusal::NoSuchCpu => "NoSuchCpu",
        Refusal::NoSuchPool => "NoSuchPool",
        Refusal::NoSuchFlush => "NoSuchFlush",
        Refusal::BadCount => "BadCount",
        Refusal::Spent => "Spent",
        Refusal::TooManyFlushes => "TooManyFlushes",
        Refusal::Ordered => "Ordered",
        Refusal::AlreadyFrozen => "AlreadyFrozen",
        Refusal::NotFrozen => "NotFrozen",
        Refusal::NothingToDo => "NothingToDo",
        Refusal::Unsettled(_) => "Unsettled",
        Refusal::Disabled => "Disabled",
        Refusal::TooDeep => "TooDeep",
        Refusal::NotDisabled => "NotDisabled",
        Refusal::AlreadyPressed => "AlreadyPressed",
        Refusal::NotPressed => "NotPressed",
    }
}
