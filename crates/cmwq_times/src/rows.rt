//! Rows of instances and of sums, as text or as JSON.
ghost use Rattle.cmwq_table.specs.Events.{work_name};
ghost use Rattle.cmwq_times.specs.TimesText.{cpu_row, fate_words, line_row, now_row, place_word, pool_row, queue_instances, queue_load, queue_row, ticks_pending, ticks_running};
ghost use Rattle.cmwq_types.specs.Scenario.{queue_at};
ghost use Rattle.std.specs.Prelude.{◌≡◌, Some};

use cmwq_ledger::{Fate, QueueTotals, Ticks, TimesLine};
use cmwq_reports::Format;
use cmwq_types::{Place, Scenario};
use std::fmt;

/// The row of an instance.
#[derive(Clone, Copy)]
pub(crate) struct LineRow<'a> {
    pub(crate) format: Format,
    pub(crate) scenario: &'a Scenario,
    pub(crate) line: TimesLine,
}

impl fmt::Display for LineRow<'_> {
    ghost output = { λ row. Some (line_row row.format row.scenario.now row.line) };

    fn fmt<W: fmt::Write>(&self, f: &mut fmt::Formatter<W>) -> fmt::Result {
        let format = self.format;
        let now = self.line.time;
        let work = self.scenario.work_name(self.line.work.0 as usize);
        let fate = FateWords {
            format,
            fate: self.line.fate,
        };
        let since = self.line.account.since;
        let ticks = self.line.account.ticks;
        let pending = TicksPending { format, ticks };
        let running = TicksRunning { format, ticks };
        match format {
            Format::Text => write!(f, "{now} {work} {fate} since {since} {pending} {running}\n"),
            Format::Json => write!(
                f,
                "{{\"now\":{now},\"work\":\"{work}\",{fate},\"since\":{since},{pending},{running}}}\n"
            ),
        }
    }
}

/// What became of an instance.
#[derive(Clone, Copy)]
struct FateWords {
    format: Format,
    fate: Fate,
}

impl fmt::Display for FateWords {
    ghost output = { λ words. Some (fate_words words.format words.fate) };

    fn fmt<W: fmt::Write>(&self, f: &mut fmt::Formatter<W>) -> fmt::Result {
        match self.format {
            Format::Text => match self.fate {
                Fate::Finished => f.write_str("finished"),
                Fate::Cancelled => f.write_str("cancelled"),
                Fate::StillPending(place) => write!(f, "still {}", place_word(place)),
                Fate::StillRunning => f.write_str("still running"),
            },
            Format::Json => match self.fate {
                Fate::Finished => f.write_str("\"end\":\"finished\""),
                Fate::Cancelled => f.write_str("\"end\":\"cancelled\""),
                Fate::StillPending(place) => {
                    write!(f, "\"end\":\"still\",\"state\":\"{}\"", place_word(place))
                }
                Fate::StillRunning => f.write_str("\"end\":\"still\",\"state\":\"running\""),
            },
        }
    }
}

/// Where a work is still pending.
fn place_word(place: Place) -> &'static str
    ensures { result.now ≡ place_word place }
{
    match place {
        Place::Timer { .. } => "timer",
        Place::Inactive(_) => "inactive",
        Place::Listed(_) => "listed",
        Place::Deferred(_) => "deferred",
    }
}

/// What an instance did while it was pending.
#[derive(Clone, Copy)]
struct TicksPending {
    format: Format,
    ticks: Ticks,
}

impl fmt::Display for TicksPending {
    ghost output = { λ words. Some (ticks_pending words.format words.ticks) };

    fn fmt<W: fmt::Write>(&self, f: &mut fmt::Formatter<W>) -> fmt::Result {
        let Ticks {
            timer,
            inactive,
            listed,
            deferred,
            ..
        } = self.ticks;
        match self.format {
            Format::Text => write!(
                f,
                "timer {timer} inactive {inactive} listed {listed} deferred {deferred}"
            ),
            Format::Json => write!(
                f,
                "\"timer\":{timer},\"inactive\":{inactive},\"listed\":{listed},\"deferred\":{deferred}"
            ),
        }
    }
}

/// What an instance did while it ran.
#[derive(Clone, Copy)]
struct TicksRunning {
    format: Format,
    ticks: Ticks,
}

impl fmt::Display for TicksRunning {
    ghost output = { λ words. Some (ticks_running words.format words.ticks) };

    fn fmt<W: fmt::Write>(&self, f: &mut fmt::Formatter<W>) -> fmt::Result {
        let Ticks {
            ready,
            burned,
            slept,
            ..
        } = self.ticks;
        match self.format {
            Format::Text => write!(f, "ready {ready} burned {burned} slept {slept}"),
            Format::Json => write!(f, "\"ready\":{ready},\"burned\":{burned},\"slept\":{slept}"),
        }
    }
}

/// The row of a queue.
#[derive(Clone, Copy)]
pub(crate) struct QueueRow<'a> {
    pub(crate) format: Format,
    pub(crate) name: &'a str,
    pub(crate) totals: QueueTotals,
    /// How many of its works are active at the end.
    pub(crate) active: u64,
}

impl fmt::Display for QueueRow<'_> {
    ghost output = { λ row. Some (queue_row row.format row.name.now row.totals row.active) };

    fn fmt<W: fmt::Write>(&self, f: &mut fmt::Formatter<W>) -> fmt::Result {
        let name = self.name;
        let format = self.format;
        let totals = self.totals;
        let instances = QueueInstances { format, totals };
        let load = QueueLoad {
            format,
            totals,
            active: self.active,
        };
        match format {
            Format::Text => write!(f, "queue {name} {instances} {load}\n"),
            Format::Json => write!(f, "{{\"queue\":\"{name}\",{instances},{load}}}\n"),
        }
    }
}

/// How many instances a queue had.
#[derive(Clone, Copy)]
struct QueueInstances {
    format: Format,
    totals: QueueTotals,
}

impl fmt::Display for QueueInstances {
    ghost output = { λ words. Some (queue_instances words.format words.totals) };

    fn fmt<W: fmt::Write>(&self, f: &mut fmt::Formatter<W>) -> fmt::Result {
        let QueueTotals {
            started,
            finished,
            cancelled,
            rescued,
            ..
        } = self.totals;
        match self.format {
            Format::Text => write!(
                f,
                "started {started} finished {finished} cancelled {cancelled} rescued {rescued}"
            ),
            Format::Json => write!(
                f,
                "\"started\":{started},\"finished\":{finished},\"cancelled\":{cancelled},\"rescued\":{rescued}"
            ),
        }
    }
}

/// What a queue burned, and how full it was.
#[derive(Clone, Copy)]
struct QueueLoad {
    format: Format,
    totals: QueueTotals,
    active: u64,
}

impl fmt::Display for QueueLoad {
    ghost output = { λ words. Some (queue_load words.format words.totals words.active) };

    fn fmt<W: fmt::Write>(&self, f: &mut fmt::Formatter<W>) -> fmt::Result {
        let active = self.active;
        let QueueTotals {
            burned,
            most,
            longest,
            ..
        } = self.totals;
        match self.format {
            Format::Text => write!(
                f,
                "burned {burned} active {active} most {most} longest {longest}"
            ),
            Format::Json => write!(
                f,
                "\"burned\":{burned},\"active\":{active},\"most\":{most},\"longest\":{longest}"
            ),
        }
    }
}

/// The row of a CPU.
#[derive(Clone, Copy)]
pub(crate) struct CpuRow {
    pub(crate) format: Format,
    pub(crate) cpu: u8,
    pub(crate) burned: u64,
    pub(crate) idle: u64,
}

impl fmt::Display for CpuRow {
    ghost output = { λ row. Some (cpu_row row.format row.cpu row.burned row.idle) };

    fn fmt<W: fmt::Write>(&self, f: &mut fmt::Formatter<W>) -> fmt::Result {
        let CpuRow {
            format,
            cpu,
            burned,
            idle,
        } = *self;
        match format {
            Format::Text => write!(f, "cpu {cpu} burned {burned} idle {idle}\n"),
            Format::Json => write!(f, "{{\"cpu\":{cpu},\"burned\":{burned},\"idle\":{idle}}}\n"),
        }
    }
}

/// The row of an unbound pool.
#[derive(Clone, Copy)]
pub(crate) struct PoolRow {
    pub(crate) format: Format,
    pub(crate) pool: u8,
    pub(crate) burned: u64,
}

impl fmt::Display for PoolRow {
    ghost output = { λ row. Some (pool_row row.format row.pool row.burned) };

    fn fmt<W: fmt::Write>(&self, f: &mut fmt::Formatter<W>) -> fmt::Result {
        let PoolRow {
            format,
            pool,
            burned,
        } = *self;
        match format {
            Format::Text => write!(f, "pool {pool} burned {burned}\n"),
            Format::Json => write!(f, "{{\"pool\":{pool},\"burned\":{burned}}}\n"),
        }
    }
}

/// The row of the time to which a run came, and of what it spent.
#[derive(Clone, Copy)]
pub(crate) struct NowRow {
    pub(crate) format: Format,
    pub(crate) now: u64,
    pub(crate) spent: u32,
}

impl fmt::Display for NowRow {
    ghost output = { λ row. Some (now_row row.format row.now row.spent) };

    fn fmt<W: fmt::Write>(&self, f: &mut fmt::Formatter<W>) -> fmt::Result {
        let NowRow { format, now, spent } = *self;
        match format {
            Format::Text => write!(f, "now {now} spent {spent}\n"),
            Format::Json => write!(f, "{{\"now\":{now},\"spent\":{spent}}}\n"),
        }
    }
}
