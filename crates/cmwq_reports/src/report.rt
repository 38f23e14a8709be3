//! What is told of a run to be measured, or to be shown elsewhere.

/// How many values one sweep tries at most.
pub const MOST_LIMITS: u16 = 64;

/// What is told of where a run's time went.
#[derive(Clone, Copy, PartialEq, Eq)]
pub struct Times {
    /// How rows are written.
    pub format: Format,
    /// Whether it is told for whom works waited, too.
    pub whom: bool,
}

/// What is told of runs that differ by a queue's declared `max_active`.
#[derive(Clone, Copy, PartialEq, Eq)]
pub struct Sweep<'a> {
    /// The queue's name.
    pub queue: &'a str,
    /// Its values.
    pub limits: LimitRange,
    /// How rows are written.
    pub format: Format,
}

/// Some values of a queue's `max_active`, one after another.
#[derive(Clone, Copy, PartialEq, Eq)]
pub struct LimitRange {
    /// The first one, from 1.
    pub low: u16,
    /// The last one, at most `MAX_MAX_ACTIVE`, and less than `MOST_LIMITS` above the first.
    pub high: u16,
}

/// How rows are written.
#[derive(Clone, Copy, PartialEq, Eq)]
pub enum Format {
    /// As text: words and numbers, with spaces between them.
    Text,
    /// As JSON: an object a line.
    Json,
}

/// What a run is written as, for tools that show traces.
#[derive(Clone, Copy, PartialEq, Eq)]
pub enum TraceForm {
    /// As slices in Chrome's trace event format.
    Json,
    /// As a JSON object a line for each event.
    Lines,
    /// As events of workqueues, in the form of a kernel's `trace` file.
    Text,
}
