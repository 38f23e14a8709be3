//! What a run comes to with one value of a queue's `max_active`, and how that is written.
ghost use Rattle.cmwq_sweep.specs.Sweeping.{sweep_line};
ghost use Rattle.std.specs.Prelude.{Some};

use cmwq_reports::Format;
use std::fmt;

/// What a run comes to where the queue is declared with one value of `max_active`.
#[derive(Clone, Copy, PartialEq, Eq)]
pub struct SweepRow {
    /// The value.
    pub max: u16,
    /// When the last instance finished, in ticks; 0 where none did.
    pub last: u64,
    /// How many instances are still there at the end.
    pub left: usize,
    /// The most works of the queue that were active in one pool at once.
    pub most: u64,
    /// The most ticks for which one instance of the queue's works was inactive, listed and deferred.
    pub longest: u64,
}

/// A row as it is written.
#[derive(Clone, Copy)]
pub(crate) struct SweepLine {
    pub(crate) format: Format,
    pub(crate) row: SweepRow,
}

impl fmt::Display for SweepLine {
    ghost output = { λ line. Some (sweep_line line.format line.row) };

    fn fmt<W: fmt::Write>(&self, f: &mut fmt::Formatter<W>) -> fmt::Result {
        let SweepRow {
            max,
            last,
            left,
            most,
            longest,
        } = self.row;
        match self.format {
            Format::Text => write!(
                f,
                "max {max} last {last} left {left} most {most} longest {longest}\n"
            ),
            Format::Json => write!(
                f,
                "{{\"max\":{max},\"last\":{last},\"left\":{left},\"most\":{most},\"longest\":{longest}}}\n"
            ),
        }
    }
}
