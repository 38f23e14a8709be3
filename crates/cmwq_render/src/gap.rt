//! The folded columns of a picture.
ghost use Rattle.cmwq_render.specs.Gaps.{gap_between, gaps, gaps_from, ticks_words};
ghost use Rattle.std.specs.Prelude.{◌≡◌, ◌+◌, ◌-◌, ◌++◌, IfOk, OnOk, Some, nat_lt};

use cmwq_types::NoMemory;
use std::alloc::Global;
use std::fmt;

/// A column that stands for more than one tick.
#[derive(Clone, Copy)]
pub struct Gap {
    /// Its number, from 0.
    pub column: usize,
    /// The time at which it begins, in ticks.
    pub from: u64,
    /// The time at which it ends.
    pub to: u64,
}

impl Gap {
    /// What is said of it.
    pub fn words(self) -> GapWords
        ensures ticks { result.ticks ≡ self.to - self.from }
        ensures from { result.from ≡ self.from }
    {
        GapWords {
            ticks: self.to.saturating_sub(self.from),
            from: self.from,
        }
    }
}

/// So many ticks at which nothing changes, and when they begin.
#[derive(Clone, Copy)]
pub struct GapWords {
    /// How many.
    pub ticks: u64,
    /// When they begin.
    pub from: u64,
}

impl fmt::Display for GapWords {
    ghost output = { λ gap. Some (ticks_words gap.ticks gap.from) };

    #[tactic(auto, unfolding(crate::specs::Gaps::ticks_words))]
    fn fmt<W: fmt::Write>(&self, f: &mut fmt::Formatter<W>) -> fmt::Result {
        let GapWords { ticks, from } = *self;
        write!(f, "{ticks} ticks from {from} on: nothing changes")
    }
}

/// The folded ones of the columns that begin and end at these times, from left to right. The only error is want of memory.
pub fn gaps(alloc: Global, edges: &[u64]) -> Result<Vec<Gap>, NoMemory>
    ensures { IfOk result (λ found. found.items ≡ gaps edges.now) }
{
    let mut gaps = Vec::new(alloc);
    if let Some((first, later)) = edges.split_first() {
        push_gaps(&mut gaps, *first, later)?;
    }
    Ok(gaps)
}

/// Pushes those of the columns the first of which begins at this time, and which end at these.
fn push_gaps(gaps: &mut Vec<Gap>, first: u64, later: &[u64]) -> Result<(), NoMemory>
    ensures { OnOk result (gaps.new.items ≡ gaps.old.items ++ gaps_from 0 first later.now) }
{
    let mut from = first;
    for (column, to) in later.iter().enumerate() {
        push_gap(gaps, column, from, *to)?;
        from = *to;
    }
    Ok(())
}

/// Pushes the column, if it stands for more than one tick.
fn push_gap(gaps: &mut Vec<Gap>, column: usize, from: u64, to: u64) -> Result<(), NoMemory>
    ensures { OnOk result (gaps.new.items ≡ gaps.old.items ++ gap_between column from to) }
{
    if stands_for_more(from, to) {
        gaps.push(Gap { column, from, to })?;
    }
    Ok(())
}

/// Whether more than one tick passes between the two times.
pub(crate) fn stands_for_more(from: u64, to: u64) -> bool
    ensures { result ≡ nat_lt (from + 1) to }
{
    from < to && to - from > 1
}
