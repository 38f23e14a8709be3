//! The states that were seen, in order, and what was noted of each.
ghost use Rattle.cmwq_explore.specs.Searching.{Entry, is_counted, knows};
ghost use Rattle.cmwq_stored.specs.Stored.{StoredContents};
ghost use Rattle.cmwq_explore.specs.declared.seen.Mark.{Mark};
ghost use Rattle.std.specs.Prelude.{◌≡◌, ◌++◌, ◌∷◌, ◌≤◌, ◌<◌, ◌^◌, [], MatchOption, OnErr, OnOk, Some, count_by, false, if◌then◌else◌, length, slice_get};

use cmwq_orders::Choice;
use cmwq_stored::Stored;
use cmwq_types::NoMemory;
use indexmap::IndexMap;
use std::alloc::Global;
use std::marker::Model;

/// What is noted of a state that was seen.
#[derive(Clone, Copy)]
pub(crate) struct Mark {
    /// The place of the state that it came from. The start's is 0.
    pub(crate) from: u32,
    /// The choice by which it came.
    pub(crate) choice: Choice,
    /// How many choices brought it about.
    pub(crate) depth: u16,
    /// It is of the kind that is asked for.
    pub(crate) fails: bool,
    /// It counts for the first number of an answer.
    pub(crate) first: bool,
    /// It counts for the second number of an answer.
    pub(crate) second: bool,
    /// Its machine has spent the scenario's steps.
    pub(crate) spent: bool,
}

/// What is counted of what was noted.
#[derive(Clone, Copy)]
pub(crate) enum Counted {
    /// Those that count for the first number of an answer.
    First,
    /// Those that count for the second number of an answer.
    Second,
    /// Those whose machine has spent the scenario's steps.
    Spent,
}

impl Mark {
    /// Whether it is counted.
    fn is_counted(self, counted: Counted) -> bool
        ensures { result ≡ is_counted counted self }
    {
        match counted {
            Counted::First => self.first,
            Counted::Second => self.second,
            Counted::Spent => self.spent,
        }
    }
}

/// The states that were seen, in the order in which they were, each once.
#[derive(Drop)]
pub(crate) struct Seen {
    states: IndexMap<Stored, Mark>,
}

impl Model for Seen {
    ghost use Rattle.cmwq_explore.specs.Searching.{Entry};
    ghost use Rattle.std.specs.Prelude.{List};

    ghost Value = { List Entry };

    ghost view = { λ s. s.states.entries };
}

impl Seen {
    /// None was seen.
    pub(crate) fn new(alloc: Global) -> Seen
        ensures { result ≡ [] }
    {
        Seen {
            states: IndexMap::new(alloc),
        }
    }

    /// How many were seen.
    pub(crate) fn len(&self) -> usize
        ensures len { result ≡ length self.now }
        ensures small { result < 2 ^ 63 }
    {
        self.states.len()
    }

    /// Whether the state was seen.
    pub(crate) fn knows(&self, stored: &Stored) -> bool
        ensures { result ≡ knows self.now stored.now }
    {
        self.states.contains_key(stored)
    }

    /// Adds a state that wasn't seen. The only error is want of memory, and then nothing changes.
    pub(crate) fn add(&mut self, stored: &Stored, mark: Mark) -> Result<(), NoMemory>
        requires new { knows self.old stored.now ≡ false }
        ensures added { OnOk result (self.new ≡ self.old ++ (stored.now, mark) ∷ []) }
        ensures same { OnErr result (self.new ≡ self.old) }
    {
        let kept = stored.kept()?;
        self.states.insert(kept, mark)?;
        Ok(())
    }

    /// What was noted of the state at this place, from 0; `None` where there is none.
    pub(crate) fn mark(&self, place: usize) -> Option<Mark>
        ensures { MatchOption result (length self.now ≤ place) (λ m. (k : StoredContents) × (slice_get self.now place ≡ Some (k, m))) }
    {
        match self.states.get_index(place) {
            Some((_, mark)) => Some(*mark),
            None => None,
        }
    }

    /// Of how many states this was noted.
    pub(crate) fn count(&self, counted: Counted) -> usize
        ensures { result ≡ count_by (λ (x : Entry). is_counted counted x.1) self.now }
    {
        let mut count = 0;
        for place in 0..self.len() {
            count += self.one_at(place, counted);
        }
        count
    }

    /// What was noted of the state at this place.
    pub(crate) fn mark_at(&self, place: usize) -> Mark
        requires { place < length self.now }
        ensures { (k : StoredContents) × (slice_get self.now place ≡ Some (k, result)) }
    {
        match self.mark(place) {
            Some(mark) => mark,
            None => unreachable!(),
        }
    }

    /// 1 where this was noted of the state at this place, else 0.
    fn one_at(&self, place: usize, counted: Counted) -> usize
        requires { place < length self.now }
        ensures one { (k : StoredContents) × (m : Mark) × (slice_get self.now place ≡ Some (k, m)) × (result ≡ (if is_counted counted m then 1 else 0)) }
        ensures small { result ≤ 1 }
    {
        if self.mark_at(place).is_counted(counted) {
            1
        } else {
            0
        }
    }
}
