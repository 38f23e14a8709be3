//! The tally.
ghost use Rattle.cmwq_tally.specs.TallyContents.{changed, count_of, with_one_fewer, with_one_more};
ghost use Rattle.std.specs.Prelude.{◌≡◌, ◌<◌, IfOk, IfSome, length, replicate};

use cmwq_types::{NoMemory, filled};
use std::alloc::Global;
use std::marker::Model;

/// How many works stand in each of some classes, numbered from 0. A work stands in one class at most.
#[derive(Drop)]
pub struct Tally {
    counts: Vec<u16>,
}

impl Model for Tally {
    ghost use Rattle.std.specs.Prelude.{List, ℕ};

    ghost Value = { List ℕ };

    ghost view = { λ t. t.counts.items };
}

impl Tally {
    /// So many classes, with no works in them. The only error is want of memory.
    pub fn new(alloc: Global, classes: usize) -> Result<Tally, NoMemory>
        ensures empty { IfOk result (λ made. made ≡ replicate classes 0) }
    {
        let counts = filled(alloc, 0, classes)?;
        Ok(Tally { counts })
    }

    /// A tally equal to this one. The only error is want of memory.
    pub fn copy(&self) -> Result<Tally, NoMemory>
        ensures { IfOk result (λ copy. copy ≡ self.now) }
    {
        let alloc = *self.counts.allocator();
        let counts = Vec::from_slice(alloc, &self.counts)?;
        Ok(Tally { counts })
    }

    /// How many works stand in the class. Where there is no such class, none.
    #[inline(always)]
    pub fn of(&self, class: usize) -> u16
        ensures { result ≡ count_of self.now class }
    {
        match self.counts.get(class) {
            Some(count) => *count,
            None => 0,
        }
    }

    /// How many works stand in a class that there is.
    #[inline(always)]
    pub fn at(&self, class: usize) -> u16
        requires class { class < length self.now }
        ensures { result ≡ count_of self.now class }
    {
        self.counts[class]
    }

    /// A work goes from one class to another; `None`, and a number that no class has, stand for being in none. It is
    /// quick where they are the same.
    #[inline(always)]
    pub fn change(&mut self, from: Option<usize>, to: Option<usize>)
        requires counted { IfSome from (λ i. i < length self.old → 0 < count_of self.old i) }
        requires room { IfSome to (λ i. count_of self.old i < 65535) }
        ensures changed { self.new ≡ changed self.old from to }
    {
        if from == to {
            return;
        }
        remove_one(&mut self.counts, from);
        add_one(&mut self.counts, to);
    }
}

/// Counts one work fewer in the class.
#[inline(always)]
fn remove_one(counts: &mut [u16], class: Option<usize>)
    requires counted { IfSome class (λ i. i < length counts.old → 0 < count_of counts.old i) }
    ensures { counts.new ≡ with_one_fewer counts.old class }
{
    match class {
        Some(class) if class < counts.len() => counts[class] -= 1,
        _ => {}
    }
}

/// Counts one work more in the class.
#[inline(always)]
fn add_one(counts: &mut [u16], class: Option<usize>)
    requires room { IfSome class (λ i. count_of counts.old i < 65535) }
    ensures { counts.new ≡ with_one_more counts.old class }
{
    match class {
        Some(class) if class < counts.len() => counts[class] += 1,
        _ => {}
    }
}
