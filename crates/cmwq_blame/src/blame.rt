//! For whom the works of a run waited.
use crate::counting::{are_below, count_tick, place_of};
use crate::passing::lets_pass;
use cmwq_table::{Machine, Reads};
use cmwq_types::{Instr, NoMemory, Scenario, filled};
use std::alloc::Global;
use std::marker::Model;

/// For how many ticks each work of a run waited for each other one, and for nobody.
#[derive(Drop)]
pub struct Blame {
    works: usize,
    /// Of each work a row: the count for nobody, and behind it those for the works by number.
    counts: Vec<u64>,
}

impl Model for Blame {
    ghost use Rattle.cmwq_blame.specs.Blame.{BlameContents};
    ghost use Rattle.cmwq_types.specs.declared.limits.TheConstants.{MAX_WORKS};
    ghost use Rattle.std.specs.Prelude.{◌≡◌, ◌+◌, ◌*◌, ◌≤◌, length};

    ghost Value = { BlameContents };

    ghost view = { λ blame. record { works = blame.works; counts = blame.counts.items } };

    ghost invariant = { λ blame. (blame.works ≤ MAX_WORKS) × (length blame.counts.items ≡ blame.works * (blame.works + 1)) };
}

impl Blame {
    ghost use Rattle.cmwq_blame.specs.Blame.{are_below, blame_after, blame_ticked, no_blame, waited};
    ghost use Rattle.cmwq_blame.specs.Bounds.{IsBlameWithin};
    ghost use Rattle.cmwq_types.specs.Setting.{IsSetting};
    ghost use Rattle.std.specs.Prelude.{◌≡◌, ◌^◌, IfOk};

    /// The counts of a run of the scenario before its first instruction: a row a work, with a count for nobody and one for each work. The
    /// only error is want of memory; later nothing takes any.
    pub fn open(alloc: Global, scenario: &Scenario) -> Result<Blame, NoMemory>
        requires { IsSetting scenario.now }
        ensures { IfOk result (λ blame. blame ≡ no_blame scenario.now) }
    {
        let works = scenario.works.len();
        Ok(Blame {
            works,
            counts: filled(alloc, 0, works * (works + 1))?,
        })
    }

    /// Counts the tick that passes in the instruction, which the machine has yet to carry out, if one does: of each work that waits in the
    /// machine's state for others, a tick for each work that its reason blames, or for nobody if it blames none. It takes no memory.
    pub fn record<M: Machine>(&mut self, machine: &M, instr: Instr)
        requires room { IsBlameWithin (2 ^ 62) self.old }
        ensures { self.new ≡ blame_after (M.loaded machine.now) self.old (M.state machine.now) instr }
    {
        if lets_pass(machine, instr) {
            self.tick(machine);
        }
    }

    /// For how many ticks the work waited for the other one, or for nobody; 0 where they aren't works of the run.
    pub fn waited(&self, w: usize, other: Option<usize>) -> u64
        ensures { result ≡ waited self.now w other }
    {
        if are_below(self.works, w, other) {
            self.counts[place_of(self.works, w, other)]
        } else {
            0
        }
    }

    /// Counts a tick in the machine's state.
    fn tick<R: Reads>(&mut self, machine: &R)
        requires room { IsBlameWithin (2 ^ 62) self.old }
        ensures { self.new ≡ blame_ticked (R.loaded machine.now) (R.state machine.now) self.old }
    {
        let Blame { works, counts } = self;
        count_tick(counts, *works, machine);
    }
}
