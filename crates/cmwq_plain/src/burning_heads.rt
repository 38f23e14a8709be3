//! A tick of the works that have a CPU, once the head of each pool is known.
ghost use Rattle.cmwq_plain.specs.BurningHeads.{burns_beside};
ghost use Rattle.cmwq_plain.specs.Heads.{AreHeads};
ghost use Rattle.cmwq_table.specs.Counts.{burns};
ghost use Rattle.cmwq_table.specs.Moves.{burned, one_less};
ghost use Rattle.cmwq_types.specs.Scenario.{pool_count};
ghost use Rattle.std.specs.Prelude.{◌≡◌, slice_index_or};

use crate::records::Records;
use crate::rest::are_none;
use cmwq_reads::{Sought, first};
use cmwq_table::Running;
use cmwq_types::{MAX_CPUS, Mode};

/// A normal and a high pool for each CPU, and two unbound ones.
const MAX_POOLS: usize = 2 * MAX_CPUS as usize + 2;

impl Records {
    /// Each running work that has a CPU burns one tick.
    pub(crate) fn burn_all(&mut self)
        ensures { self.new ≡ record self.old { state = record self.old.state { running = burned (burns self.old.scenario self.old.state) 0 self.old.state.running } } }
    {
        if are_none(&self.running) {
            return;
        }
        let heads = self.heads();
        let unbound = 2 * self.scenario.cpus;
        burn(&mut self.running, &heads, unbound);
    }

    /// The first runnable work of each pool.
    pub(crate) fn heads(&self) -> [Option<usize>; MAX_POOLS]
        ensures { AreHeads self.now.scenario self.now.state (pool_count self.now.scenario) result }
    {
        let mut heads = [None; MAX_POOLS];
        for pool in 0..self.scenario.pool_count() {
            heads[pool as usize] = first(self, Sought::Runnable { pool });
        }
        heads
    }
}

/// Each running work that has a CPU burns one tick. Pools are bound to a CPU below the number `unbound`, and
/// `heads` has the first runnable work of each of them, by the pool's number.
pub(crate) fn burn(running: &mut [Option<Running>], heads: &[Option<usize>], unbound: u8)
    ensures { running.new ≡ burned (burns_beside heads.now unbound) 0 running.old }
{
    for (w, work) in running.iter_mut().enumerate() {
        if burns_beside(heads, unbound, w, *work) {
            *work = one_less(*work);
        }
    }
}

/// Whether the work has a CPU: in an unbound pool if it is runnable, else as the head of its pool,
/// and on a normal pool only where the CPU's high pool has no head.
fn burns_beside(heads: &[Option<usize>], unbound: u8, w: usize, running: Option<Running>) -> bool
    ensures { result ≡ burns_beside heads.now unbound w running }
{
    let Some(r) = running else {
        return false;
    };
    if r.pool >= unbound {
        return matches!(r.mode, Mode::Runnable);
    }
    head(heads, r.pool as usize) == Some(w)
        && (r.pool % 2 == 1 || head(heads, r.pool as usize + 1).is_none())
}

fn head(heads: &[Option<usize>], pool: usize) -> Option<usize>
    ensures { result ≡ slice_index_or heads.now pool None }
{
    heads.get(pool).copied().unwrap_or(None)
}

fn one_less(running: Option<Running>) -> Option<Running>
    ensures { result ≡ one_less running }
{
    running.map(|r| Running {
        left: r.left.saturating_sub(1),
        ..r
    })
}
