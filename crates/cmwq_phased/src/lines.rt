//! The lines in which running works stand.
ghost use Rattle.cmwq_lists.specs.ListContents.{IsApart, rank_at, with_rank};
ghost use Rattle.cmwq_phased.specs.Indexes.{AreLined, AreRuns, IsApartFromOthers, rank_of, standing_of, stands_by};
ghost use Rattle.cmwq_phased.specs.declared.pools.TheConstants.{MAX_POOLS};
ghost use Rattle.cmwq_phased.specs.Runs.{HasOwnStamp, is_ready, run_at};
ghost use Rattle.cmwq_types.specs.Setting.{IsSetting};
ghost use Rattle.cmwq_types.specs.declared.limits.TheConstants.{MAX_WORKS};
ghost use Rattle.std.specs.Prelude.{◌≡◌, ◌+◌, ◌<◌, IfSome, IsTrue, None, Some, length, slice_set};

use crate::classes::is_awake;
use crate::pools::MAX_POOLS;
use crate::{Phase, Run};
use cmwq_lists::{Lists, Node};
use cmwq_types::{Scenario, WorkId};

/// A place in one of the lists: which one, and the number that orders it there.
#[derive(Clone, Copy, PartialEq, Eq)]
pub(crate) struct Standing {
    pub(crate) list: usize,
    pub(crate) order: u128,
}

/// The number of the list in which those of the pool stand whose sleep is over.
#[inline(always)]
pub(crate) fn rested_list(pool: u8) -> usize
    ensures { result ≡ MAX_POOLS + pool }
{
    usize::from(MAX_POOLS) + usize::from(pool)
}

/// Where a work that runs so stands, if anywhere.
#[inline(always)]
pub(crate) fn standing_of(scenario: &Scenario, run: Option<Run>) -> Option<Standing>
    requires setting { IsSetting scenario.now }
    ensures { result ≡ standing_of scenario.now run }
{
    match run {
        Some(run) if run.pool < MAX_POOLS => stands_by(scenario.is_unbound(run.pool), run),
        _ => None,
    }
}

/// Where a running work stands in an unbound pool, or in a bound one.
#[inline(always)]
fn stands_by(unbound: bool, run: Run) -> Option<Standing>
    ensures { result ≡ stands_by unbound run run.phase }
{
    let in_line = Standing {
        list: usize::from(run.pool),
        order: u128::from(run.stamp),
    };
    match run.phase {
        Phase::Ready => Some(in_line),
        Phase::Held(_) | Phase::Burning(_) if unbound => None,
        Phase::Held(_) | Phase::Burning(_) => Some(in_line),
        Phase::Asleep(_) => None,
        Phase::Slept(until) => Some(Standing {
            list: rested_list(run.pool),
            order: u128::from(until) * (1 << 64) + u128::from(run.stamp),
        }),
    }
}

/// Lets a work that ran so, if it did, stand where it does when it runs otherwise, if anywhere.
#[inline(always)]
pub(crate) fn line_up(
    lines: &mut Lists,
    scenario: &Scenario,
    runs: &[Option<Run>],
    w: usize,
    was: Option<Run>,
    run: Option<Run>,
)
    requires runs { AreRuns scenario.now runs.now }
    requires lined { AreLined scenario.now runs.now lines.old }
    requires work { w < length scenario.now.works }
    requires was { run_at runs.now w ≡ was }
    requires own_stamp { HasOwnStamp runs.now w run }
    ensures lined { AreLined scenario.now (slice_set runs.now w run) lines.new }
{
    let _runs = runs;
    let before = standing_of(scenario, was);
    move_to(lines, w, before, standing_of(scenario, run));
}

/// The same where the work stays in its pool. Where it's known at once that it stays in its place nothing is touched.
#[inline(always)]
pub(crate) fn line_up_in_pool(
    lines: &mut Lists,
    scenario: &Scenario,
    runs: &[Option<Run>],
    w: usize,
    was: Run,
    run: Run,
)
    requires runs { AreRuns scenario.now runs.now }
    requires lined { AreLined scenario.now runs.now lines.old }
    requires work { w < length scenario.now.works }
    requires was { run_at runs.now w ≡ Some was }
    requires pool { run.pool ≡ was.pool }
    requires own_stamp { HasOwnStamp runs.now w (Some run) }
    ensures lined { AreLined scenario.now (slice_set runs.now w (Some run)) lines.new }
{
    if !stays_in_line(scenario.is_unbound(run.pool), was, run) {
        line_up(lines, scenario, runs, w, Some(was), Some(run));
    }
}

/// Whether it's known at once that a work that stays in its pool, an unbound or a bound one, stays in its place: who is awake with nothing left to
/// burn stands in line by his stamp, and in a bound one so does who has ticks left.
#[inline(always)]
fn stays_in_line(unbound: bool, was: Run, run: Run) -> bool
    requires pool { run.pool ≡ was.pool }
    ensures { IsTrue result → stands_by unbound was was.phase ≡ stands_by unbound run run.phase }
{
    was.stamp == run.stamp
        && (is_ready(was.phase) && is_ready(run.phase)
            || !unbound && is_awake(was.phase) && is_awake(run.phase))
}

/// Whether a work in this phase is awake and has nothing left to burn.
#[inline(always)]
fn is_ready(phase: Phase) -> bool
    ensures { result ≡ is_ready phase }
{
    matches!(phase, Phase::Ready)
}

/// Takes a work out of the list in which it stands, if it does, and puts it where it is to stand, if anywhere. Where it stood in none the lists
/// aren't asked.
#[inline(always)]
fn move_to(lines: &mut Lists, w: usize, was: Option<Standing>, standing: Option<Standing>)
    requires work { w < length lines.old.ranks }
    requires few { w < MAX_WORKS }
    requires was { rank_at lines.old w ≡ rank_of was }
    requires list { IfSome standing (λ s. s.list < lines.old.lists) }
    requires apart { IfSome standing (IsApartFromOthers lines.old w) }
    ensures { lines.new ≡ with_rank lines.old w (rank_of standing) }
{
    leave(lines, w, was);
    if let Some(Standing { list, order }) = standing {
        stand_in(lines, w, list, order);
    }
}

/// Puts a work that stands in no list into this one, by this order. It is called, and not written out at each of its calls: what looks for the
/// work's place there is long.
#[inline(never)]
fn stand_in(lines: &mut Lists, w: usize, list: usize, order: u128)
    requires work { w < length lines.old.ranks }
    requires few { w < MAX_WORKS }
    requires free { rank_at lines.old w ≡ None }
    requires list { list < lines.old.lists }
    requires apart { IsApart lines.old list order }
    ensures { lines.new ≡ with_rank lines.old w (Some (record { list = list; order = order })) }
{
    let work = WorkId(w as u16);
    lines.insert_by(list, Node { order, work });
}

/// Takes a work out of the list in which it stands, if it does.
#[inline(always)]
fn leave(lines: &mut Lists, w: usize, was: Option<Standing>)
    requires work { w < length lines.old.ranks }
    requires was { rank_at lines.old w ≡ rank_of was }
    ensures { lines.new ≡ with_rank lines.old w None }
{
    if was.is_some() {
        lines.take(w);
    }
}
