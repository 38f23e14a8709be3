//! The tree of the alarms' ranks, as an alarm is set or stopped.
ghost use Rattle.cmwq_timers.specs.AlarmRanks.{no_alarm};
ghost use Rattle.cmwq_timers.specs.Tree.{HasGiven, IsLeaf, IsTree, node_beside, rank_at};
ghost use Rattle.std.specs.Prelude.{◌≡◌, ◌≤◌};

use crate::alarm_ranks::NO_ALARM;

/// Gives a leaf a lesser rank, and so each node above that had none so low.
#[inline(always)]
pub(crate) fn lower_alarm(ranks: &mut [u64], leaf: usize, rank: u64)
    requires tree { IsTree ranks.old }
    requires leaf { IsLeaf ranks.old leaf }
    requires lesser { rank ≤ rank_at ranks.old leaf }
    ensures tree { IsTree ranks.new }
    ensures given { HasGiven ranks.old ranks.new leaf rank }
{
    ranks[leaf] = rank;
    let mut at = leaf / 2;
    while at > 0 {
        if ranks[at] <= rank {
            return;
        }
        ranks[at] = rank;
        at /= 2;
    }
}

/// Gives a leaf the rank of no alarm, and each node above it the lesser of the two below, up to the root: the alarm that is stopped is nearly always
/// the first in the tree, whose rank each of them had.
///
/// Which of two ranks is the lesser can't be foretold, so it is found without a jump. The one of the step before is kept: of the two below a node
/// only the other is read.
#[inline(always)]
pub(crate) fn raise_alarm(ranks: &mut [u64], leaf: usize)
    requires tree { IsTree ranks.old }
    requires leaf { IsLeaf ranks.old leaf }
    ensures tree { IsTree ranks.new }
    ensures given { HasGiven ranks.old ranks.new leaf no_alarm }
{
    ranks[leaf] = NO_ALARM;
    let mut lesser = NO_ALARM.min(ranks[node_beside(leaf)]);
    let mut at = leaf / 2;
    while at > 0 {
        ranks[at] = lesser;
        lesser = lesser.min(ranks[node_beside(at)]);
        at /= 2;
    }
}

/// The node that stands beside one, below the same node.
#[inline(always)]
fn node_beside(node: usize) -> usize
    ensures { result ≡ node_beside node }
{
    node ^ 1
}
