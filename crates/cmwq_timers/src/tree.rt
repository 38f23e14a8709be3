//! The tree of ranks.
ghost use Rattle.cmwq_timers.specs.Tree.{HasGiven, IsLeaf, IsTree, rank_at};
ghost use Rattle.std.specs.Prelude.{◌≡◌, ◌-◌, ◌^◌, ◌≤◌};

use crate::changing::raise_to;

/// Gives a leaf a lesser rank, and so each node above that had none so low.
#[inline(always)]
pub(crate) fn lower(ranks: &mut [u128], leaf: usize, rank: u128)
    requires tree { IsTree ranks.old }
    requires leaf { IsLeaf ranks.old leaf }
    requires lesser { rank ≤ rank_at ranks.old leaf }
    ensures tree { IsTree ranks.new }
    ensures given { HasGiven ranks.old ranks.new leaf rank }
{
    ranks[leaf] = rank;
    let mut at = leaf / 2;
    while at > 0 {
        if ranks[at] <= rank {
            return;
        }
        ranks[at] = rank;
        at /= 2;
    }
}

/// Gives a leaf the greatest rank, and each node above that had the leaf's the lesser of the two below it.
#[inline(always)]
pub(crate) fn raise(ranks: &mut [u128], leaf: usize)
    requires tree { IsTree ranks.old }
    requires leaf { IsLeaf ranks.old leaf }
    ensures tree { IsTree ranks.new }
    ensures given { HasGiven ranks.old ranks.new leaf (2 ^ 128 - 1) }
{
    raise_to(ranks, leaf, u128::MAX);
}
