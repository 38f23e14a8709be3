//! A change of one rank of the tree, to a greater or a lesser one.
ghost use Rattle.cmwq_timers.specs.Tree.{HasGiven, IsLeaf, IsTree, rank_at};
ghost use Rattle.std.specs.Prelude.{◌≡◌, ◌≤◌};

use crate::tree::lower;

/// Gives a leaf another rank, and each node above it the lesser of the two below.
#[inline(always)]
pub(crate) fn change(ranks: &mut [u128], leaf: usize, rank: u128)
    requires tree { IsTree ranks.old }
    requires leaf { IsLeaf ranks.old leaf }
    ensures tree { IsTree ranks.new }
    ensures given { HasGiven ranks.old ranks.new leaf rank }
{
    if rank < ranks[leaf] {
        lower(ranks, leaf, rank);
    } else {
        raise_to(ranks, leaf, rank);
    }
}

/// Gives a leaf a rank that isn't lesser, and each node above that had the leaf's the lesser of the two below it. A node has another rank than the
/// leaf had where their lower halves differ, which are stamp and work.
///
/// Which of two ranks is the lesser can't be foretold, so it is found without a jump. Both are read on each step: where the one of the step before
/// is kept, a jump is made, and one that the processor foretells wrongly costs more than all else here.
#[inline(always)]
pub(crate) fn raise_to(ranks: &mut [u128], leaf: usize, rank: u128)
    requires tree { IsTree ranks.old }
    requires leaf { IsLeaf ranks.old leaf }
    requires no_lesser { rank_at ranks.old leaf ≤ rank }
    ensures tree { IsTree ranks.new }
    ensures given { HasGiven ranks.old ranks.new leaf rank }
{
    let was = ranks[leaf];
    ranks[leaf] = rank;
    let mut at = leaf / 2;
    while at > 0 {
        if ranks[at] % (1 << 64) != was % (1 << 64) {
            return;
        }
        ranks[at] = ranks[2 * at].min(ranks[2 * at + 1]);
        at /= 2;
    }
}
