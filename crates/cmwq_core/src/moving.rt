//! Sets of pools that may have a move.
ghost use Rattle.cmwq_core.specs.Moving.{IsGrown, listed_pool};
ghost use Rattle.cmwq_parts.specs.PoolSets.{has_pool};
ghost use Rattle.std.specs.Prelude.{◌≡◌, ◌≢◌, ◌<◌, ℕ, Some};

use cmwq_parts::PoolSet;
use cmwq_types::Place;

/// The pool on whose worklist the place is, if it is on one.
pub(crate) fn listed_pool(place: Place) -> Option<u8>
    ensures { result ≡ listed_pool place }
{
    match place {
        Place::Listed(pool) => Some(pool),
        Place::Inactive(_) | Place::Deferred(_) | Place::Timer { .. } => None,
    }
}

/// The set with this pool.
pub(crate) fn with(pools: PoolSet, pool: u8) -> PoolSet
    ensures { IsGrown pools (Some pool) result }
{
    pools.with(pool)
}

/// The set with this pool, if there is one.
pub(crate) fn with_some(pools: PoolSet, pool: Option<u8>) -> PoolSet
    ensures { IsGrown pools pool result }
{
    match pool {
        None => pools,
        Some(pool) => with(pools, pool),
    }
}

/// The set without this pool.
pub(crate) fn without(pools: PoolSet, pool: u8) -> PoolSet
    ensures { (other : ℕ) → other < 64 → other ≢ pool → has_pool result other ≡ has_pool pools other }
{
    if pool < 64 {
        PoolSet(pools.0 & !(1 << pool))
    } else {
        pools
    }
}
