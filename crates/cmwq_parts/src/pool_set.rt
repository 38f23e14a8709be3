//! Worker pools as the bits of a number.
ghost use Rattle.cmwq_parts.specs.PoolSets.{has_pool};
ghost use Rattle.std.specs.Prelude.{◌≡◌, ◌≢◌, ℕ, ◌<◌, ◌≤◌, ◌%◌, ◌&&◌, ◌||◌, ◌==◌, IfNone, IfSome, false, true};

/// Worker pools with numbers below 64, the bits of a number.
#[derive(Clone, Copy)]
pub struct PoolSet(pub u64);

impl PoolSet {
    /// Each pool with a number below 64.
    pub fn all() -> PoolSet
        ensures { (pool : ℕ) → pool < 64 → has_pool result pool ≡ true }
    {
        PoolSet(u64::MAX)
    }

    /// Each pool with a number below this one.
    #[inline(always)]
    pub fn below(count: u8) -> PoolSet
        requires { count < 64 }
        ensures inside { (pool : ℕ) → pool < count → has_pool result pool ≡ true }
        ensures outside { (pool : ℕ) → count ≤ pool → has_pool result pool ≡ false }
    {
        PoolSet((1 << count) - 1)
    }

    /// No pool.
    pub fn none() -> PoolSet
        ensures { (pool : ℕ) → has_pool result pool ≡ false }
    {
        PoolSet(0)
    }

    /// The least pool of the set.
    pub fn first(self) -> Option<u8>
        ensures in_range { IfSome result (λ pool. pool < 64) }
        ensures member { IfSome result (λ pool. has_pool self pool ≡ true) }
        ensures least { IfSome result (λ pool. (other : ℕ) → other < pool → has_pool self other ≡ false) }
        ensures empty { IfNone result ((pool : ℕ) → has_pool self pool ≡ false) }
    {
        if self.0 == 0 {
            return None;
        }
        Some(self.0.trailing_zeros() as u8)
    }

    /// The set with this pool. A number of 64 or more is taken modulo 64.
    #[inline(always)]
    pub fn with(self, pool: u8) -> PoolSet
        ensures { (other : ℕ) → other < 64 → has_pool result other ≡ (has_pool self other || (other == pool % 64)) }
    {
        PoolSet(self.0 | (1 << (pool % 64)))
    }

    /// The pools of this set and those of the other.
    pub fn union(self, other: PoolSet) -> PoolSet
        ensures { (pool : ℕ) → pool < 64 → has_pool result pool ≡ (has_pool self pool || has_pool other pool) }
    {
        PoolSet(self.0 | other.0)
    }

    /// The pools that both sets have.
    #[inline(always)]
    pub fn common(self, other: PoolSet) -> PoolSet
        ensures { (pool : ℕ) → has_pool result pool ≡ (has_pool self pool && has_pool other pool) }
    {
        PoolSet(self.0 & other.0)
    }

    /// The set without one of its pools.
    pub fn without(self, pool: u8) -> PoolSet
        requires in_range { pool < 64 }
        requires member { has_pool self pool ≡ true }
        ensures gone { has_pool result pool ≡ false }
        ensures others { (other : ℕ) → other < 64 → other ≢ pool → has_pool result other ≡ has_pool self other }
        ensures smaller { result.0 < self.0 }
    {
        PoolSet(self.0 & !(1 << pool))
    }
}
