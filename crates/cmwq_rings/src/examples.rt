//! Worked examples of rings, as theorems over their definition. The functions do nothing.
ghost use Rattle.cmwq_rings.specs.Rings.{IsRing, Pair, goes_in_ring};
ghost use Rattle.std.specs.Prelude.{◌≡◌, [], ◌∷◌, codes, false, true};

/// `--before a b --before b a` goes in the ring a, b, a.
pub fn two_wait_for_each_other()
    ensures ring { IsRing ((codes "a", codes "b") ∷ (codes "b", codes "a") ∷ []) (codes "a" ∷ codes "b" ∷ []) }
    ensures told { goes_in_ring ((codes "a", codes "b") ∷ (codes "b", codes "a") ∷ []) ≡ true }
{}

/// `--before a b --before b c --before c a` goes in the ring a, b, c, a, and in none the other way round.
pub fn three_wait_in_a_circle()
    ensures ring { IsRing ((codes "a", codes "b") ∷ (codes "b", codes "c") ∷ (codes "c", codes "a") ∷ []) (codes "a" ∷ codes "b" ∷ codes "c" ∷ []) }
    ensures one_way { IsRing ((codes "a", codes "b") ∷ (codes "b", codes "c") ∷ (codes "c", codes "a") ∷ []) (codes "c" ∷ codes "b" ∷ codes "a" ∷ []) → ⊥ }
    ensures told { goes_in_ring ((codes "a", codes "b") ∷ (codes "b", codes "c") ∷ (codes "c", codes "a") ∷ []) ≡ true }
{}

/// `--before a a` is one already.
pub fn a_pair_of_one_is_a_ring()
    ensures ring { IsRing ((codes "a", codes "a") ∷ []) (codes "a" ∷ []) }
    ensures told { goes_in_ring ((codes "a", codes "a") ∷ []) ≡ true }
{}

/// `--before b c --before a b --before c d` goes in none.
pub fn a_line_is_no_ring()
    ensures { goes_in_ring ((codes "b", codes "c") ∷ (codes "a", codes "b") ∷ (codes "c", codes "d") ∷ []) ≡ false }
{}

/// Nor does `--before a b --before a c --before b d --before c d`.
pub fn two_ways_to_one_are_no_ring()
    ensures { goes_in_ring ((codes "a", codes "b") ∷ (codes "a", codes "c") ∷ (codes "b", codes "d") ∷ (codes "c", codes "d") ∷ []) ≡ false }
{}
