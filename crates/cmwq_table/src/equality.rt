//! Equality of views: by their contents, whatever the capacities of their lists.
ghost use Rattle.std.specs.Cmp.{decided, partial_equiv_from_equiv};
ghost use Rattle.std.specs.Prelude.{◌≡◌, ◌↔◌, IsTrue};
ghost use Rattle.cmwq_table.specs.Equality.{machine_eq, view_eq, works_eq};
ghost use Rattle.cmwq_table.specs.ExactEquality.{view_eq_is_exact};

use crate::view::View;

/// Two views are equal exactly where their contents are.
impl PartialEq for View {
    ghost eq = { view_eq };

    ghost laws = { partial_equiv_from_equiv (decided view_eq view_eq_is_exact) };

    fn eq(&self, other: &View) -> bool
        ensures by_parts { result ≡ view_eq self.now other.now }
        ensures exact { IsTrue result ↔ (self.now ≡ other.now) }
    {
        self.has_machine_of(other)
            && self.max == other.max
            && self.has_works_of(other)
            && self.idle == other.idle
            && self.made == other.made
            && self.flushes == other.flushes
    }
}

impl View {
    /// Whether the time, the counters, the freeze and the shortage of memory are those of the other view.
    fn has_machine_of(&self, other: &View) -> bool
        ensures { result ≡ machine_eq self.now other.now }
    {
        self.time == other.time
            && self.next == other.next
            && self.spent == other.spent
            && self.frozen == other.frozen
            && self.pressed == other.pressed
    }

    /// Whether the same is known of each work as in the other view.
    fn has_works_of(&self, other: &View) -> bool
        ensures { result ≡ works_eq self.now other.now }
    {
        self.pending == other.pending && self.running == other.running && self.depth == other.depth
    }
}

impl Eq for View {
    ghost laws = { decided view_eq view_eq_is_exact };
}
