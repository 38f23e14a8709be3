//! Equality of columns: by their contents, whatever the capacities of their lists.
ghost use Rattle.std.specs.Cmp.{decided, partial_equiv_from_equiv};
ghost use Rattle.std.specs.Prelude.{◌≡◌, ◌↔◌, IsTrue};
ghost use Rattle.cmwq_picture.specs.Equality.{column_eq};
ghost use Rattle.cmwq_picture.specs.ExactEquality.{column_eq_is_exact};

use crate::column::Column;

/// Two columns are equal exactly where their contents are.
impl PartialEq for Column {
    ghost eq = { column_eq };

    ghost laws = { partial_equiv_from_equiv (decided column_eq column_eq_is_exact) };

    fn eq(&self, other: &Column) -> bool
        ensures by_parts { result ≡ column_eq self.now other.now }
        ensures exact { IsTrue result ↔ (self.now ≡ other.now) }
    {
        self.works == other.works
            && self.pending == other.pending
            && self.burners == other.burners
            && self.frozen == other.frozen
            && self.pressed == other.pressed
            && self.acted == other.acted
    }
}

impl Eq for Column {
    ghost laws = { decided column_eq column_eq_is_exact };
}
