//! Worked examples of folding, as theorems over the definitions: which ticks share a column, and how many are too many.
ghost use Rattle.cmwq_picture.specs.Folding.{edges_from, is_long, is_wide};
ghost use Rattle.cmwq_picture_laws.specs.Folded.{from_on, ticks_alike, ticks_of_columns, up_to};
ghost use Rattle.cmwq_picture_laws.specs.Pictures.{between, whole};
ghost use Rattle.std.specs.Prelude.{◌≡◌, ◌∷◌, ◌++◌, [], false, replicate, true};

/// More than 20 ticks that are told alike share a column where folding is asked, if the actor did nothing at them.
pub fn more_than_20_ticks_share_a_column()
    ensures most { ticks_of_columns true (ticks_alike false 20) ≡ replicate 20 1 }
    ensures more { ticks_of_columns true (ticks_alike false 21) ≡ 21 ∷ [] }
    ensures unasked { ticks_of_columns false (ticks_alike false 21) ≡ replicate 21 1 }
    ensures acted { ticks_of_columns true (ticks_alike true 21) ≡ replicate 21 1 }
    ensures beside { ticks_of_columns true (ticks_alike false 21 ++ ticks_alike true 1 ++ ticks_alike false 22) ≡ 21 ∷ 1 ∷ 22 ∷ [] }
{}

/// Each column begins where the one before ends, also behind folded ones, and the last time is that at which the last one ends.
pub fn column_begins_where_the_one_before_ends()
    ensures { edges_from 5 (21 ∷ 1 ∷ 22 ∷ []) ≡ 5 ∷ 26 ∷ 27 ∷ 49 ∷ [] }
{}

/// More than 500 ticks are too long for a column each, unless both ends of the span are given.
pub fn more_than_500_ticks_are_long()
    ensures most { is_long whole (ticks_alike false 500) ≡ false }
    ensures more { is_long whole (ticks_alike false 501) ≡ true }
    ensures from_on { is_long (from_on 0) (ticks_alike false 501) ≡ true }
    ensures up_to { is_long (up_to 501) (ticks_alike false 501) ≡ true }
    ensures both { is_long (between 0 501) (ticks_alike false 501) ≡ false }
{}

/// More than 500 columns are too wide, also folded, unless both ends of the span are given.
pub fn more_than_500_columns_are_too_wide()
    ensures most { is_wide whole (ticks_alike true 500) ≡ false }
    ensures more { is_wide whole (ticks_alike true 501) ≡ true }
    ensures folded { is_wide whole (ticks_alike false 501) ≡ false }
    ensures both { is_wide (between 0 501) (ticks_alike true 501) ≡ false }
{}
