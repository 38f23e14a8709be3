//! Worked pictures as SVG, as theorems over the definitions: the functions do nothing.
ghost use Rattle.cmwq_svg.specs.Examples.{armed_row, armed_row_svg, one_name, said, six_rows, six_rows_hints, six_rows_svg, two_names, two_rows, two_rows_svg};
ghost use Rattle.cmwq_svg.specs.Layout.{full_width, is_large, wide_step};
ghost use Rattle.cmwq_svg.specs.Svg.{name_svg, svg_text, with_id};
ghost use Rattle.std.specs.Prelude.{◌≡◌, ◌∷◌, ◌++◌, [], codes, false, true};

/// Two rows as SVG: each label, rectangle, name and line of the legend has its place.
pub fn two_rows_are_drawn_as_svg()
    ensures { svg_text one_name two_rows (record { row = 0; text = codes "ab why\n" } ∷ []) (codes "one") 12 ≡ two_rows_svg }
{}

/// A rectangle that shows who has set a timer has a class and a name of its own, and a line of the legend; it shows a work waiting, as that of
/// the timer behind it does.
pub fn who_set_a_timer_is_drawn_as_svg()
    ensures { svg_text two_names armed_row (said 0 (codes "1st\n") ∷ said 0 (codes "2nd\n") ∷ []) (codes "one") 20 ≡ armed_row_svg }
{}

/// Rows of each kind and each sign, in a large picture with a folded column: labels stand at the right too, each rectangle has its
/// title, and one that shows a work waiting the next line that is said of its row.
pub fn a_large_picture_is_drawn_as_svg()
    ensures { svg_text two_names six_rows six_rows_hints (codes "p7") 220 ≡ six_rows_svg }
{}

/// A picture is large from 1,201 pixels on, in either direction.
pub fn pictures_are_large()
    ensures small { is_large 1200 1200 ≡ false }
    ensures wide { is_large 1201 0 ≡ true }
    ensures high { is_large 0 1201 ≡ true }
{}

/// A name stands in a rectangle that is 8 pixels wide for each of its letters, and in none that is less.
pub fn names_have_room()
    ensures room { name_svg (codes "ab") 100 42 16 ≡ codes "<text class='who' x='108' y='42'>ab</text>\n" }
    ensures none { name_svg (codes "ab") 100 42 15 ≡ [] }
{}

/// Times stand 50 pixels apart or more: over each fifth column of 10, tenth of 5, and fiftieth of 1.
pub fn times_stand_apart()
    ensures ten { wide_step 10 5 ≡ 5 }
    ensures nine { wide_step 9 5 ≡ 10 }
    ensures five { wide_step 5 5 ≡ 10 }
    ensures one { wide_step 1 5 ≡ 50 }
{}

/// A picture is as wide as its columns, its legend, or the words of what the actor did, and 16 pixels more.
pub fn pictures_are_wide()
    ensures columns { full_width (record { letters = 1; scale = 10 }) 50 500 ≡ 540 }
    ensures legend { full_width (record { letters = 1; scale = 10 }) 5 0 ≡ 440 }
    ensures words { full_width (record { letters = 1; scale = 10 }) 5 600 ≡ 616 }
{}

/// The picture's own name stands wherever the style has `~`.
pub fn each_place_is_filled()
    ensures { with_id (codes "p7") (codes ".~ .waits{fill:url(#~-waits)}") ≡ codes ".p7 .waits{fill:url(#p7-waits)}" }
{}
