//! Worked examples of how pictures are drawn, as theorems over the definitions.
ghost use Rattle.cmwq_picture_laws.specs.Drawings.{lettered_rows, lettered_rows_text, long_names, only_acts};
ghost use Rattle.cmwq_render.specs.Sketch.{picture_text};
ghost use Rattle.cmwq_svg.specs.Svg.{is_large_svg};
ghost use Rattle.std.specs.Prelude.{◌≡◌, false, true};

/// A letter stands in front of both rows of a work, and labels have its room.
pub fn letters_stand_before_both_rows()
    ensures { picture_text long_names lettered_rows ≡ lettered_rows_text }
{}

/// What an actor did at one tick makes a picture high: 1,188 pixels with 56 lines, which is not large yet, and 1,208 with 57.
pub fn many_deeds_make_a_picture_large()
    ensures low { is_large_svg long_names (only_acts 56) (record { letters = 0; scale = 10 }) ≡ false }
    ensures high { is_large_svg long_names (only_acts 57) (record { letters = 0; scale = 10 }) ≡ true }
{}
