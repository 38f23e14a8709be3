//! Worked pictures, as theorems over the definitions: the functions do nothing.
ghost use Rattle.cmwq_render.specs.Examples.{alike, armed_names, armed_rows, armed_rows_text, called_as_a_sign, each_sign, each_sign_text, first_table, first_table_text, kept_free, last_of_63, last_of_63_text, long_times_text, named_work, names, namesakes, only_times, short_times_text, three_names};
ghost use Rattle.cmwq_render.specs.Letters.{letters};
ghost use Rattle.cmwq_render.specs.Sketch.{picture_text};
ghost use Rattle.std.specs.Prelude.{◌≡◌, ◌∷◌, [], codes};

/// The first table of the kernel's document.
pub fn first_table_is_drawn()
    ensures { picture_text three_names first_table ≡ first_table_text }
{}

/// Each sign has its letter and its words, each kind of row its label, and the times begin with the first column's.
pub fn each_sign_is_drawn()
    ensures { picture_text (names (named_work (codes "a") ∷ named_work (codes "bc") ∷ [])) each_sign ≡ each_sign_text }
{}

/// The letter of who set a timer stands in the row of the work that is on it, or in the second row of one that runs; and a line of its own
/// explains it.
pub fn who_set_a_timer_is_drawn()
    ensures { picture_text armed_names armed_rows ≡ armed_rows_text }
{}

/// Times of four digits stand over each fifth column, longer ones over each twentieth. Where no sign occurs, there is no legend.
pub fn times_have_room()
    ensures short { picture_text (names []) (only_times 9979 20) ≡ short_times_text }
    ensures long { picture_text (names []) (only_times 9980 20) ≡ long_times_text }
{}

/// A work has the first letter of its name that is left, is no sign and begins no other name, else the first of all letters that is so, and else any
/// that is left.
pub fn letters_are_given()
    ensures alike { letters alike ≡ codes "ayb3" }
    ensures kept { letters kept_free ≡ codes "acbd" }
    ensures sign { letters called_as_a_sign ≡ codes "ab" }
    ensures many { letters (namesakes 62) ≡ codes "yabcdefghijklmnopqrstuvwzABCDEFGHIJKLMNOPQRSTUVWXYZ0123456789x" }
{}

/// Where there are more works than letters, none has one.
pub fn many_works_have_no_letters()
    ensures { picture_text (namesakes 63) last_of_63 ≡ last_of_63_text }
{}
