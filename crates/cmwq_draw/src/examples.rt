//! Worked examples of what is asked of a drawing, as theorems over the definitions: the functions do nothing.
ghost use Rattle.cmwq_draw.specs.Picking.{names_from, works_named};
ghost use Rattle.cmwq_draw.specs.Rendered.{id_of, scale_of};
ghost use Rattle.cmwq_draw.specs.SpanEnd.{end_drawn};
ghost use Rattle.cmwq_render.specs.Examples.{id, three_names};
ghost use Rattle.std.specs.Prelude.{◌≡◌, ◌∷◌, [], codes, None, Some};

/// Names stand with a comma between two.
pub fn names_stand_between_commas()
    ensures two { names_from [] (codes "a,bc") ≡ codes "a" ∷ codes "bc" ∷ [] }
    ensures empty { names_from [] (codes "a,") ≡ codes "a" ∷ [] ∷ [] }
{}

/// The works of these names, in their order, if each is declared.
pub fn works_are_picked_by_name()
    ensures declared { works_named three_names (codes "w2" ∷ codes "w0" ∷ []) ≡ Some (id 2 ∷ id 0 ∷ []) }
    ensures unknown { works_named three_names (codes "w2" ∷ codes "w3" ∷ []) ≡ None }
{}

/// What isn't given: a column is 10 pixels wide, and the picture is called `cmwq`. A column is a pixel wide at least.
pub fn a_style_may_be_left_out()
    ensures scale { scale_of None ≡ 10 }
    ensures narrow { scale_of (Some 0) ≡ 1 }
    ensures id { id_of None ≡ codes "cmwq" }
{}

/// Of a run that ends at 5 an end at 4 cuts off the rest. An end at 5 cuts nothing off, and one behind it doesn't either.
pub fn an_end_that_the_run_does_not_pass_cuts_nothing_off()
    ensures before { end_drawn 5 4 ≡ 4 }
    ensures there { end_drawn 5 5 ≡ 18446744073709551615 }
    ensures behind { end_drawn 5 6 ≡ 18446744073709551615 }
{}
