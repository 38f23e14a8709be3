//! What the letters of works are, as laws: the functions do nothing, they carry the laws.
ghost use Rattle.cmwq_render.specs.Laws.{EachHasOne, NoneIsASign, NoTwoAreAlike};

/// Where a scenario has at most 62 works, each has a letter.
#[tactic(auto, using(crate::proofs::LetterLemmas::one_each))]
pub fn each_work_has_a_letter()
    ensures { EachHasOne }
{}

/// No two works of a scenario have the same letter.
#[tactic(auto, using(crate::proofs::LetterLemmas::no_two))]
pub fn no_two_works_have_one_letter()
    ensures { NoTwoAreAlike }
{}

/// If a scenario has at most 61 works, no work has a letter that is a sign.
#[tactic(auto, using(crate::proofs::SignLemmas::none_is_sign))]
pub fn no_letter_is_a_sign()
    ensures { NoneIsASign }
{}
