//! Lists that hold just the works that pass a test, by a number each, as laws: the functions do nothing, they carry the
//! laws. They serve worklists, sleepers and inactive works alike.
ghost use Rattle.cmwq_lists.specs.Ranks.{FirstsAreOfTheTest, LastsAreOfTheTest, TwoKeysAreOne};

/// The first of such a list is the work of least number of those that pass.
#[tactic(auto, using(crate::proofs::CallerLemmas::firsts_are_of_the_test))]
pub fn firsts_are_of_the_test()
    ensures { FirstsAreOfTheTest }
{}

/// Its last is the work of greatest number.
#[tactic(auto, using(crate::proofs::CallerLemmas::lasts_are_of_the_test))]
pub fn lasts_are_of_the_test()
    ensures { LastsAreOfTheTest }
{}

/// The first by two numbers is the first by one: the one times 2^64, plus the other.
#[tactic(auto, using(crate::proofs::CallerLemmas::two_keys_are_one))]
pub fn two_numbers_order_as_one()
    ensures { TwoKeysAreOne }
{}
