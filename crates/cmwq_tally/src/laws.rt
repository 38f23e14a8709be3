//! When a tally is right, as laws: each is the contract of a function with an empty body.
ghost use Rattle.cmwq_tally.specs.TallyContents.{ChangesKeepTallies, EmptyTalliesAreRight, TalliesCountEachWork, TalliesCountFewWorks};

/// Where no work stands in a class, the empty tally is right.
pub fn empty_tallies_are_right()
    ensures { EmptyTalliesAreRight }
{}

/// A tally stays right where one work changes its class, and the tally with it.
#[tactic(auto, using(crate::proofs::TallyLemmas::changed_is_tallied))]
pub fn changes_keep_tallies_right()
    ensures { ChangesKeepTallies }
{}

/// A right tally counts no more works in a class than there are.
#[tactic(auto, using(crate::proofs::TallyLemmas::few_are_counted))]
pub fn tallies_count_few_works()
    ensures { TalliesCountFewWorks }
{}

/// A right tally counts at least one work in the class of each.
pub fn tallies_count_each_work()
    ensures { TalliesCountEachWork }
{}
