//! Where a line may end, as a law over the grammar, and worked examples of limits and of declarations. The functions do nothing.
ghost use Rattle.cmwq_fitting.specs.Fitting.{fits, may_end, text_fault, with_word};
ghost use Rattle.cmwq_fitting.specs.KnownWords.{name_declared};
ghost use Rattle.cmwq_fitting.specs.NumberLimits.{AreLimits};
ghost use Rattle.cmwq_fitting.specs.Examples.{front_of_actor, front_of_queue};
ghost use Rattle.cmwq_fitting.specs.Ends.{IsLineOf, MayGoOn};
ghost use Rattle.cmwq_grammar.specs.Meaning.{fault_at};
ghost use Rattle.cmwq_grammar.specs.declared.why.Why.TheVariants as why;
ghost use Rattle.cmwq_types.specs.declared.check.Fault.TheVariants as faults;
ghost use Rattle.std.specs.Prelude.{◌≡◌, ◌↔◌, ◌<◌, ◌∷◌, [], ℕ, List, None, Some, codes, true};

use cmwq_grammar::laws::{read_text_spells_its_scenario, reading_fails_at_the_first_fault};

/// A line may end at a place just where some scenario's text, its length left aside, begins with the lines up to there, the last one cut at that place.
pub fn lines_end_where_texts_go_on()
    ensures { (line : ℕ) (text : List ℕ) → IsLineOf line text → may_end line text ≡ true ↔ MayGoOn line text }
{
    read_text_spells_its_scenario();
    reading_fails_at_the_first_fault();
}

/// Where a line may end behind a word, the word fits.
pub fn words_behind_which_a_line_may_end_fit()
    ensures { (line : ℕ) (front word : List ℕ) → may_end line (with_word front word) ≡ true → fits line front word ≡ true }
{}

/// The limits of `max`, and of the times of an instruction.
pub fn limits_are_those_of_the_place()
    ensures max { AreLimits 5 (front_of_queue (codes "q max")) (record { low = 1; high = 512 }) }
    ensures times { AreLimits 10 (front_of_actor (codes "tick *")) (record { low = 1; high = 65535 }) }
    ensures pools { AreLimits 10 (front_of_actor (codes "step")) (record { low = 0; high = 255 }) }
{}

/// A queue's line declares, the operation and the instruction that begin so too don't.
pub fn queues_are_declared_by_their_lines()
    ensures queue { name_declared (codes "queue" ∷ codes "q" ∷ codes "max" ∷ codes "1" ∷ []) ≡ Some (codes "q") }
    ensures operation { name_declared (codes "queue" ∷ codes "a" ∷ codes "0" ∷ []) ≡ None }
    ensures work { name_declared (codes "work" ∷ codes "a" ∷ codes "q" ∷ []) ≡ Some (codes "a") }
    ensures actor { name_declared (codes "actor" ∷ codes "t" ∷ []) ≡ Some (codes "t") }
    ensures body { name_declared (codes "body" ∷ codes "a" ∷ []) ≡ None }
{}
