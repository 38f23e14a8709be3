//! Worked examples of what `explore` writes, put down by hand: the text of an order, the line of an answer, or a fault.
#![tactic(auto, unfolding(cmwq_explored::specs::Asking::fault_of, cmwq_explored::specs::Asking::question_asked))]

ghost use Rattle.cmwq_examples.specs.Declare.{flush};
ghost use Rattle.cmwq_exploration.specs.declared.exploration.Exploration.{Exploration};
ghost use Rattle.cmwq_exploration.specs.declared.exploration.Never.TheVariants as never;
ghost use Rattle.cmwq_explored.specs.Answers.{gave_up_line, whole_line, whole_outcome};
ghost use Rattle.cmwq_explored.specs.Asking.{fault_of};
ghost use Rattle.cmwq_explored.specs.declared.error.ExploreError.TheVariants as error;
ghost use Rattle.cmwq_explored.specs.declared.outcome.Outcome.TheVariants as outcome;
ghost use Rattle.cmwq_command_examples.specs.Told.{IsTold, notes_behind, poll, poll_text, tally, text_behind};
ghost use Rattle.cmwq_command_examples.specs.Drivers.{frozen_driver, goes, lone_driver, one_before_other, steps};
ghost use Rattle.cmwq_streams.specs.declared.error.PlayError.TheVariants as play;
ghost use Rattle.std.specs.Borrow.{Bor};
ghost use Rattle.std.specs.Prelude.{◌≡◌, ◌∷◌, ◌++◌, [], None, Some, List, codes, ℕ};

use cmwq_orders::Question;

/// The order in which a removal that only cancels ends beside its running poll, as a scenario.
pub fn removal_is_found_beside_its_poll()
    ensures { text_behind poll (one_before_other 0 1 ∷ []) (Question.After 1 (record { 0 = 0 })) (goes 0 ∷ steps 0 ∷ goes 1 ∷ []) ≡ Some poll_text }
{}

/// Each step is told by its number, with who takes it and its instruction, and behind it its reply's line, if it has one.
pub fn orders_are_told_step_by_step()
    ensures runs { notes_behind poll [] (Question.Never (record { 0 = 0 })) (goes 0 ∷ steps 0 ∷ [])
        ≡ Some (codes "poll runs" ∷ codes "1 probe queue poll 0" ∷ codes "2 (machine) step 0" ∷ codes "  0 poll starts" ∷ codes "remove is before cancel poll" ∷ []) }
    ensures together { notes_behind poll [] (Question.Together (record { 0 = 0 }) (record { 0 = 0 })) []
        ≡ Some (codes "poll and poll run at the same time" ∷ codes "probe is before queue poll 0" ∷ codes "remove is before cancel poll" ∷ []) }
{}

/// Behind the steps stands who waits, and for which flush; and who stands before which line. Who has ended isn't told.
pub fn who_has_not_ended_is_told_last()
    ensures waits { notes_behind frozen_driver [] Question.Stuck (goes 0 ∷ goes 0 ∷ goes 0 ∷ [])
        ≡ Some (codes "no actor can go on, and not all have ended" ∷ codes "1 pm freeze" ∷ codes "2 pm queue a 0" ∷ codes "3 pm flush a" ∷ codes "  0 flush 0" ∷ codes "pm waits for flush 0" ∷ []) }
    ensures before { notes_behind poll [] (Question.After 0 (record { 0 = 0 })) (goes 0 ∷ [])
        ≡ Some (codes "poll is pending or runs, and probe has ended" ∷ codes "1 probe queue poll 0" ∷ codes "remove is before cancel poll" ∷ []) }
{}

/// An answer tells in how many of all states what was asked for came at all. Where it came in none the answer is vacuous, but for a work that
/// was never to run; where steps were spent it holds within these.
pub fn answers_count_what_was_asked_for()
    ensures holds { whole_line poll (Question.After 1 (record { 0 = 0 })) (tally 1273 139 0 0) ≡ codes "holds in all 1273 states; remove has ended in 139" ++ 10 ∷ [] }
    ensures is_proved { whole_outcome (Question.After 1 (record { 0 = 0 })) (tally 1273 139 0 0) ≡ outcome.Holds }
    ensures within { whole_line poll (Question.After 1 (record { 0 = 0 })) (tally 416 46 0 1) ≡ codes "holds within 100 steps, in all 416 states; remove has ended in 46" ++ 10 ∷ [] }
    ensures is_open { whole_outcome (Question.After 1 (record { 0 = 0 })) (tally 416 46 0 1) ≡ outcome.Open }
    ensures vacuous { whole_line frozen_driver (Question.After 0 (record { 0 = 0 })) (tally 4 0 0 0) ≡ codes "vacuous in all 4 states; pm has ended in 0" ++ 10 ∷ [] }
    ensures is_vacuous { whole_outcome (Question.After 0 (record { 0 = 0 })) (tally 4 0 0 0) ≡ outcome.Open }
    ensures never { whole_line poll (Question.Never (record { 0 = 0 })) (tally 7 0 0 0) ≡ codes "holds in all 7 states; poll is pending in 0" ++ 10 ∷ [] }
    ensures together { whole_line poll (Question.Together (record { 0 = 0 }) (record { 0 = 0 })) (tally 7 2 3 0) ≡ codes "holds in all 7 states; poll runs in 2, poll in 3" ++ 10 ∷ [] }
    ensures one_never_runs { whole_line poll (Question.Together (record { 0 = 0 }) (record { 0 = 0 })) (tally 7 2 0 0) ≡ codes "vacuous in all 7 states; poll runs in 2, poll in 0" ++ 10 ∷ [] }
    ensures stuck { whole_line poll Question.Stuck (tally 7 1 0 0) ≡ codes "holds in all 7 states; all actors have ended in 1" ++ 10 ∷ [] }
    ensures gave_up { gave_up_line 100000 12 ≡ codes "gave up at 100000 states; holds for all orders of at most 12 instructions" ++ 10 ∷ [] }
{}

/// Somebody has to be there, with flushes enough, and all names have to be declared: an actor's comes first.
pub fn scenarios_that_cant_be_explored()
    ensures nobody { (x : Exploration) → fault_of (record poll { actors = [] }) x ≡ Some (error.Play play.Actors) }
    ensures flushes { (x : Exploration) → fault_of (lone_driver 100 (flush 0 ∷ flush 0 ∷ [])) x ≡ Some (error.Flushes 2) }
    ensures actor { (actor work : Bor (List ℕ)) → actor.now ≡ codes "nobody" → IsTold poll (never.After actor work) (Some error.NoSuchActor) }
    ensures work { (actor work : Bor (List ℕ)) → actor.now ≡ codes "remove" → work.now ≡ codes "none" → IsTold poll (never.After actor work) (Some (error.Play play.NoSuchWork)) }
    ensures second { (one other : Bor (List ℕ)) → one.now ≡ codes "poll" → other.now ≡ codes "none" → IsTold poll (never.Together one other) (Some (error.Play play.NoSuchWork)) }
    ensures none { (actor work : Bor (List ℕ)) → actor.now ≡ codes "remove" → work.now ≡ codes "poll" → IsTold poll (never.After actor work) None }
{}
