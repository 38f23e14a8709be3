//! Worked examples of the definitions, as theorems: at which positions of a small run something is told.
ghost use Rattle.cmwq_explain.specs.Changes.{changes_text};
ghost use Rattle.cmwq_explain.specs.ChangesTold.{IsPastEnd};
ghost use Rattle.cmwq_explain.specs.Examples.{burning_work, delayed_run, its_run, of_two_steps, says_later, says_nothing, says_time, to_the_end, to_the_last_step, two_works, up_to_its_tick, without_next};
ghost use Rattle.cmwq_explain.specs.Explained.{said_to};
ghost use denote.Ref.{Bor};
ghost use Rattle.cmwq_question.specs.declared.question.Looks.TheVariants as looks;
ghost use Rattle.cmwq_question.specs.declared.question.Question.TheVariants as question;
ghost use Rattle.std.specs.Prelude.{◌≡◌, [], List, codes, ℕ};

/// The time is told at the first position, though it isn't settled, and where it has passed.
pub fn time_is_told_wherever_it_changes()
    ensures { changes_text says_time looks.Every burning_work its_run ≡ codes "at 0 now 0 time 0\nat 4 now 1 time 1\n" }
{}

/// Settled are the start, the position at which the work burns, and the last one; where it has the same time, nothing is told.
pub fn settled_positions_and_the_last_are_looked_at()
    ensures { changes_text says_time looks.Settled burning_work its_run ≡ codes "at 0 now 0 time 0\nat 5 now 1 time 1\n" }
{}

/// Where a timer is due a position isn't settled: the tick passes at position 2, and the time is told once the work burns.
pub fn position_with_a_due_timer_is_not_settled()
    ensures { changes_text says_time looks.Settled burning_work delayed_run ≡ codes "at 0 now 0 time 0\nat 5 now 1 time 1\n" }
{}

/// A run has its last position and its last tick, and ends before the next ones.
pub fn run_ends_behind_its_last_position()
    ensures position { IsPastEnd (looks.At 5) burning_work its_run → ⊥ }
    ensures behind { IsPastEnd (looks.At 6) burning_work its_run }
    ensures tick { IsPastEnd (looks.Time 1) burning_work its_run → ⊥ }
    ensures later { IsPastEnd (looks.Time 2) burning_work its_run }
{}

/// The last position is looked at even where it isn't settled: the work's pool has a move there.
pub fn last_position_is_looked_at_unsettled()
    ensures { changes_text says_time looks.Settled burning_work up_to_its_tick ≡ codes "at 0 now 0 time 0\nat 4 now 1 time 1\n" }
{}

/// One position alone is told, whatever was said before.
pub fn one_position_is_told_alone()
    ensures { changes_text says_time (looks.At 2) burning_work its_run ≡ codes "at 2 now 0 time 0\n" }
{}

/// Nothing is told before there is something to say.
pub fn nothing_is_told_before_something_is_said()
    ensures later { changes_text says_later looks.Every burning_work its_run ≡ codes "at 4 now 1 late\n" }
    ensures never { changes_text says_nothing looks.Every burning_work its_run ≡ [] }
{}

/// At a tick its settled positions are looked at, and the last one; at one that doesn't come none is.
pub fn one_tick_is_told_alone()
    ensures first { changes_text says_time (looks.Time 0) burning_work its_run ≡ codes "at 0 now 0 time 0\n" }
    ensures last { changes_text says_time (looks.Time 1) burning_work its_run ≡ codes "at 5 now 1 time 1\n" }
    ensures unsettled { changes_text says_time (looks.Time 1) burning_work up_to_its_tick ≡ codes "at 4 now 1 time 1\n" }
    ensures later { changes_text says_time (looks.Time 2) burning_work its_run ≡ [] }
{}

/// A work that is free to go and never goes, since the actor says no `next`: that is told at the last position, and not before.
pub fn actor_that_stops_is_told_of_a_work_that_waits()
    ensures { (name : Bor (List ℕ)) → name.now ≡ codes "b" → changes_text (said_to (question.Work name)) looks.Every two_works without_next
        ≡ codes "at 0 now 0 b not pending\nat 1 now 0 b listed 0: free to go, starts next\nat 3 now 0 b listed 0: free to go, starts next; the actor has stopped\n" }
{}

/// So it is of a flush, in its first line.
pub fn actor_that_stops_is_told_of_a_flush_that_waits()
    ensures { changes_text (said_to (question.Flush 0)) looks.Every two_works without_next
        ≡ codes "at 3 now 0 flush 0 waits for 1; the actor has stopped\n  b listed 0: free to go, starts next\n" }
{}

/// Where the steps are spent that is told, and not that the actor has stopped.
pub fn spent_steps_are_told_in_place_of_a_stop()
    ensures { changes_text (said_to (question.Flush 0)) looks.Every of_two_steps to_the_last_step
        ≡ codes "at 2 now 0 flush 0 waits for 1, not by itself: spent\n  b listed 0: free to go, starts next\n" }
{}

/// Of a work that has finished it isn't told that the actor has stopped.
pub fn actor_that_is_done_is_told_of_no_work()
    ensures { (name : Bor (List ℕ)) → name.now ≡ codes "b" → changes_text (said_to (question.Work name)) looks.Settled two_works to_the_end
        ≡ codes "at 0 now 0 b not pending\nat 3 now 0 b burns\nat 5 now 1 b not pending\n" }
{}
