//! Worked orders, as theorems over the definitions: each function's contract says what some orders of a few actors' lines come
//! to, which were put down by hand.
#![tactic(auto, unfolding(cmwq_table::specs::Table::table, cmwq_orders::specs::Orders::taken, cmwq_orders::specs::Questions::fails))]

ghost use Rattle.cmwq_examples.specs.Declare.{cancel, cancel_sync, disable, enqueue, times};
ghost use Rattle.cmwq_command_examples.specs.Drivers.{comes_to, disable_and_wait, ended_behind, fires, frozen_driver, goes, lone_driver, one_before_other, one_waits_for_another, places_behind, poll_driver, steps, ticks, timer_driver, two_sleepers, ways_behind};
ghost use Rattle.cmwq_types.specs.Faults.{IsValid};
ghost use Rattle.cmwq_types.specs.declared.instr.Instr.TheVariants as instr;
ghost use Rattle.std.specs.Prelude.{◌≡◌, ◌∷◌, [], None, Some, false, true};

use cmwq_orders::Question;

/// The scenarios are valid, so they have runs.
pub fn scenarios_are_valid()
    ensures cancels { IsValid (poll_driver (cancel 0 ∷ [])) }
    ensures waits { IsValid (poll_driver (cancel_sync 0 ∷ [])) }
    ensures timer { IsValid (timer_driver disable_and_wait) }
    ensures frozen { IsValid frozen_driver }
    ensures disabled { IsValid (lone_driver 100 (disable 0 ∷ enqueue 0 0 ∷ times (instr.Step 0) 1 ∷ [])) }
    ensures short { IsValid (lone_driver 1 (enqueue 0 0 ∷ enqueue 0 0 ∷ [])) }
{}

/// A removal that only cancels ends beside its running poll, and no shorter part of that order is bad.
pub fn poll_runs_behind_its_removal()
    ensures bad { comes_to (poll_driver (cancel 0 ∷ [])) (one_before_other 0 1 ∷ []) (Question.After 1 (record { 0 = 0 })) (goes 0 ∷ steps 0 ∷ goes 1 ∷ []) ≡ Some true }
    ensures before { comes_to (poll_driver (cancel 0 ∷ [])) (one_before_other 0 1 ∷ []) (Question.After 1 (record { 0 = 0 })) (goes 0 ∷ steps 0 ∷ []) ≡ Some false }
    ensures cancelled { comes_to (poll_driver (cancel 0 ∷ [])) (one_before_other 0 1 ∷ []) (Question.After 1 (record { 0 = 0 })) (goes 0 ∷ goes 1 ∷ []) ≡ Some false }
{}

/// Who is to come behind another one can't begin first.
pub fn removal_comes_behind_the_probe()
    ensures first { places_behind (poll_driver (cancel 0 ∷ [])) (one_before_other 0 1 ∷ []) (goes 1 ∷ []) ≡ None }
    ensures free { places_behind (poll_driver (cancel 0 ∷ [])) [] (goes 1 ∷ []) ≡ Some (0 ∷ 1 ∷ []) }
{}

/// A removal by `cancel_sync` disables, gives a flush, and enables only once the running poll has finished: the poll that it finds
/// disabled doesn't come back.
pub fn cancel_sync_waits_for_the_poll()
    ensures waits { places_behind (poll_driver (cancel_sync 0 ∷ [])) [] (goes 0 ∷ steps 0 ∷ goes 1 ∷ goes 1 ∷ goes 1 ∷ []) ≡ None }
    ensures there { places_behind (poll_driver (cancel_sync 0 ∷ [])) [] (goes 0 ∷ steps 0 ∷ goes 1 ∷ goes 1 ∷ []) ≡ Some (1 ∷ 2 ∷ []) }
    ensures ended { ended_behind (poll_driver (cancel_sync 0 ∷ [])) [] 1 (goes 0 ∷ goes 1 ∷ goes 1 ∷ goes 1 ∷ []) ≡ Some true }
{}

/// Time passes for a poll that has armed itself, and its timer fires once it has run out. A removal that cancels the timer leaves nothing to
/// wait for; one that cancels while the poll runs ends beside a poll that arms itself all the same.
pub fn poll_arms_itself_behind_its_removal()
    ensures fires { places_behind (timer_driver (cancel 0 ∷ [])) [] (goes 0 ∷ steps 0 ∷ steps 0 ∷ steps 0 ∷ ticks ∷ ticks ∷ fires ∷ []) ≡ Some (1 ∷ 0 ∷ []) }
    ensures early { places_behind (timer_driver (cancel 0 ∷ [])) [] (goes 0 ∷ steps 0 ∷ steps 0 ∷ steps 0 ∷ ticks ∷ fires ∷ []) ≡ None }
    ensures cancelled { places_behind (timer_driver (cancel 0 ∷ [])) [] (goes 0 ∷ steps 0 ∷ steps 0 ∷ steps 0 ∷ goes 1 ∷ ticks ∷ []) ≡ None }
    ensures behind { comes_to (timer_driver (cancel 0 ∷ [])) [] (Question.After 1 (record { 0 = 0 })) (goes 0 ∷ steps 0 ∷ goes 1 ∷ steps 0 ∷ steps 0 ∷ []) ≡ Some true }
{}

/// A removal that disables it, waits for its flush, and enables it ends beside no poll.
pub fn disabling_ends_a_poll_that_arms_itself()
    ensures waits { places_behind (timer_driver disable_and_wait) [] (goes 0 ∷ steps 0 ∷ goes 1 ∷ goes 1 ∷ goes 1 ∷ []) ≡ None }
    ensures over { comes_to (timer_driver disable_and_wait) [] (Question.After 1 (record { 0 = 0 }))
        (goes 0 ∷ steps 0 ∷ goes 1 ∷ goes 1 ∷ steps 0 ∷ steps 0 ∷ goes 1 ∷ goes 1 ∷ []) ≡ Some false }
    ensures ended { ended_behind (timer_driver disable_and_wait) [] 1 (goes 0 ∷ steps 0 ∷ goes 1 ∷ goes 1 ∷ steps 0 ∷ steps 0 ∷ goes 1 ∷ goes 1 ∷ []) ≡ Some true }
{}

/// A driver that freezes what it waits for is stuck, once it has given its flush; one whose scenario has no steps left isn't told so.
pub fn frozen_driver_is_stuck()
    ensures stuck { comes_to frozen_driver [] Question.Stuck (goes 0 ∷ goes 0 ∷ goes 0 ∷ []) ≡ Some true }
    ensures before { comes_to frozen_driver [] Question.Stuck (goes 0 ∷ goes 0 ∷ []) ≡ Some false }
    ensures spent { comes_to (lone_driver 1 (enqueue 0 0 ∷ enqueue 0 0 ∷ [])) [] Question.Stuck (goes 0 ∷ []) ≡ Some false }
{}

/// It has one way to go at each of three states and none at the fourth, and has ended at none: so what is asked of the time behind its
/// end is asked of nothing.
pub fn frozen_driver_never_ends()
    ensures way_0 { ways_behind frozen_driver [] [] ≡ Some (goes 0 ∷ []) }
    ensures way_1 { ways_behind frozen_driver [] (goes 0 ∷ []) ≡ Some (goes 0 ∷ []) }
    ensures way_2 { ways_behind frozen_driver [] (goes 0 ∷ goes 0 ∷ []) ≡ Some (goes 0 ∷ []) }
    ensures way_3 { ways_behind frozen_driver [] (goes 0 ∷ goes 0 ∷ goes 0 ∷ []) ≡ Some [] }
    ensures end_0 { ended_behind frozen_driver [] 0 [] ≡ Some false }
    ensures end_1 { ended_behind frozen_driver [] 0 (goes 0 ∷ []) ≡ Some false }
    ensures end_2 { ended_behind frozen_driver [] 0 (goes 0 ∷ goes 0 ∷ []) ≡ Some false }
    ensures end_3 { ended_behind frozen_driver [] 0 (goes 0 ∷ goes 0 ∷ goes 0 ∷ []) ≡ Some false }
{}

/// A line that is refused for its work is disabled is carried out all the same, as a caller in C goes on; a step of a pool that has no
/// move can't come yet, and once the steps are spent no line can.
pub fn refused_lines_come_or_wait()
    ensures disabled { places_behind (lone_driver 100 (disable 0 ∷ enqueue 0 0 ∷ times (instr.Step 0) 1 ∷ [])) [] (goes 0 ∷ goes 0 ∷ []) ≡ Some (2 ∷ []) }
    ensures idle { places_behind (lone_driver 100 (disable 0 ∷ enqueue 0 0 ∷ times (instr.Step 0) 1 ∷ [])) [] (goes 0 ∷ goes 0 ∷ goes 0 ∷ []) ≡ None }
    ensures unsettled { places_behind (lone_driver 100 (enqueue 0 0 ∷ times instr.Tick 1 ∷ [])) [] (goes 0 ∷ goes 0 ∷ []) ≡ None }
    ensures spent { places_behind (lone_driver 1 (enqueue 0 0 ∷ enqueue 0 0 ∷ [])) [] (goes 0 ∷ goes 0 ∷ []) ≡ None }
{}

/// The machine doesn't tick by itself where nothing can come of it.
pub fn time_passes_for_somebody()
    ensures still { places_behind (lone_driver 100 []) [] (ticks ∷ []) ≡ None }
    ensures asked { places_behind (lone_driver 100 (times instr.Tick 1 ∷ [])) [] (goes 0 ∷ []) ≡ Some (1 ∷ []) }
{}

/// An actor stands at an until until its time has come, and time passes for it where nothing else would come of it.
pub fn actors_stand_until_their_time()
    ensures early { places_behind (lone_driver 100 (times (instr.Until 1) 1 ∷ [])) [] (goes 0 ∷ []) ≡ None }
    ensures passes { places_behind (lone_driver 100 (times (instr.Until 1) 1 ∷ [])) [] (ticks ∷ []) ≡ Some (0 ∷ []) }
    ensures there { places_behind (lone_driver 100 (times (instr.Until 1) 1 ∷ [])) [] (ticks ∷ goes 0 ∷ []) ≡ Some (1 ∷ []) }
    ensures once { places_behind (lone_driver 100 (times (instr.Until 1) 1 ∷ [])) [] (ticks ∷ ticks ∷ []) ≡ None }
{}

/// Whoever waits for another one can't make time pass by an until.
pub fn time_passes_for_who_may_go()
    ensures first { places_behind two_sleepers (one_before_other 0 1 ∷ []) (ticks ∷ []) ≡ Some (0 ∷ 0 ∷ []) }
    ensures then { places_behind two_sleepers (one_before_other 0 1 ∷ []) (ticks ∷ ticks ∷ []) ≡ None }
    ensures both { places_behind two_sleepers [] (ticks ∷ ticks ∷ []) ≡ Some (0 ∷ 0 ∷ []) }
{}

/// At a wait it stands until the flush was given, by whomever, and is done, and at a quiet until nothing is pending or runs; and
/// once only, however often the line stands.
pub fn actors_stand_until_it_has_come()
    ensures not_given { places_behind (poll_driver (times (instr.Wait 0) 1 ∷ [])) [] (goes 1 ∷ []) ≡ None }
    ensures many { ended_behind (lone_driver 100 (times instr.Quiet 9 ∷ times (instr.Until 0) 9 ∷ [])) [] 0 (goes 0 ∷ goes 0 ∷ []) ≡ Some true }
    ensures busy { places_behind (lone_driver 100 (enqueue 0 0 ∷ times instr.Quiet 1 ∷ [])) [] (goes 0 ∷ goes 0 ∷ []) ≡ None }
    ensures runs { places_behind (lone_driver 100 (enqueue 0 0 ∷ times instr.Quiet 1 ∷ [])) [] (goes 0 ∷ steps 0 ∷ goes 0 ∷ []) ≡ None }
    ensures quiet { places_behind (lone_driver 100 (enqueue 0 0 ∷ times instr.Quiet 1 ∷ [])) [] (goes 0 ∷ steps 0 ∷ steps 0 ∷ goes 0 ∷ []) ≡ Some (2 ∷ []) }
    ensures other_waits { places_behind one_waits_for_another [] (goes 0 ∷ goes 0 ∷ goes 1 ∷ []) ≡ None }
    ensures other_goes { places_behind one_waits_for_another [] (goes 0 ∷ goes 0 ∷ steps 0 ∷ steps 0 ∷ goes 1 ∷ []) ≡ Some (2 ∷ 1 ∷ []) }
{}
