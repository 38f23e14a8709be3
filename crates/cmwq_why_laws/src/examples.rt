//! Worked examples of what is written of why works wait, as theorems over the definitions: each function's contract has the
//! lines of one work, or of one flush, at some positions of one scenario.
ghost use Rattle.cmwq_reason_examples.specs.Waiting.{again, beside_rescuer, by_twos, chain, four_halves, hold, outside};
ghost use Rattle.cmwq_why_laws.specs.Lines.{block, line_at_position, with_steps};
ghost use Rattle.std.specs.Prelude.{◌≡◌, None, Some, codes};

/// A work waits for the one place of its queue, and then goes its way.
pub fn work_that_waits_for_a_place()
    ensures at_0 { line_at_position hold 0 1 ≡ codes "not pending" }
    ensures at_2 { line_at_position hold 2 1 ≡ codes "inactive 0: q has 1 of 1 active: a listed" }
    ensures at_4 { line_at_position hold 4 1 ≡ codes "inactive 0: q has 1 of 1 active: a runs" }
    ensures at_13 { line_at_position hold 13 1 ≡ codes "inactive 0: q has 1 of 1 active: a asleep until 5" }
    ensures at_17 { line_at_position hold 17 1 ≡ codes "listed 0: free to go, starts next" }
    ensures at_18 { line_at_position hold 18 1 ≡ codes "ready, goes on next" }
    ensures at_19 { line_at_position hold 19 1 ≡ codes "burns" }
{}

/// A work that queues itself has a line for each half, and stands twice among those that take up its queue.
pub fn work_that_queues_itself()
    ensures at_3 { line_at_position again 3 0 ≡ codes "ready, goes on next; listed 0: held by a" }
    ensures at_7 { line_at_position again 7 0 ≡ codes "asleep until 2; deferred 0: it still runs" }
    ensures at_12 { line_at_position again 12 0 ≡ codes "ready, goes on next; inactive 0: q has 2 of 2 active: a runs, b listed" }
    ensures at_15 { line_at_position again 15 0 ≡ codes "asleep until 4; timer until 4 cpu 0" }
    ensures at_17 { line_at_position again 17 0 ≡ codes "sleep is over, wakes next; timer is due, fires next" }
    ensures at_20 { line_at_position again 20 0 ≡ codes "listed 0 ahead b: after b" }
    ensures at_24 { line_at_position again 24 0 ≡ codes "disabled 1" }
{}

/// A work beside it waits for a place that a deferred one takes up, for the one worker, and for who goes first.
pub fn work_that_waits_beside_another()
    ensures at_7 { line_at_position again 7 1 ≡ codes "inactive 0: q has 2 of 2 active: a asleep until 2, a deferred" }
    ensures at_11 { line_at_position again 11 1 ≡ codes "listed 0: held by a" }
    ensures at_15 { line_at_position again 15 1 ≡ codes "listed 0: no free worker: a asleep until 4" }
    ensures at_17 { line_at_position again 17 1 ≡ codes "listed 0: after a" }
{}

/// Memory is short, and the machine frozen.
pub fn work_that_waits_for_what_is_outside()
    ensures x { line_at_position outside 3 0 ≡ codes "listed 0: no free worker under pressure" }
    ensures y { line_at_position outside 4 1 ≡ codes "listed 0 ahead x: free to go, starts next on rescuer" }
    ensures z { line_at_position outside 5 2 ≡ codes "inactive 0: f is frozen" }
{}

/// A chain of waits.
pub fn work_that_waits_for_another()
    ensures x { line_at_position chain 15 2 ≡ codes "listed 0: held by c d" }
    ensures d { line_at_position chain 15 1 ≡ codes "runnable, behind c" }
    ensures c { line_at_position chain 15 0 ≡ codes "runnable, high u has the CPU" }
{}

/// A flush waits for a place in a queue, for the concurrency level, for the CPU and for the high pool: whom each of these blames has
/// a line, each once, in the order in which they are named.
pub fn flush_waits_through_all_ranks()
    ensures at_15 { block chain 15 0 ≡ Some (codes "flush 0 waits for 1\n  y inactive 0: q has 1 of 1 active: x listed\n    x listed 0: held by c d\n    c runnable, high u has the CPU\n    d runnable, behind c\n    u burns\n") }
{}

/// While the machine is frozen and memory short, a flush isn't done by itself; then it waits for a thaw alone, and then for its work.
pub fn flush_waits_for_what_is_outside()
    ensures before { block outside 6 1 ≡ None }
    ensures at_7 { block outside 7 1 ≡ Some (codes "flush 1 waits for 1, not by itself: frozen pressure\n  z inactive 0: f is frozen\n") }
    ensures at_12 { block outside 12 1 ≡ Some (codes "flush 1 waits for 1, not by itself: frozen\n  z inactive 0: f is frozen\n") }
{}

/// Behind the thaw it waits for its work's way to the end, and then is done.
pub fn flush_goes_on_after_the_thaw()
    ensures at_17 { block outside 17 1 ≡ Some (codes "flush 1 waits for 1\n  z listed 0: free to go, starts next\n") }
    ensures at_19 { block outside 19 1 ≡ Some (codes "flush 1 waits for 1\n  z burns\n") }
    ensures at_21 { block outside 21 1 ≡ Some (codes "flush 1 done\n") }
{}

/// Memory alone keeps a flush from being done by itself, with others before its work and without.
pub fn flush_waits_for_memory()
    ensures at_6 { block outside 6 0 ≡ Some (codes "flush 0 waits for 1, not by itself: pressure\n  x listed 0: after y\n    y listed 0 ahead x: free to go, starts next on rescuer\n") }
    ensures at_11 { block outside 11 0 ≡ Some (codes "flush 0 waits for 1, not by itself: pressure\n  x listed 0: no free worker under pressure\n") }
    ensures at_12 { block outside 12 0 ≡ Some (codes "flush 0 waits for 1\n  x listed 0: free to go, starts next\n") }
{}

/// A flush on one instance of a work that runs and is queued again waits for that one, which waits for the other.
pub fn flush_waits_for_a_work_that_holds_itself()
    ensures before { block again 4 0 ≡ None }
    ensures at_5 { block again 5 0 ≡ Some (codes "flush 0 waits for 1\n  a listed 0: held by a\n    a ready, goes on next\n") }
    ensures at_7 { block again 7 0 ≡ Some (codes "flush 0 waits for 1\n  a deferred 0: it still runs\n    a asleep until 2\n") }
{}

/// It waits for that instance's way to the end, and for nothing that was queued later.
pub fn flush_waits_for_the_one_instance()
    ensures at_11 { block again 11 0 ≡ Some (codes "flush 0 waits for 1\n  a ready, goes on next\n") }
    ensures at_17 { block again 17 0 ≡ Some (codes "flush 0 waits for 1\n  a sleep is over, wakes next\n") }
    ensures at_20 { block again 20 0 ≡ Some (codes "flush 0 done\n") }
{}

/// A flush on a queue waits for both of its works; who blames one of the two has no further line for it.
pub fn flush_of_a_queue_waits_for_two()
    ensures before { block hold 2 0 ≡ None }
    ensures at_3 { block hold 3 0 ≡ Some (codes "flush 0 waits for 2\n  a listed 0: free to go, starts next\n  b inactive 0: q has 1 of 1 active: a listed\n") }
    ensures at_9 { block hold 9 0 ≡ Some (codes "flush 0 waits for 2\n  a runnable, high u has the CPU\n  b inactive 0: q has 1 of 1 active: a runs\n    u burns\n") }
{}

/// It waits for both, then for the second one, and then is done.
pub fn flush_of_a_queue_waits_for_the_rest()
    ensures at_13 { block hold 13 0 ≡ Some (codes "flush 0 waits for 2\n  a asleep until 5\n  b inactive 0: q has 1 of 1 active: a asleep until 5\n") }
    ensures at_17 { block hold 17 0 ≡ Some (codes "flush 0 waits for 1\n  b listed 0: free to go, starts next\n") }
    ensures at_21 { block hold 21 0 ≡ Some (codes "flush 0 done\n") }
{}

/// Where the scenario has no step left, a flush isn't done by itself; what else it lacks is told before that.
pub fn flush_waits_when_the_steps_are_spent()
    ensures left { block (with_steps 4 hold) 3 0 ≡ Some (codes "flush 0 waits for 2\n  a listed 0: free to go, starts next\n  b inactive 0: q has 1 of 1 active: a listed\n") }
    ensures spent { block (with_steps 4 hold) 5 0 ≡ Some (codes "flush 0 waits for 2, not by itself: spent\n  a ready, goes on next\n  b inactive 0: q has 1 of 1 active: a runs\n") }
    ensures all { block (with_steps 7 outside) 7 1 ≡ Some (codes "flush 1 waits for 1, not by itself: frozen pressure spent\n  z inactive 0: f is frozen\n") }
{}

/// Of two works that can go on, wake or fire at once, the second has the first one's name in its line.
pub fn second_of_two_goes_after_the_first()
    ensures ready { line_at_position by_twos 9 1 ≡ codes "ready, after v" }
    ensures first_wakes { line_at_position by_twos 12 0 ≡ codes "sleep is over, wakes next" }
    ensures wakes { line_at_position by_twos 12 1 ≡ codes "sleep is over, after v" }
    ensures first_fires { line_at_position by_twos 12 2 ≡ codes "timer is due, fires next" }
    ensures fires { line_at_position by_twos 12 3 ≡ codes "timer is due, after t" }
{}

/// A work that is queued as it sleeps defers next.
pub fn work_that_runs_defers_next()
    ensures at_6 { line_at_position again 6 0 ≡ codes "asleep until 2; listed 0: free to go, defers next" }
{}

/// Who is on the rescuer is told so, and of those that wait for a place who stands before them in their own queue.
pub fn works_wait_beside_a_rescuer()
    ensures k { line_at_position beside_rescuer 9 0 ≡ codes "listed 0: no free worker under pressure" }
    ensures l { line_at_position beside_rescuer 9 1 ≡ codes "inactive 0: p has 1 of 1 active: k listed" }
    ensures v { line_at_position beside_rescuer 9 2 ≡ codes "listed 0 ahead k: no free worker under pressure: y asleep until 2 on rescuer" }
    ensures w { line_at_position beside_rescuer 9 3 ≡ codes "inactive 0: r has 2 of 2 active: y asleep until 2 on rescuer, v listed" }
    ensures x { line_at_position beside_rescuer 9 4 ≡ codes "inactive 0 ahead w: r has 2 of 2 active: y asleep until 2 on rescuer, v listed" }
{}

/// A flush that waits for more instances than there are works names whom the last of them blames.
pub fn flush_waits_for_both_halves_of_two_works()
    ensures at_12 { block four_halves 12 0 ≡ Some (codes "flush 0 waits for 4\n  a asleep until 5\n  b asleep until 5\n  a listed 0: free to go, defers next\n  b listed 2: held by c\n    c burns\n") }
{}
