//! Worked examples of where time went, as theorems over the definitions.
ghost use Rattle.cmwq_times.specs.Examples.{asked_again, asked_again_told, everywhere, everywhere_json, everywhere_told, one_at_a_time, one_at_a_time_json, one_at_a_time_told, plain, side_by_side, side_by_side_told, times_of, with_whom, one_at_a_time_whom, one_at_a_time_whom_json, everywhere_whom, for_two, for_two_whom, for_two_whom_json};
ghost use Rattle.std.specs.Prelude.{◌≡◌};

use cmwq_reports::Format;

/// A work waits without the CPU while one of a high queue burns, and one whose queue is full is inactive until it is let in.
pub fn each_tick_of_a_wait_has_its_place()
    ensures { times_of (plain Format.Text) one_at_a_time ≡ one_at_a_time_told }
{}

/// A work's instances are told one by one: the one that ends where the next one starts, what is cancelled while it is inactive, a timer
/// whose work keeps its line though it fires, and what still runs.
pub fn instances_of_a_work_are_told_one_by_one()
    ensures { times_of (plain Format.Text) asked_again ≡ asked_again_told }
{}

/// What is still there at the end is told by its place, in the order of works, the running half first; as text and as JSON.
pub fn what_is_still_there_is_told_by_its_place()
    ensures text { times_of (plain Format.Text) everywhere ≡ everywhere_told }
    ensures json { times_of (plain Format.Json) everywhere ≡ everywhere_json }
{}

/// As JSON each row is an object, with the same values.
pub fn each_row_is_an_object()
    ensures { times_of (plain Format.Json) one_at_a_time ≡ one_at_a_time_json }
{}

/// A start on a rescuer counts as one, CPUs and the unbound pool burn apart, and the most active works of a queue are those of one pool.
pub fn pools_burn_side_by_side()
    ensures { times_of (plain Format.Text) side_by_side ≡ side_by_side_told }
{}

/// A work waits for the one that has the CPU, and one whose queue is full for the one that is in it: between the rows of instances and the
/// sums, as text and as JSON.
pub fn works_wait_for_those_that_have_what_they_lack()
    ensures text { times_of (with_whom Format.Text) one_at_a_time ≡ one_at_a_time_whom }
    ensures json { times_of (with_whom Format.Json) one_at_a_time ≡ one_at_a_time_whom_json }
{}

/// A deferred instance waits for that of its own work that runs; a work whose queue is full waits for the one work that takes it up twice; a
/// listed work waits for the one that has the worker; and one whose timer runs waits for none.
pub fn each_place_waits_for_another()
    ensures { times_of (with_whom Format.Text) everywhere ≡ everywhere_whom }
{}

/// A work waits for each of the two that are in its queue, and one whose queue is frozen for nobody; as text and as JSON.
pub fn each_of_two_is_waited_for()
    ensures text { times_of (with_whom Format.Text) for_two ≡ for_two_whom }
    ensures json { times_of (with_whom Format.Json) for_two ≡ for_two_whom_json }
{}
