//! Worked examples of what is told, as theorems over the definitions.
ghost use Rattle.cmwq_tell.specs.Examples.{again_scenario, again_told, come_scenario, come_told, outside_scenario, outside_told, second_cpu, second_cpu_told, told_of};
ghost use Rattle.std.specs.Prelude.{◌≡◌};

/// A thaw activates the work that waited for it. What starts, also on a rescuer, ends or is given is told by the line of the run alone.
pub fn thaw_activates_what_waited()
    ensures { told_of outside_scenario ≡ outside_told }
{}

/// A work that finishes lets in the one that waits behind it, and a delay sets a timer; what a timer places has no room where the queue is
/// full. What is deferred, and what is taken off, is no hidden change.
pub fn work_that_finishes_activates_the_next()
    ensures { told_of again_scenario ≡ again_told }
{}

/// Pools and CPUs are told by their numbers.
pub fn second_cpu_is_told_by_its_number()
    ensures { told_of second_cpu ≡ second_cpu_told }
{}

/// What has come is told once, with the positions of the first and of the last instruction.
pub fn what_has_come_is_told_once()
    ensures { told_of come_scenario ≡ come_told }
{}
