//! Worked examples of the objects of runs, as theorems over the definitions.
ghost use Rattle.cmwq_trace.specs.ObjectExamples.{answered_objects, answered_scenario, armed_objects, armed_scenario, objects_of, rescued_objects, rescued_scenario, taken_objects, taken_scenario};
ghost use Rattle.std.specs.Prelude.{◌≡◌};

/// A work burns, is taken off the CPU and sleeps, and then one that waited for room starts on its worker.
pub fn each_event_is_an_object()
    ensures { objects_of taken_scenario ≡ taken_objects }
{}

/// Answers and refusals are objects too. What a timer places, and what is deferred, has no worker.
pub fn answers_and_refusals_are_objects()
    ensures { objects_of answered_scenario ≡ answered_objects }
{}

/// What a body does to another work's timer tells the work, the ticks, and what came of it.
pub fn timers_of_bodies_are_objects()
    ensures { objects_of armed_scenario ≡ armed_objects }
{}

/// A rescuer has no number, and an unbound pool no CPU.
pub fn rescuer_has_no_number()
    ensures { objects_of rescued_scenario ≡ rescued_objects }
{}
