//! Worked examples of traces, as theorems over the definitions.
ghost use Rattle.cmwq_trace.specs.Examples.{json_of, limit_json, limit_scenario, relief_json, relief_scenario};
ghost use Rattle.std.specs.Prelude.{◌≡◌};

/// A work burns, waits for the CPU, burns and sleeps on one worker, and another one waits for room until it ends.
pub fn phases_and_executions_are_slices()
    ensures { json_of limit_scenario ≡ limit_json }
{}

/// What a rescuer executes stands on its own thread; a work that is listed, and one that is inactive, wait on threads of their own.
pub fn rescuer_has_a_thread_of_its_own()
    ensures { json_of relief_scenario ≡ relief_json }
{}
