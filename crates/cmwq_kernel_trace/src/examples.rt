//! Worked examples of texts, as theorems over the definitions.
ghost use Rattle.cmwq_kernel_trace.specs.Examples.{again_scenario, again_text, limit_scenario, limit_text, relief_scenario, relief_text, text_of, wide_scenario, wide_text};
ghost use Rattle.std.specs.Prelude.{◌≡◌};

/// A work that has no room is queued, and activated once the one before it ends; a work of high priority has another worker.
pub fn works_are_queued_activated_and_executed()
    ensures { text_of limit_scenario ≡ limit_text }
{}

/// A rescuer executes a work, and a thaw activates one that waited for it.
pub fn rescuers_execute_and_thaws_activate()
    ensures { text_of relief_scenario ≡ relief_text }
{}

/// A timer fires on its CPU; a work that still runs is queued where it runs, whatever CPU it was asked for; and an unbound worker has a CPU
/// of its own.
pub fn timers_bodies_and_unbound_workers_have_their_cpus()
    ensures { text_of wide_scenario ≡ wide_text }
{}

/// A worker that ends an execution starts with the deferred instance, and then activates what has room; who wakes starts nothing.
pub fn works_start_again_and_limits_activate()
    ensures { text_of again_scenario ≡ again_text }
{}
