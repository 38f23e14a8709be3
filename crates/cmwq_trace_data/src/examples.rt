//! Worked examples of trace data, as theorems over the definitions.
ghost use Rattle.cmwq_events.specs.KernelEvents.{cpus_traced};
ghost use Rattle.cmwq_events.specs.declared.kernel_event.Tracepoint.TheVariants as tracepoint;
ghost use Rattle.cmwq_events.specs.declared.kernel_task.KernelTask.TheVariants as task;
ghost use Rattle.cmwq_trace_data.specs.Entries.{entry, payload, queued_cpu};
ghost use Rattle.cmwq_trace_data.specs.Examples.{end_entry, entry_134, entry_135, event, relief, relief_events, relief_page, rescuer, two_places, unbound_payload, worker};
ghost use Rattle.cmwq_trace_data.specs.Pages.{cpu_pages};
ghost use Rattle.cmwq_trace_data.specs.TraceData.{function_lines, places, task_lines};
ghost use Rattle.std.specs.Prelude.{◌≡◌, ◌∷◌, [], codes};

/// An entry is a word and the event. The nanoseconds of 134 ticks have room in that word; those of 135 have an extension before it.
#[tactic(auto, unfolding(crate::specs::Entries::number))]
pub fn entries_are_words()
    ensures one_tick { entry relief 1 (event 1 rescuer 1 tracepoint.ExecuteEnd) ≡ end_entry }
    ensures room { entry relief 134 (event 1 rescuer 1 tracepoint.ExecuteEnd) ≡ entry_134 }
    ensures extended { entry relief 135 (event 1 rescuer 1 tracepoint.ExecuteEnd) ≡ entry_135 }
{}

/// Where a work goes to an unbound pool its CPU is -1, and the one that was asked for is told besides. Both pools of a CPU have its
/// number.
#[tactic(auto, unfolding(crate::specs::Entries::number))]
pub fn unbound_pools_have_no_cpu()
    ensures unbound { payload relief (event 0 (task.Idle 1) 2 (tracepoint.QueueWork 1 2)) ≡ unbound_payload }
    ensures high { queued_cpu relief 1 ≡ 0 }
    ensures second { queued_cpu (record relief { cpus = 2 }) 3 ≡ 1 }
{}

/// The events of a run on one CPU have one page.
#[tactic(auto, unfolding(crate::specs::Entries::number))]
pub fn run_has_one_page()
    ensures { cpu_pages relief relief_events 0 ≡ relief_page }
{}

/// Of two CPUs the second has no page, and its place is behind the first one's.
#[tactic(auto, unfolding(crate::specs::Entries::number))]
pub fn each_cpu_has_a_place()
    ensures { places relief relief_events 4096 2 ≡ two_places }
{}

/// Functions and tasks have a line each, an idle CPU has none; and a CPU is counted for unbound workers where one has an event.
#[tactic(auto, unfolding(crate::specs::TraceData::task_lines))]
pub fn names_are_lines()
    ensures functions { function_lines relief 3 ≡ codes "ffffffff81000000 t x\nffffffff81000040 t y\nffffffff81000080 t z\n" }
    ensures tasks { task_lines relief relief_events 101 ≡ codes "10 t\n100 kworker/0:0\n" }
    ensures idle { task_lines relief (event 0 (task.Idle 0) 0 tracepoint.ActivateWork ∷ []) 101 ≡ [] }
    ensures bound { cpus_traced relief relief_events ≡ 1 }
    ensures unbound { cpus_traced relief (event 0 (task.Worker 2 0) 0 tracepoint.ExecuteStart ∷ []) ≡ 2 }
{}
