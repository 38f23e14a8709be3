//! Laws of trace data files, each the contract of a function with an empty body.
ghost use Rattle.cmwq_events.specs.declared.kernel_event.KernelEvent.{KernelEvent};
ghost use Rattle.cmwq_trace_data.specs.FileReading.{CanBeTold, file_read, told_by_cpus};
ghost use Rattle.cmwq_trace_data.specs.Pages.{cpu_pages, events_on};
ghost use Rattle.cmwq_trace_data.specs.Reading.{HasShortNames, IsTellable, Rises, events_of, told};
ghost use Rattle.cmwq_trace_data.specs.TraceData.{dat_bytes};
ghost use Rattle.cmwq_types.specs.Contents.{ScenarioContents};
ghost use Rattle.std.specs.List.{AllByRecursion};
ghost use Rattle.std.specs.Prelude.{◌≡◌, List, map, ℕ};

/// What is read of a CPU's pages is what its events tell: when, in which task, and the fields of their formats. Times are up to 2^32 ticks,
/// and none of the CPU's events is before the one before it.
#[tactic(auto, using(crate::proofs::PageReadingLemmas::cpu_again))]
pub fn events_are_read_back()
    ensures { (S : ScenarioContents) (events : List KernelEvent) (cpu : ℕ) → HasShortNames S → AllByRecursion IsTellable events
        → Rises 0 (events_on S cpu events) → events_of (cpu_pages S events cpu) ≡ map (told S) (events_on S cpu events) }
{}

/// What is read of a whole file, by the lengths and places that stand in it, is what the events of each CPU tell.
#[tactic(auto, using(crate::proofs::FileLemmas::file_again))]
pub fn file_is_read_back()
    ensures { (S : ScenarioContents) (events : List KernelEvent) → CanBeTold S events → file_read (dat_bytes S events) ≡ told_by_cpus S events }
{}
