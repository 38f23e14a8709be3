//! The whole file.
ghost use Rattle.cmwq_trace_data.specs.Entries.{number};
ghost use Rattle.cmwq_trace_data.specs.TraceData.{dat_bytes, pages_below, places};
ghost use Rattle.cmwq_types.specs.Setting.{IsSetting};
ghost use Rattle.std.specs.Int.{w64};
ghost use Rattle.std.specs.Prelude.{◌≡◌, ◌≤◌, ◌^◌, ◌++◌, IfOk, OnOk, length};

use crate::head::push_head;
use crate::numbers::{push_u64, push_zeros};
use crate::open_page::push_cpu_pages;
use crate::texts::PAGE;
use cmwq_events::{KernelEvent, cpus_traced};
use cmwq_types::{NoMemory, Scenario};
use std::alloc::Global;

/// A file `trace.dat` in two parts, of which neither has to be copied.
#[derive(Drop)]
pub struct TraceData {
    /// What stands before the pages, whole pages long.
    pub head: Vec<u8>,
    /// The pages of the CPUs, one CPU's behind the other's.
    pub pages: Vec<u8>,
}

/// The file `trace.dat`, version 6, of a run of a scenario with these events. Each task's events are on the pages of its CPU, and behind the
/// CPUs of the scenario stands one for all unbound workers, where one of these has an event. A tick is a millisecond. The format is that of
/// trace-cmd, `trace-cmd.dat.v6(5)`. The only error is want of memory.
#[tactic(auto, unfolding(crate::specs::TraceData::dat_bytes))]
pub fn trace_data(
    alloc: Global,
    scenario: &Scenario,
    events: &[KernelEvent],
) -> Result<TraceData, NoMemory>
    requires { IsSetting scenario.now }
    ensures { IfOk result (λ file. file.head.items ++ file.pages.items ≡ dat_bytes scenario.now events.now) }
{
    let mut head = Vec::new(alloc);
    push_head(alloc, &mut head, scenario, events)?;
    let cpus = cpus_traced(scenario, events);
    let ahead = head.len() as u128 + 16 * u128::from(cpus);
    let start = ahead.next_multiple_of(PAGE as u128);
    let pages = push_places(alloc, &mut head, scenario, events, start, cpus)?;
    push_zeros(&mut head, (start - ahead) as usize)?;
    Ok(TraceData { head, pages })
}

/// Writes where the pages of so many CPUs stand and how long they are, where those of the first stand at `start`. Answers the pages.
fn push_places(
    alloc: Global,
    bytes: &mut Vec<u8>,
    scenario: &Scenario,
    events: &[KernelEvent],
    start: u128,
    cpus: u8,
) -> Result<Vec<u8>, NoMemory>
    requires { start ≤ 2 ^ 100 }
    ensures places { OnOk result (bytes.new.items ≡ bytes.old.items ++ places scenario.now events.now start cpus) }
    ensures pages { IfOk result (λ pages. pages.items ≡ pages_below scenario.now events.now cpus) }
{
    let mut pages = Vec::new(alloc);
    for cpu in 0..cpus {
        let before = pages.len();
        push_cpu_pages(alloc, &mut pages, scenario, events, cpu)?;
        push_place(
            bytes,
            start + before as u128,
            (pages.len() - before) as u128,
        )?;
    }
    Ok(pages)
}

/// Writes where pages stand, and how long they are.
fn push_place(bytes: &mut Vec<u8>, start: u128, len: u128) -> Result<(), NoMemory>
    ensures { OnOk result (bytes.new.items ≡ bytes.old.items ++ (number w64 start ++ number w64 len)) }
{
    push_u64(bytes, start)?;
    push_u64(bytes, len)
}
