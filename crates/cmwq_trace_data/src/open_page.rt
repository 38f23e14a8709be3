//! The pages of a CPU, which are written one event after another.
ghost use Rattle.cmwq_events.specs.declared.kernel_event.KernelEvent.{KernelEvent};
ghost use Rattle.cmwq_trace_data.specs.PageParts.{closed, fits, laid};
ghost use Rattle.cmwq_trace_data.specs.Pages.{cpu_pages, page_bytes};
ghost use Rattle.std.specs.Prelude.{◌≡◌, ◌∷◌, ◌++◌, ◌≤◌, ◌+◌, ◌^◌, [], List, OnOk, length};

use crate::entry::{payload, push_entry, stamp_len};
use crate::numbers::{push_u64, push_zeros};
use crate::texts::{PAGE, PAGE_HEAD, SPARE};
use cmwq_events::KernelEvent;
use cmwq_types::{NoMemory, Scenario};
use std::alloc::Global;

/// Writes the pages of the CPU: of the events the ones there.
pub(crate) fn push_cpu_pages(
    alloc: Global,
    bytes: &mut Vec<u8>,
    scenario: &Scenario,
    events: &[KernelEvent],
    cpu: u8,
) -> Result<(), NoMemory>
    ensures { OnOk result (bytes.new.items ≡ bytes.old.items ++ cpu_pages scenario.now events.now cpu) }
{
    let mut open = OpenPage {
        since: 0,
        last: 0,
        entries: Vec::new(alloc),
    };
    for event in events {
        if event.task.cpu(scenario) == cpu {
            open.push(alloc, bytes, scenario, *event)?;
        }
    }
    open.close(bytes)
}

/// The page to which the next event goes, if it has room for it.
#[derive(Drop)]
struct OpenPage {
    /// The time of its first event, in ticks.
    since: u64,
    /// That of its last one.
    last: u64,
    /// Its entries, none before the first page.
    entries: Vec<u8>,
}

impl OpenPage {
    /// Writes the event to the page, or where that has no room for it closes this and begins another with it.
    fn push(
        &mut self,
        alloc: Global,
        bytes: &mut Vec<u8>,
        scenario: &Scenario,
        event: KernelEvent,
    ) -> Result<(), NoMemory>
        ensures { OnOk result ((es : List KernelEvent) → bytes.new.items ++ laid scenario.now self.new.since self.new.last self.new.entries.items es
            ≡ bytes.old.items ++ laid scenario.now self.old.since self.old.last self.old.entries.items (event ∷ es)) }
    {
        let payload = payload(alloc, scenario, event)?;
        let ticks = event.time.saturating_sub(self.last);
        if fits(self.entries.len(), stamp_len(ticks), payload.len()) {
            push_entry(&mut self.entries, ticks, &payload)?;
        } else {
            self.close(bytes)?;
            self.since = event.time;
            self.entries.clear();
            push_entry(&mut self.entries, 0, &payload)?;
        }
        self.last = event.time;
        Ok(())
    }

    /// Writes the page, if there is one.
    fn close(&self, bytes: &mut Vec<u8>) -> Result<(), NoMemory>
        ensures { OnOk result (bytes.new.items ≡ bytes.old.items ++ closed self.now.since self.now.entries.items) }
    {
        if self.entries.is_empty() {
            return Ok(());
        }
        push_page(bytes, self.since, &self.entries)
    }
}

/// Whether an entry of so many bytes and more has room behind so many on a page.
fn fits(there: usize, stamp: usize, payload: usize) -> bool
    requires { stamp ≤ 12 }
    ensures { result ≡ fits there (stamp + payload) }
{
    let size = there as u128 + stamp as u128 + payload as u128 + SPARE as u128;
    there != 0 && size <= (PAGE - PAGE_HEAD) as u128
}

/// Writes a page with these entries, of which the first is at this time.
fn push_page(bytes: &mut Vec<u8>, since: u64, entries: &[u8]) -> Result<(), NoMemory>
    ensures { OnOk result (bytes.new.items ≡ bytes.old.items ++ page_bytes since entries.now) }
{
    push_u64(bytes, 1_000_000 * u128::from(since))?;
    push_u64(bytes, entries.len() as u128)?;
    bytes.extend_from_slice(entries)?;
    push_zeros(bytes, (PAGE - PAGE_HEAD).saturating_sub(entries.len()))
}
