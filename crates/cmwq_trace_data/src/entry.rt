//! The entry of an event.
ghost use Rattle.cmwq_trace_data.specs.Entries.{event_fields, event_id, function_address, nanoseconds, number, payload, queue_fields, queued_cpu, stamp, word_filled};
ghost use Rattle.cmwq_types.specs.Scenario.{is_unbound};
ghost use Rattle.std.specs.Int.{w64};
ghost use Rattle.std.specs.Prelude.{◌≡◌, ◌≤◌, ◌/◌, ◌++◌, IfOk, OnOk, length, ℕ};

use crate::numbers::{push_u16, push_u32, push_u64, push_zeros};
use cmwq_events::{KernelEvent, Tracepoint};
use cmwq_types::{NoMemory, Scenario};
use std::alloc::Global;

/// So many nanoseconds are a tick.
const TICK: u128 = 1_000_000;

/// What 27 bits can hold, and 1.
const DELTAS: u128 = 1 << 27;

/// The event as an entry holds it.
pub(crate) fn payload(
    alloc: Global,
    scenario: &Scenario,
    event: KernelEvent,
) -> Result<Vec<u8>, NoMemory>
    ensures { IfOk result (λ bytes. bytes.items ≡ payload scenario.now event) }
{
    let mut bytes = Vec::with_capacity(alloc, 64)?;
    push_u16(&mut bytes, event_id(event.tracepoint))?;
    push_u16(&mut bytes, 0)?;
    push_u32(&mut bytes, u128::from(event.task.pid()))?;
    push_fields(
        &mut bytes,
        scenario,
        event.work.0 as usize,
        event.tracepoint,
    )?;
    Ok(bytes)
}

/// The identifier of the event's format.
fn event_id(tracepoint: Tracepoint) -> u16
    ensures { result ≡ event_id tracepoint }
{
    match tracepoint {
        Tracepoint::QueueWork { .. } => 101,
        Tracepoint::ActivateWork => 102,
        Tracepoint::ExecuteStart => 103,
        Tracepoint::ExecuteEnd => 104,
    }
}

/// Writes the fields of an event of the work.
fn push_fields(
    bytes: &mut Vec<u8>,
    scenario: &Scenario,
    work: usize,
    tracepoint: Tracepoint,
) -> Result<(), NoMemory>
    ensures { OnOk result (bytes.new.items ≡ bytes.old.items ++ event_fields scenario.now work tracepoint) }
{
    push_u64(bytes, work as u128 + 1)?;
    match tracepoint {
        Tracepoint::ActivateWork => Ok(()),
        Tracepoint::ExecuteStart | Tracepoint::ExecuteEnd => push_function(bytes, work),
        Tracepoint::QueueWork { cpu, pool } => {
            push_function(bytes, work)?;
            push_queue(bytes, scenario, work, cpu, pool)
        }
    }
}

/// Writes where the work's function stands.
fn push_function(bytes: &mut Vec<u8>, work: usize) -> Result<(), NoMemory>
    ensures { OnOk result (bytes.new.items ≡ bytes.old.items ++ number w64 (function_address work)) }
{
    push_u64(bytes, 0xffff_ffff_8100_0000 + 64 * work as u128)
}

/// Writes where the name of the work's queue stands, the CPU that was asked for and that of the pool, and the name.
fn push_queue(
    bytes: &mut Vec<u8>,
    scenario: &Scenario,
    work: usize,
    cpu: u8,
    pool: u8,
) -> Result<(), NoMemory>
    ensures { OnOk result (bytes.new.items ≡ bytes.old.items ++ queue_fields scenario.now work cpu pool) }
{
    let name = scenario.queue_name_bytes(scenario.queue_of(work) as usize);
    push_u32(bytes, 36 + 65536 * (name.len() as u128 + 1))?;
    push_u32(bytes, u128::from(cpu))?;
    push_u32(bytes, u128::from(queued_cpu(scenario, pool)))?;
    push_word_filled(bytes, name)
}

/// The CPU on whose queue a work of the pool is, or -1 in 32 bits.
fn queued_cpu(scenario: &Scenario, pool: u8) -> u32
    ensures { result ≡ queued_cpu scenario.now pool }
{
    if 2 * u16::from(scenario.cpus) <= u16::from(pool) {
        u32::MAX
    } else {
        u32::from(pool / 2)
    }
}

/// Writes the text, and zeros behind it, at least one, up to a whole number of words.
fn push_word_filled(bytes: &mut Vec<u8>, text: &[u8]) -> Result<(), NoMemory>
    requires { length text.now ≤ 15 }
    ensures { OnOk result (bytes.new.items ≡ bytes.old.items ++ word_filled text.now) }
{
    bytes.extend_from_slice(text)?;
    push_zeros(bytes, (text.len() + 1).next_multiple_of(4) - text.len())
}

/// Writes an entry: so many ticks behind the one before, an event.
pub(crate) fn push_entry(bytes: &mut Vec<u8>, ticks: u64, payload: &[u8]) -> Result<(), NoMemory>
    ensures { OnOk result (bytes.new.items ≡ bytes.old.items ++ (stamp (length payload.now / 4) (nanoseconds ticks) ++ payload.now)) }
{
    push_stamp(bytes, payload.len() / 4, TICK * u128::from(ticks))?;
    bytes.extend_from_slice(payload)?;
    Ok(())
}

/// Writes what stands before an event of so many words, so many nanoseconds behind the one before.
fn push_stamp(bytes: &mut Vec<u8>, words: usize, delta: u128) -> Result<(), NoMemory>
    ensures { OnOk result (bytes.new.items ≡ bytes.old.items ++ stamp words delta) }
{
    let words = words as u128;
    if delta < DELTAS {
        return push_u32(bytes, words + 32 * delta);
    }
    push_u32(bytes, 30 + 32 * (delta % DELTAS))?;
    push_u32(bytes, delta / DELTAS)?;
    push_u32(bytes, words)
}

/// How many bytes stand before an event so many ticks behind the one before.
#[tactic(auto, unfolding(crate::specs::Entries::number))]
pub(crate) fn stamp_len(ticks: u64) -> usize
    ensures size { (words : ℕ) → length (stamp words (nanoseconds ticks)) ≡ result }
    ensures short { result ≤ 12 }
{
    if TICK * u128::from(ticks) < DELTAS {
        4
    } else {
        12
    }
}
