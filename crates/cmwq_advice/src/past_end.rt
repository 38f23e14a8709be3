//! Where a run ends.
ghost use Rattle.cmwq_advice.specs.Advice.{IsEnd, IsPastEnd, end_of, end_time};
ghost use Rattle.cmwq_play.specs.Runs.{CanRun};
ghost use Rattle.cmwq_types.specs.Faults.{IsValid};
ghost use Rattle.cmwq_types.specs.Scenario.{expand_lines};
ghost use Rattle.cmwq_types.specs.declared.limits.TheConstants.{MAX_HISTORY};
ghost use Rattle.std.specs.Prelude.{◌≡◌, ◌≤◌, IfOk, length};

use crate::line::line_of;
use cmwq_core::Core;
use cmwq_question::{Inquiry, Looks};
use cmwq_request::request::Request;
use cmwq_runs::{issue_all, room_behind};
use cmwq_settle::settled_if;
use cmwq_streams::PlayError;
use cmwq_table::Machine;
use cmwq_tasks::Task;
use cmwq_types::{Line, MAX_HISTORY, NoMemory, Scenario};
use itoa::Buffer;
use std::alloc::Global;
use std::sync::Arc;

/// Where the run ends of which `why` was asked; of other requests nothing. It fails only for want of memory.
pub(crate) fn past_end(
    alloc: Global,
    request: &Request<'_>,
    scenario: Scenario,
) -> Result<Vec<u8>, NoMemory>
    requires { IsValid scenario }
    ensures { IfOk result (λ told. IsPastEnd request.now scenario told.items) }
{
    match request {
        Request::Do {
            file: _,
            task: Task::Why(inquiry),
        } => end_told(alloc, *inquiry, scenario),
        _ => Ok(Vec::new(alloc)),
    }
}

/// Where the run of the scenario ends, settled where that is asked; nothing where there is no such run.
fn end_told(alloc: Global, inquiry: Inquiry<'_>, scenario: Scenario) -> Result<Vec<u8>, NoMemory>
    requires { IsValid scenario }
    ensures { IfOk result (λ told. IsEnd inquiry.entry scenario told.items) }
{
    match settled_if(alloc, inquiry.settle, scenario) {
        Ok(scenario) => end_line(alloc, inquiry.looks, scenario),
        Err(PlayError::NoMemory) => Err(NoMemory),
        Err(_) => Ok(Vec::new(alloc)),
    }
}

/// The last tick of the run of the scenario's one actor where a tick was asked for, else its last position.
fn end_line(alloc: Global, looks: Looks, scenario: Scenario) -> Result<Vec<u8>, NoMemory>
    requires valid { IsValid scenario }
    requires runs { CanRun scenario }
    ensures { IfOk result (λ told. told.items ≡ end_of looks scenario scenario.actors) }
{
    let mut buffer = Buffer::new();
    if let Looks::Time(_) = looks {
        let last = buffer.format(last_tick::<Core>(alloc, scenario)?);
        return line_of(alloc, &["the run ends at tick ", last]);
    }
    let last = buffer.format(instruction_count(&scenario.actors[0].lines));
    line_of(alloc, &["the last position is ", last])
}

/// The time at which the run of the scenario's first actor ends.
fn last_tick<M: Machine>(alloc: Global, scenario: Scenario) -> Result<u64, NoMemory>
    requires valid { IsValid scenario }
    requires runs { CanRun scenario }
    ensures { IfOk result (λ tick. tick ≡ end_time scenario scenario.actors) }
{
    let scenario = Arc::new(alloc, scenario)?;
    let mut machine = M::begin(alloc, Arc::clone(&scenario)?)?;
    issue_all(&mut machine, &scenario.actors[0].lines);
    Ok(machine.now())
}

/// How many instructions the lines have, which are no more than one run issues.
fn instruction_count(lines: &[Line]) -> u32
    requires { length (expand_lines lines.now) ≤ MAX_HISTORY }
    ensures { result ≡ length (expand_lines lines.now) }
{
    match room_behind(lines) {
        Some(room) => MAX_HISTORY - room,
        None => unreachable!(),
    }
}
