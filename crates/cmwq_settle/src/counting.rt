//! How many `next` it takes until a machine is quiet.
ghost use Rattle.cmwq_play.specs.Runs.{CanRun, IsRunOf};
ghost use Rattle.cmwq_settle.specs.Counting.{HasCounted, IsCounted, nexts_given};
ghost use Rattle.cmwq_settle.specs.Quiet.{nexts_left};
ghost use Rattle.cmwq_table.specs.State.{start};
ghost use Rattle.cmwq_types.specs.Faults.{IsValid};
ghost use Rattle.cmwq_types.specs.Scenario.{expand_lines};
ghost use Rattle.cmwq_types.specs.declared.limits.TheConstants.{MAX_HISTORY};
ghost use Rattle.std.specs.Prelude.{◌≡◌, ◌-◌, IfOk, length, min};

use crate::watch::Watch;
use cmwq_runs::{issue_all, room_behind};
use cmwq_table::{Machine, Reads};
use cmwq_types::{Actor, Line, NoMemory, Scenario};
use std::alloc::Global;
use std::sync::Arc;

/// How many `next` are to be issued behind an actor's instructions.
#[derive(Clone, Copy)]
pub(crate) enum Nexts {
    /// The least number after which the machine is quiet.
    Settle(u32),
    /// As many as can be issued: the machine never is quiet.
    Never(u32),
}

impl Nexts {
    /// How many that are.
    pub(crate) fn number(self) -> u32
        ensures { result ≡ nexts_given self }
    {
        match self {
            Nexts::Settle(n) | Nexts::Never(n) => n,
        }
    }
}

/// How many `next` are to be issued behind the instructions of the scenario's one actor, as a machine of its own tells.
pub(crate) fn counted<M: Machine>(
    alloc: Global,
    scenario: &Arc<Scenario>,
) -> Result<Nexts, NoMemory>
    requires valid { IsValid scenario.now.value }
    requires can { CanRun scenario.now.value }
    ensures { IfOk result (λ nexts. HasCounted scenario.now.value nexts) }
{
    let machine = M::begin(alloc, Arc::clone(scenario)?)?;
    Ok(count_nexts(machine, scenario, &scenario.actors[0]))
}

/// How many `next` are to be issued behind the actor's instructions, on a machine at its start.
fn count_nexts<M: Machine>(machine: M, scenario: &Scenario, actor: &Actor) -> Nexts
    requires valid { IsValid scenario.now }
    requires runs { IsRunOf scenario.now actor.now }
    requires loaded { M.loaded machine ≡ scenario.now }
    requires start { M.state machine ≡ start scenario.now }
    ensures { IsCounted scenario.now actor.now result }
{
    let mut machine = machine;
    issue_all(&mut machine, &actor.lines);
    let most = nexts_left(&machine, &actor.lines);
    let mut watch = Watch {
        machine,
        witness: 0,
    };
    match watch.settle(most) {
        Some(n) => Nexts::Settle(n),
        None => Nexts::Never(most),
    }
}

/// How many `next` can be issued on the machine, on which these lines were issued.
fn nexts_left<R: Reads>(machine: &R, lines: &[Line]) -> u32
    ensures { result ≡ min ((R.loaded machine.now).steps - (R.state machine.now).spent) (MAX_HISTORY - length (expand_lines lines.now)) }
{
    let steps = machine.scenario().steps.saturating_sub(machine.spent());
    let room = room_behind(lines).unwrap_or(0);
    steps.min(room)
}
