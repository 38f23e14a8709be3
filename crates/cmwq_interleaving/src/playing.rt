//! `play`: from a scenario's actors, each in a thread, to the text of the interleaving that came out.
ghost use Rattle.cmwq_actors.specs.Interleaving.{Interleaves, scripts_of};
ghost use Rattle.cmwq_engine.specs.History.{instrs_of};
ghost use Rattle.cmwq_interleaving.specs.Plays.{HasFronts, IsActed, IsBeforePlaying, IsFull, IsLeft, IsPlayError, Left, LeftFront, play_end};
ghost use Rattle.cmwq_types.specs.Faults.{IsValid};
ghost use Rattle.cmwq_types.specs.declared.limits.TheConstants.{MAX_LINES};
ghost use Rattle.std.specs.Io.KnownBytes.{Keeps};
ghost use Rattle.std.specs.Prelude.{◌≡◌, ◌≤◌, ◌↔◌, [], Err, IfErr, IfOk, OnOk, false, length, true};

use crate::leaving::played_text;
use cmwq_actors::{Enactment, Ending, Gate, enact};
use cmwq_core::Core;
use cmwq_engine::Entry;
use cmwq_streams::{PlayError, Sink, put_all};
use cmwq_table::Machine;
use cmwq_types::{Instr, NoMemory, Scenario};
use std::alloc::Global;
use std::sync::{Arc, Wait};
use std::thread::Threads;
use std::time::Clock;

/// Carries out all actors of the scenario at once, each in a thread of its own, on one machine, and writes the text of what came
/// out: the same scenario with one actor, `played`, who gives all their instructions in the order in which the machine took them,
/// a line each; and behind it the lines that running this text prints, each after `# `. Whoever runs it gets these lines.
///
/// The machine takes so many instructions, at most 4,096. The gate is passed before each.
///
/// It answers `Actors` exactly where the scenario has no actor. `Full` and `Tickets` are told once the whole text was written:
/// `Tickets` where an actor found no ticket left, else `Full` where one found the history full; each actor's instructions are then
/// a front of its own. `NoMemory` is told also where a thread can't be started; then nothing was written. On `Write` what was
/// written is a front of such a text. It may wait forever.
pub fn play<'x, R: Threads + Wait + Clock + Sync, G: Gate, W: Sink>(
    rt: &'x R,
    alloc: Global,
    scenario: Scenario,
    capacity: u32,
    gate: &'x G,
    writer: &mut W,
) -> Result<(), PlayError>
    requires valid { IsValid scenario }
    requires few { capacity ≤ MAX_LINES }
    requires writer { W.failed writer.old ≡ false }
    ensures ok { OnOk result (Left scenario (λ history. Interleaves (scripts_of scenario) history) (W.contents writer.old) (W.contents writer.new)) }
    ensures full { result ≡ Err PlayError.Full → Left scenario (λ history. IsFull scenario capacity history) (W.contents writer.old) (W.contents writer.new) }
    ensures tickets { result ≡ Err PlayError.Tickets → Left scenario (λ history. HasFronts scenario history) (W.contents writer.old) (W.contents writer.new) }
    ensures front { result ≡ Err PlayError.Write → LeftFront scenario (λ history. HasFronts scenario history) (W.contents writer.old) (W.contents writer.new) }
    ensures actors { (result ≡ Err PlayError.Actors) ↔ (scenario.actors ≡ []) }
    ensures silent { IfErr result (λ error. IsBeforePlaying error → Keeps (W.contents writer.old) (W.contents writer.new)) }
    ensures write { (result ≡ Err PlayError.Write) ↔ (W.failed writer.new ≡ true) }
    ensures why { IfErr result (λ error. IsPlayError error) }
{
    if scenario.actors.is_empty() {
        return Err(PlayError::Actors);
    }
    let (ending, text) = acted::<R, Core, G>(rt, alloc, scenario, capacity, gate)?;
    put_all(writer, &text)?;
    play_end(ending)
}

/// How all actors of the scenario end, and the text of what came out.
fn acted<'x, R: Threads + Wait + Clock + Sync, M: Machine + Send, G: Gate>(
    rt: &'x R,
    alloc: Global,
    scenario: Scenario,
    capacity: u32,
    gate: &'x G,
) -> Result<(Ending, Vec<u8>), NoMemory>
    requires valid { IsValid scenario }
    requires few { capacity ≤ MAX_LINES }
    ensures { IfOk result (λ r. IsActed scenario capacity r.0 r.1.items) }
{
    let scenario = Arc::new(alloc, scenario)?;
    let enacted: Enactment<M> = enact(rt, alloc, &scenario, capacity, gate)?;
    let text = text_left(alloc, &scenario, enacted.engine.history())?;
    Ok((enacted.ending(), text))
}

/// What a play with this history leaves.
fn text_left(alloc: Global, scenario: &Scenario, history: &[Entry]) -> Result<Vec<u8>, NoMemory>
    requires valid { IsValid scenario.now }
    requires fronts { HasFronts scenario.now history.now }
    requires few { length history.now ≤ MAX_LINES }
    ensures { IfOk result (λ text. IsLeft scenario.now history.now text.items) }
{
    let instrs = instrs_of(alloc, history)?;
    played_text(alloc, scenario, &instrs)
}

/// The instructions of the history, in order.
fn instrs_of(alloc: Global, history: &[Entry]) -> Result<Vec<Instr>, NoMemory>
    ensures { IfOk result (λ instrs. instrs.items ≡ instrs_of history.now) }
{
    Ok(history.iter().map(|entry| entry.instr).collect(alloc)?)
}

/// How a play ends, by how its actors end.
fn play_end(ending: Ending) -> Result<(), PlayError>
    ensures { result ≡ play_end ending }
{
    match ending {
        Ending::Done => Ok(()),
        Ending::Full => Err(PlayError::Full),
        Ending::Exhausted => Err(PlayError::Tickets),
    }
}
