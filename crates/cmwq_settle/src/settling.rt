//! `settle`: from a scenario's text to the listing of the settled scenario.
ghost use Rattle.cmwq_play.specs.Commands.{Answers, Reads, Writes};
ghost use Rattle.cmwq_play.specs.Runs.{CanRun};
ghost use Rattle.cmwq_settle.specs.Counting.{with_one_actor};
ghost use Rattle.cmwq_settle.specs.Settled.{IsSettled, IsSettledIf, IsUnsettleable, IsUnsettledIf};
ghost use Rattle.cmwq_settle.specs.Settling.{IsSettledText, IsUnsettledText};
ghost use Rattle.cmwq_types.specs.Faults.{IsValid};
ghost use Rattle.std.specs.Io.KnownBytes.{Keeps};
ghost use Rattle.std.specs.Prelude.{◌≡◌, ◌⊎◌, Err, IfErr, IfOk, false};

use crate::counting::{Nexts, counted};
use crate::extending::with_nexts;
use cmwq_core::Core;
use cmwq_play::{judge, read_text, write_listing};
use cmwq_streams::{PlayError, Sink, Source};
use cmwq_types::{Actor, MAX_LINES, NoMemory, Scenario};
use std::alloc::Global;
use std::sync::Arc;

/// Reads a scenario's text, and writes the listing of the settled scenario (`settled`), so that running what is written prints what
/// `run_settled` prints.
///
/// It answers `Asm` with the text's fault exactly where the text spells no scenario, and else `Actors`, `Full` and `NeverQuiet`
/// exactly where `settled` does. Nothing was written then, and on `Read` and `NoMemory`; on `Write` what was written is a front of
/// the listing. At most one byte more is read than the 4,194,304 that a text may have.
pub fn settle_text<R: Source, W: Sink>(
    alloc: Global,
    reader: &mut R,
    writer: &mut W,
) -> Result<(), PlayError>
    requires reader { R.failed reader.old ≡ false }
    requires writer { W.failed writer.old ≡ false }
    ensures reads { Reads (R.remaining reader.old) (R.remaining reader.new) (R.failed reader.new) result }
    ensures answers { Answers IsSettledText IsUnsettledText (R.remaining reader.old) result }
    ensures writes { Writes (IsSettledText (R.remaining reader.old)) (W.contents writer.old) (W.contents writer.new) (W.failed writer.new) result }
    ensures never_quiet { result ≡ Err PlayError.NeverQuiet → Keeps (W.contents writer.old) (W.contents writer.new) }
    ensures no_memory { result ≡ Err PlayError.NoMemory → Keeps (W.contents writer.old) (W.contents writer.new) }
{
    let scenario = read_text(alloc, reader)?;
    let settled = settled(alloc, scenario)?;
    write_listing(alloc, &settled, writer)
}

/// The scenario whose one actor gives, behind its lines, the least number of `next` after which the machine is quiet, in lines of at
/// most 65,535.
///
/// It answers `Actors` exactly where the scenario hasn't one actor; `Full` exactly where that one has more than 1,048,576
/// instructions, or would have more than 4,096 lines; and `NeverQuiet` exactly where no `next` that can be issued within the
/// scenario's steps, and within 1,048,576 instructions in all, makes the machine quiet.
pub fn settled(alloc: Global, scenario: Scenario) -> Result<Scenario, PlayError>
    requires valid { IsValid scenario }
    ensures settled { IfOk result (λ settled. IsSettled scenario settled) }
    ensures valid { IfOk result (λ settled. IsValid settled) }
    ensures can { IfOk result (λ settled. CanRun settled) }
    ensures why { IfErr result (λ error. IsUnsettleable scenario error ⊎ (error ≡ PlayError.NoMemory)) }
{
    judge(&scenario)?;
    let shared = Arc::new(alloc, scenario.copy()?)?;
    let Nexts::Settle(n) = counted::<Core>(alloc, &shared)? else {
        return Err(PlayError::NeverQuiet);
    };
    let actor = with_nexts(alloc, &scenario.actors[0], n)?;
    if actor.lines.len() > MAX_LINES {
        return Err(PlayError::Full);
    }
    Ok(with_one_actor(alloc, scenario, actor)?)
}

/// The scenario settled where that is asked, and else the scenario itself, which can be run then.
///
/// It answers `Actors` exactly where the scenario hasn't one actor, and `Full` exactly where that one has more than 1,048,576
/// instructions. Where it is to be settled it answers `Full` and `NeverQuiet` besides exactly where `settled` does.
pub fn settled_if(alloc: Global, settle: bool, scenario: Scenario) -> Result<Scenario, PlayError>
    requires valid { IsValid scenario }
    ensures settled { IfOk result (λ run. IsSettledIf settle scenario run) }
    ensures valid { IfOk result (λ run. IsValid run) }
    ensures can { IfOk result (λ run. CanRun run) }
    ensures why { IfErr result (λ error. IsUnsettledIf settle scenario error ⊎ (error ≡ PlayError.NoMemory)) }
{
    if settle {
        return settled(alloc, scenario);
    }
    judge(&scenario)?;
    Ok(scenario)
}

/// The same scenario with this one actor.
fn with_one_actor(alloc: Global, scenario: Scenario, actor: Actor) -> Result<Scenario, NoMemory>
    ensures { IfOk result (λ other. other ≡ with_one_actor scenario actor) }
{
    let mut scenario = scenario;
    scenario.actors = vec![in alloc; actor]?;
    Ok(scenario)
}
