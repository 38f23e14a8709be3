//! Reading an image.
ghost use Rattle.cmwq_image.specs.FaultMeaning.{Means};
ghost use Rattle.cmwq_image.specs.ImageFault.{GivesRead, reading, scenario_at};
ghost use Rattle.cmwq_image.specs.Versions.{IsImageOf};
ghost use Rattle.cmwq_types.specs.Values.{IsScenario};
ghost use Rattle.cmwq_types.specs.Contents.{ScenarioContents};
ghost use Rattle.cmwq_types.specs.Faults.{IsValid};
ghost use Rattle.std.specs.Prelude.{◌≡◌, IfErr, IfOk, Ok};

use crate::error::ImageError;
use crate::fields_left::FieldsLeft;
use cmwq_types::Scenario;
use std::alloc::Global;

/// The scenario of which the bytes are the image, of version 4 or of an older one.
///
/// Faults are judged in this order, which is this project's own: `Magic`; then field by field from the
/// left `Truncated`, `Version` or `BadField`; then `Extra`; then the first fault of the scenario itself. Besides
/// there may be `NoMemory`, which says nothing of the bytes.
pub fn read(alloc: Global, bytes: &[u8]) -> Result<Scenario, ImageError>
    // What is read has the bytes as its image of some version.
    ensures found { IfOk result (λ scenario. IsScenario scenario × IsValid scenario × IsImageOf bytes.now scenario) }
    // The image of a valid scenario is read, unless memory runs out.
    ensures only { (S : ScenarioContents) → IsScenario S → IsValid S → IsImageOf bytes.now S → GivesRead (λ scenario. scenario) result (Ok S) }
    // Which fault it is: the first one from the left.
    ensures fault { GivesRead (λ scenario. scenario) result (reading bytes.now) }
    // What the fault says of the bytes.
    ensures meaning { IfErr result (λ fault. Means bytes.now fault) }
{
    read_all(alloc, bytes)
}

#[tactic(auto, unfolding(crate::specs::ImageFault::reading))]
fn read_all(alloc: Global, bytes: &[u8]) -> Result<Scenario, ImageError>
    ensures { GivesRead (λ scenario. scenario) result (reading bytes.now) }
{
    let mut fields = FieldsLeft::behind_magic(bytes)?;
    let scenario = read_scenario(alloc, &mut fields)?;
    if !fields.is_empty() {
        return Err(ImageError::Extra);
    }
    match scenario.check() {
        Ok(()) => Ok(scenario),
        Err(fault) => Err(ImageError::Fault(fault)),
    }
}

#[tactic(auto, unfolding(crate::specs::ImageFault::scenario_at))]
fn read_scenario(alloc: Global, fields: &mut FieldsLeft) -> Result<Scenario, ImageError>
    requires { fields.old.at ≡ 4 }
    ensures { GivesRead (λ scenario. (scenario, fields.new)) result (scenario_at fields.old) }
{
    let version = fields.version()?;
    let head = fields.head()?;
    let queues = fields.queues(alloc, version, head.queues)?;
    let works = fields.works(alloc, version, head.works)?;
    let actors = fields.actors(alloc, version, head.actors)?;
    Ok(Scenario {
        cpus: head.cpus,
        workers: head.workers,
        steps: head.steps,
        flushes: head.flushes,
        queues,
        works,
        actors,
    })
}
