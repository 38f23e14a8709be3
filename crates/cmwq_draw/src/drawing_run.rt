//! `draw`: from a scenario's text to a picture of its run.
ghost use Rattle.cmwq_draw.specs.Drawn.{IsChosen, IsDrawFault, IsDrawing, IsDrawnText, IsRefusedFirst, IsUndrawable};
ghost use Rattle.cmwq_play.specs.Commands.{Answers, Reads, Writes};
ghost use Rattle.cmwq_types.specs.Faults.{IsValid};
ghost use Rattle.std.specs.Io.KnownBytes.{Keeps};
ghost use Rattle.std.specs.Prelude.{◌≡◌, ◌⊎◌, Err, IfErr, IfOk, false, length};

use crate::picking::{picked, work_slice};
use crate::rendering::drawing_of;
use cmwq_core::Core;
use cmwq_drawing::Drawing;
use cmwq_play::{judge, read_text};
use cmwq_settle::settled;
use cmwq_streams::{PlayError, Sink, Source, put_all};
use cmwq_table::Machine;
use cmwq_types::Scenario;
use std::alloc::Global;
use std::sync::Arc;

/// Reads a scenario's text, and writes a picture of its one actor's run, as text or as SVG; of the settled scenario where that is
/// asked.
///
/// It answers `Asm` with the text's fault exactly where the text spells no scenario; `Actors` exactly where the scenario hasn't one
/// actor; `Full` exactly where that one has more than 1,048,576 instructions, and, settled, where it would have more than 4,096
/// lines; `NeverQuiet` exactly where the machine is to be quiet and never is; then `NoSuchWork` exactly where one of the names isn't a
/// work's; and then `TooWide` exactly where the picture would have more than 500 columns, long stretches in which nothing changes
/// being one each, and not both ends of the span are given. Nothing was written then, and on `Read` and `NoMemory`; on `Write` what
/// was written is a front of the picture. At most one byte more is read than the 4,194,304 that a text may have.
pub fn draw<R: Source, W: Sink>(
    alloc: Global,
    drawing: Drawing<'_>,
    reader: &mut R,
    writer: &mut W,
) -> Result<(), PlayError>
    requires reader { R.failed reader.old ≡ false }
    requires writer { W.failed writer.old ≡ false }
    ensures reads { Reads (R.remaining reader.old) (R.remaining reader.new) (R.failed reader.new) result }
    ensures answers { Answers (IsDrawnText drawing.entry) (IsDrawFault drawing.entry) (R.remaining reader.old) result }
    ensures writes { Writes (IsDrawnText drawing.entry (R.remaining reader.old)) (W.contents writer.old) (W.contents writer.new) (W.failed writer.new) result }
    ensures never_quiet { result ≡ Err PlayError.NeverQuiet → Keeps (W.contents writer.old) (W.contents writer.new) }
    ensures no_memory { result ≡ Err PlayError.NoMemory → Keeps (W.contents writer.old) (W.contents writer.new) }
{
    let scenario = read_text(alloc, reader)?;
    let text = drawn::<Core>(alloc, drawing, scenario)?;
    put_all(writer, &text)
}

/// The drawing of the run of a scenario's one actor, or of the settled scenario's where that is asked.
fn drawn<M: Machine>(
    alloc: Global,
    drawing: Drawing<'_>,
    scenario: Scenario,
) -> Result<Vec<u8>, PlayError>
    requires { IsValid scenario }
    ensures drawing { IfOk result (λ text. IsDrawing drawing.entry scenario text.items) }
    ensures why { IfErr result (λ error. IsUndrawable drawing.entry scenario error ⊎ (error ≡ PlayError.NoMemory)) }
{
    let scenario = Arc::new(alloc, chosen(alloc, drawing.settle, scenario)?)?;
    let works = picked(alloc, &scenario, drawing.works)?;
    let actor = &scenario.actors[0];
    drawing_of::<M>(alloc, drawing, work_slice(&works), &scenario, actor)
}

/// The scenario whose run is drawn: this one, which can be run, or this one settled.
fn chosen(alloc: Global, settle: bool, scenario: Scenario) -> Result<Scenario, PlayError>
    requires { IsValid scenario }
    ensures chosen { IfOk result (λ chosen. IsChosen settle scenario chosen) }
    ensures valid { IfOk result (λ chosen. IsValid chosen) }
    ensures alone { IfOk result (λ chosen. length chosen.actors ≡ 1) }
    ensures why { IfErr result (λ error. IsRefusedFirst settle scenario error ⊎ (error ≡ PlayError.NoMemory)) }
{
    if settle {
        return settled(alloc, scenario);
    }
    judge(&scenario)?;
    Ok(scenario)
}
