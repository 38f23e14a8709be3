//! The drawing of one actor's run.
ghost use Rattle.cmwq_draw.specs.Rendered.{drawing_of, id_of, is_wide, rendered, scale_of};
ghost use Rattle.cmwq_picture.specs.ExtentContents.{picked_works};
ghost use Rattle.cmwq_types.specs.Faults.{IsValid};
ghost use Rattle.cmwq_types.specs.Scenario.{expand_lines};
ghost use Rattle.std.specs.Prelude.{◌≡◌, ◌⊎◌, ◌<◌, Err, IfErr, IfOk, false, true};

use crate::hints;
use crate::span_end::span_drawn;
use cmwq_drawing::{Drawing, Form};
use cmwq_picture::{Extent, Picture, picture};
use cmwq_render::sketch;
use cmwq_streams::PlayError;
use cmwq_svg::svg;
use cmwq_table::Machine;
use cmwq_types::{Actor, Line, NoMemory, Scenario, WorkId};
use std::alloc::Global;
use std::sync::Arc;

/// The drawing of the actor's run, with rows of these works, or of all. The only errors are `TooWide`, exactly where the picture has more
/// columns than are drawn unasked, and `NoMemory`.
pub fn drawing_of<M: Machine>(
    alloc: Global,
    drawing: Drawing<'_>,
    works: Option<&[WorkId]>,
    scenario: &Arc<Scenario>,
    actor: &Actor,
) -> Result<Vec<u8>, PlayError>
    requires { IsValid scenario.now.value }
    ensures text { IfOk result (λ text. text.items ≡ drawing_of drawing.entry scenario.now.value actor.now (picked_works works.entry)) }
    ensures fits { IfOk result (λ text. is_wide drawing.entry scenario.now.value actor.now ≡ false) }
    ensures wide { result ≡ Err PlayError.TooWide → is_wide drawing.entry scenario.now.value actor.now ≡ true }
    ensures why { IfErr result (λ error. (error ≡ PlayError.TooWide) ⊎ (error ≡ PlayError.NoMemory)) }
{
    let span = span_drawn::<M>(alloc, scenario, &actor.lines, drawing.span)?;
    let extent = Extent {
        span,
        fold: drawing.fold,
        works,
    };
    let machine = M::begin(alloc, Arc::clone(scenario)?)?;
    let picture = picture(alloc, scenario, machine, &actor.lines, extent)?;
    Ok(rendered::<M>(alloc, drawing.form, scenario, &actor.lines, &picture)?)
}

/// The picture of the lines' run as text or as SVG.
fn rendered<M: Machine>(
    alloc: Global,
    form: Form<'_>,
    scenario: &Arc<Scenario>,
    lines: &[Line],
    picture: &Picture,
) -> Result<Vec<u8>, NoMemory>
    requires { IsValid scenario.now.value }
    ensures { IfOk result (λ text. text.items ≡ rendered form.entry scenario.now.value (expand_lines lines.now) picture.now) }
{
    match form {
        Form::Text => sketch(alloc, scenario, picture),
        Form::Svg(style) => {
            let said = hints::<M>(alloc, scenario, lines, picture)?;
            let id = id_of(style.id);
            svg(alloc, scenario, picture, &said, id, scale_of(style.scale))
        }
    }
}

/// The picture's own name: `cmwq` where none is given.
fn id_of(id: Option<&str>) -> &str
    ensures { result.now ≡ id_of id.entry }
{
    id.unwrap_or("cmwq")
}

/// How wide a column is, in pixels: 10 where it isn't given, and 1 at least.
fn scale_of(scale: Option<u32>) -> u32
    ensures scale { result ≡ scale_of scale }
    ensures some { 0 < result }
{
    match scale {
        Some(scale) => scale.max(1),
        None => 10,
    }
}
