//! The picture of a run.
ghost use Rattle.cmwq_picture.specs.ExtentContents.{extent_contents};
ghost use Rattle.cmwq_picture.specs.PictureOfRun.{Draws};
ghost use Rattle.cmwq_table.specs.State.{start};
ghost use Rattle.cmwq_types.specs.Faults.{IsValid};
ghost use Rattle.cmwq_types.specs.Scenario.{expand_lines};
ghost use Rattle.std.specs.Prelude.{◌≡◌};

use crate::extent::Extent;
use crate::folding::{DrawnColumns, edges, is_long, is_wide};
use crate::recorder::{Recorded, Recorder};
use crate::row::Picture;
use crate::rows::rows;
use crate::span::from_time;
use cmwq_streams::PlayError;
use cmwq_table::Machine;
use cmwq_types::{Line, Scenario};
use std::alloc::Global;

/// The picture of the run of the lines' instructions, on a machine in its start state: a row for each work that was ever
/// pending or ran in the span, or of those of these that are picked, for each CPU, for each worker of an unbound pool and each rescuer
/// that burns there, for freezes and memory pressure where there are, and for the actor; and a cell for each tick. Where that is asked,
/// or more than 500 columns would stand and not both ends of the span are given, each stretch of more than 20 ticks in which nothing
/// changes has one column. This is this project's own format.
///
/// `TooWide` exactly where not both ends of the span are given and it has more than 500 columns even so; it may come before the
/// run's end. Else the only error is want of memory.
pub fn picture<M: Machine>(
    alloc: Global,
    scenario: &Scenario,
    machine: M,
    lines: &[Line],
    extent: Extent<'_>,
) -> Result<Picture, PlayError>
    requires valid { IsValid scenario.now }
    requires loaded { M.loaded machine ≡ scenario.now }
    requires start { M.state machine ≡ start scenario.now }
    ensures picture { Draws scenario.now (expand_lines lines.now) (extent_contents extent.entry) result }
{
    let Extent { span, fold, works } = extent;
    let mut recorder = Recorder::new(alloc, scenario, machine, span);
    recorder.issue_all(alloc, lines)?;
    let Recorded { columns, acts } = recorder.into_recorded();
    if is_wide(alloc, span, &columns)? {
        return Err(PlayError::TooWide);
    }
    let fold = fold || is_long(span, &columns);
    let edges = edges(alloc, &columns, from_time(span.from), fold)?;
    let rows = rows(alloc, scenario, &DrawnColumns::of(&columns, fold), works)?;
    Ok(Picture { edges, rows, acts })
}
