//! Where a drawing ends.
ghost use Rattle.cmwq_draw.specs.SpanEnd.{end_drawn, span_drawn};
ghost use Rattle.cmwq_types.specs.Faults.{IsValid};
ghost use Rattle.cmwq_types.specs.Scenario.{expand_lines};
ghost use Rattle.std.specs.Prelude.{◌≡◌, IfOk};

use cmwq_drawing::Span;
use cmwq_runs::issue_all;
use cmwq_table::Machine;
use cmwq_types::{Line, NoMemory, Scenario};
use std::alloc::Global;
use std::sync::Arc;

/// Returns the span that is drawn of the lines' run. An end that the run doesn't pass cuts nothing off, not even what the actor did after the
/// last tick. The only error is want of memory.
pub(crate) fn span_drawn<M: Machine>(
    alloc: Global,
    scenario: &Arc<Scenario>,
    lines: &[Line],
    span: Span,
) -> Result<Span, NoMemory>
    requires { IsValid scenario.now.value }
    ensures { IfOk result (λ drawn. drawn ≡ span_drawn scenario.now.value (expand_lines lines.now) span) }
{
    let Some(to) = span.to else {
        return Ok(span);
    };
    let mut machine = M::begin(alloc, Arc::clone(scenario)?)?;
    issue_all(&mut machine, lines);
    Ok(Span {
        to: Some(end_drawn(machine.now(), to)),
        ..span
    })
}

/// Returns the end of the span if the run, which ends at `end`, goes beyond it, and otherwise the last time that there is.
fn end_drawn(end: u64, to: u64) -> u64
    ensures { result ≡ end_drawn end to }
{
    if to < end { to } else { u64::MAX }
}
