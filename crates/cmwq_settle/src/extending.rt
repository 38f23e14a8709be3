//! Lines of `next` behind those of an actor.
ghost use Rattle.cmwq_settle.specs.Settled.{next_line, next_lines, with_nexts};
ghost use Rattle.std.specs.Prelude.{◌≡◌, ◌++◌, IfOk, OnOk};

use cmwq_types::{Actor, Instr, Line, MAX_TIMES, NoMemory};
use std::alloc::Global;

/// The same actor, which gives so many `next` behind its lines.
pub(crate) fn with_nexts(alloc: Global, actor: &Actor, nexts: u32) -> Result<Actor, NoMemory>
    ensures { IfOk result (λ longer. longer ≡ with_nexts nexts actor.now) }
{
    let mut lines = Vec::from_slice(alloc, &actor.lines)?;
    push_nexts(&mut lines, nexts)?;
    Ok(Actor {
        name: actor.name,
        lines,
    })
}

/// Writes so many `next` behind the lines, in lines as full as one can be.
fn push_nexts(lines: &mut Vec<Line>, nexts: u32) -> Result<(), NoMemory>
    ensures { OnOk result (lines.new.items ≡ lines.old.items ++ next_lines nexts) }
{
    for _turn in 0..nexts / MAX_TIMES {
        lines.push(line_of_nexts(MAX_TIMES))?;
    }
    let rest = nexts % MAX_TIMES;
    if rest > 0 {
        lines.push(line_of_nexts(rest))?;
    }
    Ok(())
}

/// A line of so many `next`.
fn line_of_nexts(times: u32) -> Line
    ensures { result ≡ next_line times }
{
    Line {
        instr: Instr::Next,
        times,
    }
}
