//! The instructions that lines stand for, one after another.
ghost use Rattle.cmwq_runs.specs.RunInstructions.{left};
ghost use Rattle.cmwq_types.specs.Scenario.{expand_lines};
ghost use Rattle.std.specs.Prelude.{◌≡◌, IfOk};

use cmwq_types::{Instr, Line, NoMemory};
use std::alloc::Global;

/// The instructions that lines stand for, in order: each line's as often as the line says.
#[derive(Drop)]
pub struct Instructions<'a> {
    /// The lines that aren't done.
    lines: &'a [Line],
    /// How often the first of these was given already.
    given: u32,
}

impl<'a> Instructions<'a> {
    /// The instructions of the lines.
    pub fn of(lines: &'a [Line]) -> Instructions<'a>
        ensures { left result ≡ expand_lines lines.now }
    {
        Instructions { lines, given: 0 }
    }
}

impl Iterator for Instructions<'_> {
    ghost use Rattle.cmwq_runs.specs.RunInstructions.{left};
    ghost use Rattle.std.specs.Iterator.{YieldsFirst, item_count};

    type Item = Instr;

    ghost next_gives = { YieldsFirst left };

    ghost remaining = { item_count left };

    fn next(&mut self) -> Option<Instr> {
        while let Some((line, behind)) = self.lines.split_first() {
            if self.given < line.times {
                self.given += 1;
                return Some(line.instr);
            }
            self.lines = behind;
            self.given = 0;
        }
        None
    }
}

/// The instructions of the lines, in a list.
pub fn expanded(alloc: Global, lines: &[Line]) -> Result<Vec<Instr>, NoMemory>
    ensures { IfOk result (λ instrs. instrs.items ≡ expand_lines lines.now) }
{
    let mut instrs = Vec::new(alloc);
    for instr in Instructions::of(lines) {
        instrs.push(instr)?;
    }
    Ok(instrs)
}
