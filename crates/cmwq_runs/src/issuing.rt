//! All instructions of a run, issued on a machine.
ghost use Rattle.cmwq_table.specs.Table.{after_all};
ghost use Rattle.cmwq_types.specs.Scenario.{expand_lines};
ghost use Rattle.std.specs.Prelude.{◌≡◌};

use crate::instructions::Instructions;
use cmwq_table::Machine;
use cmwq_types::Line;

/// Issues the lines' instructions on the machine.
pub fn issue_all<M: Machine>(machine: &mut M, lines: &[Line])
    ensures loaded { M.loaded machine.new ≡ M.loaded machine.old }
    ensures state { M.state machine.new ≡ after_all (M.loaded machine.old) (M.state machine.old) (expand_lines lines.now) }
{
    for instr in Instructions::of(lines) {
        let _ = machine.exec(instr);
    }
}
