//! Whether time passes.
ghost use Rattle.cmwq_blame.specs.Table.{can_pass, is_clock};
ghost use Rattle.cmwq_ledger.specs.Ledger.{lets_pass};
ghost use Rattle.cmwq_table.specs.Table.{table};
ghost use Rattle.std.specs.Prelude.{◌≡◌};

use cmwq_reads::{is_met, is_spent};
use cmwq_table::Machine;
use cmwq_types::Instr;

/// Whether the machine lets a tick pass in the instruction, which it has yet to carry out.
pub(crate) fn lets_pass<M: Machine>(machine: &M, instr: Instr) -> bool
    ensures { result ≡ lets_pass (M.state machine.now) (table (M.loaded machine.now) (M.state machine.now) instr).0 }
{
    let _scenario = machine.scenario();
    is_clock(machine, instr) && can_pass(machine)
}

/// Whether the instruction may let time pass.
fn is_clock<M: Machine>(machine: &M, instr: Instr) -> bool
    ensures { result ≡ is_clock (M.loaded machine.now) (M.state machine.now) instr }
{
    match instr {
        Instr::Tick | Instr::Next => true,
        Instr::Until(_) | Instr::Wait(_) | Instr::Quiet => !is_met(machine, instr),
        _ => false,
    }
}

/// Whether the steps aren't spent, and nothing can happen without time.
fn can_pass<M: Machine>(machine: &M) -> bool
    ensures { result ≡ can_pass (M.loaded machine.now) (M.state machine.now) }
{
    !is_spent(machine) && machine.is_settled()
}
