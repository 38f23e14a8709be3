//! How many works are pending at the end of a run.
ghost use Rattle.cmwq_reasons.specs.Laws.{is_move};
ghost use Rattle.cmwq_remarks.specs.Remarks.{left_count, lets_move, pending_count, pends};
ghost use Rattle.cmwq_table.specs.Counts.{pends_or_runs};
ghost use Rattle.cmwq_types.specs.First.{count_below};
ghost use Rattle.std.specs.Prelude.{◌≡◌, ◌≤◌, length};

use cmwq_table::Reads;
use cmwq_types::{Instr, Line};

/// How many works are pending.
pub(crate) fn pending_count<R: Reads>(machine: &R) -> usize
    ensures { result ≡ pending_count (R.loaded machine.now) (R.state machine.now) }
{
    let mut count = 0;
    for w in 0..machine.scenario().works.len() {
        if machine.pending_of(w).is_some() {
            count += 1;
        }
    }
    count
}

/// Returns how many works are pending or run.
pub(crate) fn left_count<R: Reads>(machine: &R) -> usize
    ensures { result ≡ left_count (R.loaded machine.now) (R.state machine.now) }
{
    let mut count = 0;
    for w in 0..machine.scenario().works.len() {
        if is_left(machine, w) {
            count += 1;
        }
    }
    count
}

/// Returns whether the work is pending or runs.
fn is_left<R: Reads>(machine: &R, w: usize) -> bool
    ensures { result ≡ pends_or_runs (R.state machine.now) w }
{
    machine.pending_of(w).is_some() || machine.running_of(w).is_some()
}

/// Whether a line lets the machine move, or lets time pass.
pub(crate) fn lets_move(lines: &[Line]) -> bool
    ensures { result ≡ lets_move lines.now }
{
    lines.iter().any(|line| is_move(line.instr))
}

/// Whether the instruction is a move of the machine, or lets time pass.
fn is_move(instr: Instr) -> bool
    ensures { result ≡ is_move instr }
{
    matches!(
        instr,
        Instr::Step(_)
            | Instr::Fire
            | Instr::Tick
            | Instr::Next
            | Instr::Until(_)
            | Instr::Wait(_)
            | Instr::Quiet
    )
}
