//! What is never spent: a question, and what goes on for something that has come.
ghost use Rattle.cmwq_reads.specs.Conditions.{is_at_work};
ghost use Rattle.cmwq_table.specs.Counts.{is_done, is_quiet};
ghost use Rattle.cmwq_table.specs.Table.{is_free, is_met, is_question, target_at};
ghost use Rattle.std.specs.Prelude.{◌≡◌, MatchOption, true};

use crate::flushes::{flush_target, is_done};
use cmwq_table::Reads;
use cmwq_types::Instr;

/// Whether the instruction is never spent, and changes nothing: it is a question, or has what it goes on for.
#[inline(always)]
pub fn is_free<R: Reads>(machine: &R, instr: Instr) -> bool
    ensures { result ≡ is_free (R.loaded machine.now) (R.state machine.now) instr }
{
    is_question(instr) || is_met(machine, instr)
}

/// Whether the instruction is a question, which is never spent and changes nothing.
#[inline(always)]
pub fn is_question(instr: Instr) -> bool
    ensures { result ≡ is_question instr }
{
    matches!(instr, Instr::Ask(_) | Instr::Busy | Instr::State(_))
}

/// Whether what the instruction goes on for has come: the time of an `Until`, that the flush of a `Wait` is done, or that
/// the machine is quiet. Other instructions go on for nothing.
#[inline(always)]
pub fn is_met<R: Reads>(machine: &R, instr: Instr) -> bool
    ensures { result ≡ is_met (R.loaded machine.now) (R.state machine.now) instr }
{
    match instr {
        Instr::Until(time) => machine.time() >= u64::from(time),
        Instr::Wait(flush) => is_flush_done(machine, flush),
        Instr::Quiet => is_quiet(machine),
        _ => false,
    }
}

/// Whether the flush of this number is done. A flush that wasn't given is.
#[cold]
#[inline(never)]
fn is_flush_done<R: Reads>(machine: &R, flush: u16) -> bool
    ensures { result ≡ is_done (R.loaded machine.now) (R.state machine.now) (target_at (R.state machine.now) flush) }
{
    is_done(machine, flush_target(machine, flush as usize))
}

/// Whether no work is pending, and none runs.
#[cold]
#[inline(never)]
pub fn is_quiet<R: Reads>(machine: &R) -> bool
    ensures { result ≡ is_quiet (R.loaded machine.now) (R.state machine.now) }
{
    first_at_work(machine).is_none()
}

/// The first work that is pending or runs, if there is one.
pub fn first_at_work<R: Reads>(machine: &R) -> Option<usize>
    ensures { MatchOption result (is_quiet (R.loaded machine.now) (R.state machine.now) ≡ true)
        (λ w. is_at_work (R.loaded machine.now) (R.state machine.now) w ≡ true) }
{
    for w in 0..machine.scenario().works.len() {
        if is_at_work(machine, w) {
            return Some(w);
        }
    }
    None
}

/// Whether there is such a work, and it is pending or runs.
pub fn is_at_work<R: Reads>(machine: &R, w: usize) -> bool
    ensures { result ≡ is_at_work (R.loaded machine.now) (R.state machine.now) w }
{
    w < machine.scenario().works.len()
        && (machine.pending_of(w).is_some() || machine.running_of(w).is_some())
}
