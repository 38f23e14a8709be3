//! Which instructions of a run are refused.
ghost use Rattle.cmwq_remarks.specs.Remarks.{first_or, first_refusal, is_spent, refusal_count, spent_count};
ghost use Rattle.cmwq_table.specs.Events.{is_refusal};
ghost use Rattle.cmwq_table.specs.Table.{after_all, replies_from};
ghost use Rattle.cmwq_types.specs.Scenario.{expand_lines};
ghost use Rattle.cmwq_types.specs.declared.limits.TheConstants.{MAX_HISTORY};
ghost use Rattle.std.specs.Prelude.{◌≡◌, ◌≤◌, Some, length};

use cmwq_runs::Instructions;
use cmwq_table::Machine;
use cmwq_types::{Line, Refusal, Reply};

/// The refused instructions of a run.
#[derive(Clone, Copy)]
pub struct Refusals {
    /// How many there are.
    pub count: u32,
    /// How many of these are refused because the steps are spent.
    pub spent: u32,
    /// The place of the first one among all instructions, from 0.
    pub first: Option<u32>,
}

/// Issues the lines' instructions on the machine, and gives those that are refused.
pub fn issue_lines<M: Machine>(machine: &mut M, lines: &[Line]) -> Refusals
    requires { length (expand_lines lines.now) ≤ MAX_HISTORY }
    ensures count { result.count ≡ refusal_count (replies_from (M.loaded machine.old) (M.state machine.old) (expand_lines lines.now)) }
    ensures spent { result.spent ≡ spent_count (replies_from (M.loaded machine.old) (M.state machine.old) (expand_lines lines.now)) }
    ensures first { result.first ≡ first_refusal 0 (replies_from (M.loaded machine.old) (M.state machine.old) (expand_lines lines.now)) }
    ensures loaded { M.loaded machine.new ≡ M.loaded machine.old }
    ensures state { M.state machine.new ≡ after_all (M.loaded machine.old) (M.state machine.old) (expand_lines lines.now) }
{
    let mut count = 0;
    let mut spent = 0;
    let mut first = None;
    let mut place = 0;
    for instr in Instructions::of(lines) {
        let reply = machine.exec(instr);
        if is_refusal(reply) {
            count += 1;
            first = first_of(first, place);
        }
        if is_spent(reply) {
            spent += 1;
        }
        place += 1;
    }
    Refusals {
        count,
        spent,
        first,
    }
}

/// Whether the reply is a refusal.
fn is_refusal(reply: Reply) -> bool
    ensures { result ≡ is_refusal reply }
{
    matches!(reply, Reply::Refused(_))
}

/// Returns whether the reply is a refusal because the steps are spent.
fn is_spent(reply: Reply) -> bool
    ensures { result ≡ is_spent reply }
{
    matches!(reply, Reply::Refused(Refusal::Spent))
}

/// The first place, or this one where there was none.
fn first_of(first: Option<u32>, place: u32) -> Option<u32>
    ensures { result ≡ first_or first (Some place) }
{
    match first {
        Some(first) => Some(first),
        None => Some(place),
    }
}
