//! What running instructions prints, as comments.
ghost use Rattle.cmwq_grammar.specs.Comments.{comments};
ghost use Rattle.cmwq_interleaving.specs.Commenting.{Comments, after_hash};
ghost use Rattle.cmwq_table.specs.Events.{events, events_from, reply_line};
ghost use Rattle.cmwq_types.specs.Faults.{IsValid};
ghost use Rattle.cmwq_types.specs.Values.{IsWorkDecl};
ghost use Rattle.std.specs.List.{AllByRecursion};
ghost use Rattle.std.specs.Prelude.{◌≡◌, ◌≤◌, ◌+◌, ◌*◌, ◌++◌, IfOk, OnOk, length};
ghost use Rattle.std.specs.Str.{IsAscii, IsUtf8};

use cmwq_annotated::fit;
use cmwq_lines::{Block, ReplyLines};
use cmwq_table::{Machine, is_silent};
use cmwq_types::{Instr, NoMemory, Reply, Scenario};
use std::alloc::Global;
use std::fmt::Write;
use std::sync::Arc;

/// The lines that running these instructions on the scenario prints, each after `# `.
pub(crate) fn comments<M: Machine>(
    alloc: Global,
    scenario: Scenario,
    instrs: &[Instr],
) -> Result<Block, NoMemory>
    requires valid { IsValid scenario }
    requires works { AllByRecursion IsWorkDecl scenario.works }
    ensures text { IfOk result (λ text. text ≡ comments (events scenario instrs.now)) }
    ensures utf8 { IfOk result (λ text. IsUtf8 text) }
    ensures short { IfOk result (λ text. length text ≤ 256 * length instrs.now) }
{
    let scenario = Arc::new(alloc, scenario)?;
    let machine: M = M::begin(alloc, Arc::clone(&scenario)?)?;
    comments_of(alloc, &scenario, machine, instrs)
}

/// The lines that these instructions print on the machine, each after `# `.
fn comments_of<M: Machine>(
    alloc: Global,
    scenario: &Scenario,
    machine: M,
    instrs: &[Instr],
) -> Result<Block, NoMemory>
    requires loaded { M.loaded machine ≡ scenario.now }
    requires works { AllByRecursion IsWorkDecl scenario.now.works }
    ensures text { IfOk result (λ text. text ≡ comments (events_from scenario.now (M.state machine) instrs.now)) }
    ensures utf8 { IfOk result (λ text. IsUtf8 text) }
    ensures short { IfOk result (λ text. length text ≤ 256 * length instrs.now) }
{
    let mut machine = machine;
    let mut lines = ReplyLines::new(alloc, scenario)?;
    let mut text = Block::new(alloc);
    for instr in instrs {
        let reply = machine.exec(*instr);
        push_comment(&mut lines, &mut text, machine.now(), *instr, &reply)?;
    }
    Ok(text)
}

/// Writes the line of the reply after `# `, if it has one: what follows it begins a line of its own.
fn push_comment(
    lines: &mut ReplyLines<'_>,
    text: &mut Block,
    time: u64,
    instr: Instr,
    reply: &Reply,
) -> Result<(), NoMemory>
    requires works { AllByRecursion IsWorkDecl lines.old.works }
    ensures lines { lines.new ≡ lines.old }
    ensures text { OnOk result (Comments text.old text.new (reply_line lines.old time instr reply.now)) }
    ensures ascii { OnOk result (IsAscii text.old → IsAscii text.new) }
    ensures short { OnOk result (length text.new ≤ length text.old + 256) }
{
    fit(*reply);
    push_after_hash(lines, text, time, instr, reply)
}

/// Writes the line of the reply after `# `, if it has one.
fn push_after_hash(
    lines: &mut ReplyLines<'_>,
    text: &mut Block,
    time: u64,
    instr: Instr,
    reply: &Reply,
) -> Result<(), NoMemory>
    ensures lines { lines.new ≡ lines.old }
    ensures text { OnOk result (text.new ≡ text.old ++ after_hash lines.old time instr reply.now) }
{
    if is_silent(*reply) {
        return Ok(());
    }
    text.write_str("# ").map_err(|_| NoMemory)?;
    lines.push(text, time, instr, reply)
}
