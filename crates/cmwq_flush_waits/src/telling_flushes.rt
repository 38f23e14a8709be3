//! The lines of what a flush waits for.
ghost use Rattle.cmwq_reasons.specs.Reasons.{lacks_memory, lacks_thaw};
ghost use Rattle.cmwq_flush_waits.specs.FlushText.{head_text, waiter_line, lines, flush_waits_lines, needs_of, waiting_text, waits_text};
ghost use Rattle.std.specs.List.{list_any};
ghost use Rattle.std.specs.Prelude.{◌≡◌, ◌++◌, IfOk, OnOk, codes, drop, string_bytes};

use crate::needs::Needs;
use crate::reaching::{reached, work_of};
use cmwq_reads::is_spent;
use cmwq_reasons::Instance;
use cmwq_table::Reads;
use cmwq_types::NoMemory;
use cmwq_why::{lacks_memory, lacks_thaw, reason_of};
use cmwq_why_text::{Wording, push_number};

/// What is written of a flush of this number that waits for these instances.
pub(crate) fn flush_waits_lines<R: Reads>(
    wording: &Wording<'_, R>,
    flush: usize,
    waits: &[Instance],
) -> Result<String, NoMemory>
    ensures { IfOk result (λ text. string_bytes text ≡ flush_waits_lines (R.loaded wording.now.machine.now) (R.state wording.now.machine.now) flush waits.now) }
{
    let mut text = String::new(wording.alloc);
    push_number(&mut text, "flush ", flush as u64)?;
    push_waits(wording, &mut text, waits)?;
    Ok(text)
}

/// Appends what is told of a flush that waits for these instances: that it is done, or their lines and those of all others
/// that these wait for.
fn push_waits<R: Reads>(
    wording: &Wording<'_, R>,
    text: &mut String,
    waits: &[Instance],
) -> Result<(), NoMemory>
    ensures { OnOk result (string_bytes text.new ≡ string_bytes text.old ++ waits_text (R.loaded wording.now.machine.now) (R.state wording.now.machine.now) waits.now) }
{
    if waits.is_empty() {
        text.push_str(" done\n")?;
        return Ok(());
    }
    let all = reached(wording.alloc, wording.machine, waits)?;
    push_count(wording.machine, text, waits)?;
    push_waiters(wording, text, "  ", waits)?;
    push_waiters(wording, text, "    ", others(&all, waits.len()))
}

/// Appends how many instances a flush waits for, and what has to come from outside.
fn push_count<R: Reads>(machine: &R, text: &mut String, waits: &[Instance]) -> Result<(), NoMemory>
    ensures { OnOk result (string_bytes text.new ≡ string_bytes text.old ++ head_text (R.loaded machine.now) (R.state machine.now) waits.now) }
{
    push_number(text, " waits for ", waits.len() as u64)?;
    needs(machine, waits).push(text)?;
    text.push_str("\n")?;
    Ok(())
}

/// What has to come from outside before a flush that waits for these instances is done.
fn needs<R: Reads>(machine: &R, waits: &[Instance]) -> Needs
    ensures { result ≡ needs_of (R.loaded machine.now) (R.state machine.now) waits.now }
{
    Needs {
        thaw: lack_thaw(machine, waits),
        memory: lack_memory(machine, waits),
        steps: is_spent(machine),
    }
}

/// Whether one of the instances waits for a thaw.
fn lack_thaw<R: Reads>(machine: &R, waits: &[Instance]) -> bool
    ensures { result ≡ list_any (lacks_thaw (R.loaded machine.now) (R.state machine.now)) waits.now }
{
    waits.iter().any(|x| lacks_thaw(machine, *x))
}

/// Whether one of the instances waits for the end of the shortage of memory.
fn lack_memory<R: Reads>(machine: &R, waits: &[Instance]) -> bool
    ensures { result ≡ list_any (lacks_memory (R.loaded machine.now) (R.state machine.now)) waits.now }
{
    waits.iter().any(|x| lacks_memory(machine, *x))
}

/// Appends a line for each instance.
fn push_waiters<R: Reads>(
    wording: &Wording<'_, R>,
    text: &mut String,
    indent: &str,
    instances: &[Instance],
) -> Result<(), NoMemory>
    ensures { OnOk result (string_bytes text.new ≡ string_bytes text.old ++ lines (R.loaded wording.now.machine.now) (R.state wording.now.machine.now) indent.now instances.now) }
{
    for instance in instances {
        push_waiter(wording, text, indent, *instance)?;
    }
    Ok(())
}

/// Appends the line of the instance, if there is such a one.
fn push_waiter<R: Reads>(
    wording: &Wording<'_, R>,
    text: &mut String,
    indent: &str,
    instance: Instance,
) -> Result<(), NoMemory>
    ensures { OnOk result (string_bytes text.new ≡ string_bytes text.old ++ waiter_line (R.loaded wording.now.machine.now) (R.state wording.now.machine.now) indent.now instance) }
{
    let work = work_of(instance);
    let Some(reason) = reason_of(wording.machine, instance) else {
        return Ok(());
    };
    text.push_str(indent)?;
    text.push_str(wording.name(work.0))?;
    text.push_str(" ")?;
    wording.push_reason(text, work, reason)?;
    text.push_str("\n")?;
    Ok(())
}

/// Those behind the first ones.
fn others(all: &[Instance], count: usize) -> &[Instance]
    ensures { result.now ≡ drop count all.now }
{
    all.get(count..).unwrap_or(&[])
}
