//! What a flush waits for, as text.
ghost use Rattle.cmwq_flush_waits.specs.FlushText.{flush_lines};
ghost use Rattle.std.specs.Prelude.{◌≡◌, IfOk, MatchOption, None, Some, string_bytes};

use crate::telling_flushes::flush_waits_lines;
use cmwq_table::Reads;
use cmwq_types::NoMemory;
use cmwq_why::waits;
use cmwq_why_text::Wording;
use std::alloc::Global;

/// The lines that tell what the flush of this number waits for in the machine's state, and `None` where no such flush was given: that
/// it is done, or how many instances it waits for and whether anything must come from outside for that, with a line for each that
/// tells its reason; and then a line for each other instance whom a reason above blames. The format is this project's own.
///
/// The only error is want of memory.
pub fn flush_text<R: Reads>(
    alloc: Global,
    machine: &R,
    flush: usize,
) -> Result<Option<String>, NoMemory>
    ensures text { IfOk result (λ text. MatchOption text (flush_lines (R.loaded machine.now) (R.state machine.now) flush ≡ None)
        (λ text. flush_lines (R.loaded machine.now) (R.state machine.now) flush ≡ Some (string_bytes text))) }
{
    let Some(target) = machine.flush_of(flush) else {
        return Ok(None);
    };
    let waits = waits(alloc, machine, target)?;
    let text = flush_waits_lines(&Wording { alloc, machine }, flush, &waits)?;
    Ok(Some(text))
}
