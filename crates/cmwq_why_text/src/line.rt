//! Why a work isn't further, as a line.
ghost use Rattle.cmwq_why_text.specs.WhyText.{why_line};
ghost use Rattle.std.specs.Prelude.{◌≡◌, IfOk, string_bytes};

use crate::wording::Wording;
use cmwq_table::Reads;
use cmwq_types::{NoMemory, WorkId};
use std::alloc::Global;

/// A line that tells why the work isn't further in the machine's state: its name, the reason of what runs of it, then that of what
/// pends of it, and last whether the scenario's steps are spent. The format is this project's own.
///
/// The only error is want of memory.
pub fn work_text<R: Reads>(alloc: Global, machine: &R, work: WorkId) -> Result<String, NoMemory>
    ensures text { IfOk result (λ text. string_bytes text ≡ why_line (R.loaded machine.now) (R.state machine.now) work.0) }
{
    let wording = Wording { alloc, machine };
    let mut text = String::from_str(alloc, wording.name(work.0))?;
    text.push_str(" ")?;
    wording.push_why(&mut text, work)?;
    text.push_str("\n")?;
    Ok(text)
}
