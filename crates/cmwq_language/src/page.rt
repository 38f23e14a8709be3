//! The page, put together.
ghost use Rattle.cmwq_language.specs.Page.{flag_line, instruction_line, language_page};
ghost use Rattle.std.specs.List.{flat_map};
ghost use Rattle.std.specs.Prelude.{◌≡◌, ◌++◌, IfOk, OnOk, string_bytes};

use crate::limits::{IN_BODIES, IN_LINES, push_limits};
use crate::meanings::{FLAGS, QueueFlag, meaning, operand_names};
use cmwq_types::{Mnemonic, NoMemory, shape_of};
use std::alloc::Global;

/// Comes before the lines.
const TEXTS: &str = "\
A scenario's text has lines of words, with blanks between the words. From # on a
line is a comment. A name has 1 to 15 of a to z, 0 to 9 and _, first a letter.

The lines, in this order:
";

/// Comes between the lines and the flags.
const FLAGS_FOLLOW: &str = "\n\nFlags of a queue, in any order:\n";

/// Comes between the flags and the operations.
const OPERATIONS_FOLLOW: &str = "\nOperations of a body:\n";

/// Comes between the operations and the instructions.
const INSTRUCTIONS_FOLLOW: &str = ":\n";

/// Comes after the instructions.
const AT_THE_END: &str = "
After cancel_sync a work item can queue itself again. A kernel's
cancel_work_sync prevents that, and so do disable WORK, flush WORK and enable
WORK together. docs/FORMATS.md has every word, and scenarios/ has examples.
";

/// What a scenario's text may say, on one page: its lines in their order with their limits, the flags of queues, the operations of bodies,
/// and each instruction, from the reader's own table of words. It fails only for want of memory.
pub fn language_page(alloc: Global) -> Result<Vec<u8>, NoMemory>
    ensures { IfOk result (λ page. page.items ≡ language_page) }
{
    let mut page = String::from_str(alloc, TEXTS)?;
    push_limits(&mut page, &IN_LINES)?;
    page.push_str(FLAGS_FOLLOW)?;
    push_flags(&mut page, &FLAGS)?;
    page.push_str(OPERATIONS_FOLLOW)?;
    push_limits(&mut page, &IN_BODIES)?;
    page.push_str(INSTRUCTIONS_FOLLOW)?;
    push_instructions(&mut page, Mnemonic::all())?;
    page.push_str(AT_THE_END)?;
    Ok(page.into_bytes())
}

/// Appends a line for each flag.
fn push_flags(page: &mut String, flags: &[QueueFlag]) -> Result<(), NoMemory>
    ensures { OnOk result (string_bytes page.new ≡ string_bytes page.old ++ flat_map flag_line flags.now) }
{
    for flag in flags {
        push_flag(page, *flag)?;
    }
    Ok(())
}

/// Appends the flag's line.
fn push_flag(page: &mut String, flag: QueueFlag) -> Result<(), NoMemory>
    ensures { OnOk result (string_bytes page.new ≡ string_bytes page.old ++ flag_line flag) }
{
    page.push_str("  ")?;
    page.push_str(flag.as_str())?;
    page.push_str(flag.meaning())?;
    Ok(())
}

/// Appends a line for each instruction.
fn push_instructions(page: &mut String, words: &[Mnemonic]) -> Result<(), NoMemory>
    ensures { OnOk result (string_bytes page.new ≡ string_bytes page.old ++ flat_map instruction_line words.now) }
{
    for word in words {
        push_instruction(page, *word)?;
    }
    Ok(())
}

/// Appends the instruction's line.
fn push_instruction(page: &mut String, word: Mnemonic) -> Result<(), NoMemory>
    ensures { OnOk result (string_bytes page.new ≡ string_bytes page.old ++ instruction_line word) }
{
    page.push_str("  ")?;
    page.push_str(word.as_str())?;
    page.push_str(operand_names(shape_of(word)))?;
    page.push_str(meaning(word))?;
    Ok(())
}
