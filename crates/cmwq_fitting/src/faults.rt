//! The first fault of a text.
ghost use Rattle.cmwq_fitting.specs.Fitting.{text_fault};
ghost use Rattle.cmwq_grammar.specs.Meaning.{fault_at};
ghost use Rattle.std.specs.Prelude.{◌≡◌, IfOk, option_map};

use cmwq_asm::{AsmError, assemble};
use cmwq_grammar::Why;
use cmwq_grammar::laws::{reading_fails_at_the_first_fault, spelled_text_reads_as_its_scenario};
use cmwq_types::NoMemory;
use std::alloc::Global;

/// The fault of a text: its line, counted from 1, and why it is one.
#[derive(Clone, Copy)]
pub struct TextFault {
    pub line: u32,
    pub why: Why,
}

/// The text's first fault, if it has one. It fails only for want of memory.
pub fn text_fault(alloc: Global, text: &[u8]) -> Result<Option<TextFault>, NoMemory>
    ensures { IfOk result (λ fault. option_map (λ fault. fault_at fault.line fault.why) fault ≡ text_fault text.now) }
{
    reading_fails_at_the_first_fault();
    spelled_text_reads_as_its_scenario();
    let fault = match assemble(alloc, text) {
        Ok(_) => return Ok(None),
        Err(AsmError::NoMemory) => return Err(NoMemory),
        Err(AsmError::At { line, why }) => TextFault { line, why },
    };
    Ok(Some(fault))
}
