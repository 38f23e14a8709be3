//! One line.
ghost use Rattle.cmwq_advice.specs.Lines.{line};
ghost use Rattle.std.specs.List.{flat_map};
ghost use Rattle.std.specs.Prelude.{◌≡◌, IfOk};

use cmwq_types::NoMemory;
use std::alloc::Global;

/// The line that has these texts one behind the other, behind two blanks. It fails only for want of memory.
pub(crate) fn line_of(alloc: Global, texts: &[&str]) -> Result<Vec<u8>, NoMemory>
    ensures { IfOk result (λ made. made.items ≡ line (flat_map (λ text. text.now) texts.now)) }
{
    let mut line = String::from_str(alloc, "  ")?;
    for text in texts {
        line.push_str(text)?;
    }
    line.push_str("\n")?;
    Ok(line.into_bytes())
}
