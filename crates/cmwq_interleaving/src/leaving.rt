//! The text that a play leaves.
ghost use Rattle.cmwq_grammar.specs.Grammar.{Spells};
ghost use Rattle.cmwq_interleaving.specs.Played.{played, played_text, player};
ghost use Rattle.cmwq_types.specs.Faults.{IsValid, names_declared};
ghost use Rattle.cmwq_types.specs.Scenario.{expand};
ghost use Rattle.cmwq_types.specs.declared.limits.TheConstants.{MAX_LINES};
ghost use Rattle.std.specs.Prelude.{◌≡◌, ◌≤◌, All, IfOk, IsTrue, length};

use crate::commenting::comments;
use cmwq_annotated::acted;
use cmwq_core::Core;
use cmwq_grammar::laws::comments_may_follow_a_listing;
use cmwq_list::list;
use cmwq_types::{Instr, Name, NoMemory, Scenario};
use std::alloc::Global;

/// The listing of the same scenario with one actor, `played`, who gives these instructions, a line each; and behind it the
/// lines that running it prints, each after `# `. So the whole is a text of that scenario, and says what running it prints.
///
/// The instructions are at most 4,096, and name works and queues of the scenario, which is valid. It fails only for want of
/// memory.
pub fn played_text(
    alloc: Global,
    scenario: &Scenario,
    instrs: &[Instr],
) -> Result<Vec<u8>, NoMemory>
    requires valid { IsValid scenario.now }
    requires declared { All (λ instr. IsTrue (names_declared scenario.now instr)) instrs.now }
    requires few { length instrs.now ≤ MAX_LINES }
    ensures text { IfOk result (λ text. text.items ≡ played_text scenario.now instrs.now) }
    ensures spells { IfOk result (λ text. Spells text.items (played scenario.now instrs.now)) }
    ensures instrs { expand (player instrs.now) ≡ instrs.now }
{
    comments_may_follow_a_listing();
    let Some(name) = Name::read(b"played") else {
        unreachable!()
    };
    let played = acted(alloc, scenario, name, instrs)?;
    let mut text = list(alloc, &played)?;
    let comments = comments::<Core>(alloc, played, instrs)?;
    text.extend_from_slice(comments.as_bytes())?;
    Ok(text)
}
