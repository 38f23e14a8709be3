//! What the actor did, in words.
ghost use Rattle.cmwq_render.specs.Acts.{act_lines, act_words, acts_from, line_begun, line_ended};
ghost use Rattle.std.specs.Prelude.{◌≡◌, ◌++◌, IfOk, OnOk, string_bytes};

use cmwq_instr_words::InstrWords;
use cmwq_picture::Act;
use cmwq_types::{NoMemory, Scenario};
use std::alloc::Global;

/// Writes a line for each tick at which the actor did something.
pub(crate) fn push_acts(
    alloc: Global,
    text: &mut Vec<u8>,
    scenario: &Scenario,
    acts: &[Act],
) -> Result<(), NoMemory>
    ensures { OnOk result (text.new.items ≡ text.old.items ++ act_lines scenario.now acts.now) }
{
    let mut before = None;
    for act in acts {
        push_line_begun(alloc, text, before, act.time)?;
        push_act_words(alloc, text, scenario, *act)?;
        before = Some(act.time);
    }
    push_line_ended(text, before)
}

/// Writes what it did.
fn push_act_words(
    alloc: Global,
    text: &mut Vec<u8>,
    scenario: &Scenario,
    act: Act,
) -> Result<(), NoMemory>
    ensures { OnOk result (text.new.items ≡ text.old.items ++ act_words scenario.now act) }
{
    let words = act_words(alloc, scenario, act)?;
    text.extend_from_slice(words.as_bytes())?;
    Ok(())
}

/// What it did, in the words of the listing. The only error is want of memory.
pub fn act_words(alloc: Global, scenario: &Scenario, act: Act) -> Result<String, NoMemory>
    ensures { IfOk result (λ words. string_bytes words ≡ act_words scenario.now act) }
{
    let words = InstrWords {
        scenario,
        instr: act.instr,
    };
    Ok(words.to_string(alloc)?)
}

/// Writes what stands in front of something at this time: a comma where the one before was at the same, else the time in a new line.
fn push_line_begun(
    alloc: Global,
    text: &mut Vec<u8>,
    before: Option<u64>,
    time: u64,
) -> Result<(), NoMemory>
    ensures { OnOk result (text.new.items ≡ text.old.items ++ line_begun before time) }
{
    let begun = match before {
        Some(before) if before == time => format!(in alloc; ", ")?,
        Some(_) => format!(in alloc; "\n^ at {time}: ")?,
        None => format!(in alloc; "^ at {time}: ")?,
    };
    text.extend_from_slice(begun.as_bytes())?;
    Ok(())
}

/// Ends the last line, if there is one.
fn push_line_ended(text: &mut Vec<u8>, before: Option<u64>) -> Result<(), NoMemory>
    ensures { OnOk result (text.new.items ≡ text.old.items ++ line_ended before) }
{
    if before.is_some() {
        text.push(b'\n')?;
    }
    Ok(())
}
