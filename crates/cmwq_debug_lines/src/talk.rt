//! What is said to a command line.
ghost use Rattle.cmwq_debug.specs.Debugging.{At, answer_of, does};
ghost use Rattle.cmwq_debug_lines.specs.Talk.{answer_text, error_name, line_said, obeyed, refused_text, answer_line};
ghost use Rattle.cmwq_types.specs.declared.limits.TheConstants.{MAX_WORKS};
ghost use Rattle.std.specs.Prelude.{◌≡◌, ◌≤◌, IfOk, OnOk, length, option_map};

use crate::commands_read::order_of;
use crate::order::Order;
use crate::verb::help_text;
use cmwq_debug::{Command, DebugError, Debugger, Said};
use cmwq_scan::{Tokens, read_tokens};
use cmwq_table::Machine;
use cmwq_types::{NoMemory, Scenario};
use std::alloc::Global;

/// Carries out what the command line tells the debugger, and gives what is said to it, as bytes; `None` where the line ends the
/// session. The names of works are the scenario's.
///
/// Where memory runs out, the line may have been carried out without being answered.
#[tactic(auto, unfolding(crate::specs::Talk::line_said))]
pub fn answer<M: Machine>(
    alloc: Global,
    scenario: &Scenario,
    debugger: &mut Debugger<M>,
    line: &[u8],
) -> Result<Option<Vec<u8>>, NoMemory>
    requires { length scenario.now.works ≤ MAX_WORKS }
    ensures debugger { OnOk result (debugger.new ≡ (line_said scenario.now debugger.old line.now).0) }
    ensures text { IfOk result (λ said. option_map (λ text. text.items) said ≡ (line_said scenario.now debugger.old line.now).1) }
{
    let mut words = Tokens::new(alloc);
    read_tokens(&mut words, line)?;
    obey(alloc, debugger, order_of(scenario, &words))
}

/// Carries out an order, and gives what is said to it, if the session goes on.
pub(crate) fn obey<M: Machine>(
    alloc: Global,
    debugger: &mut Debugger<M>,
    order: Order,
) -> Result<Option<Vec<u8>>, NoMemory>
    ensures debugger { OnOk result (debugger.new ≡ (obeyed debugger.old order).0) }
    ensures text { IfOk result (λ said. option_map (λ text. text.items) said ≡ (obeyed debugger.old order).1) }
{
    let said = match order {
        Order::Nothing => Vec::new(alloc),
        Order::Bad => format!(in alloc; "bad command\n")?.into_bytes(),
        Order::NoWork => refused_text(alloc, DebugError::NoSuchWork)?,
        Order::Help => help_text(alloc)?.into_bytes(),
        Order::Quit => return Ok(None),
        Order::Do(command) => answer_command(alloc, debugger, command)?,
    };
    Ok(Some(said))
}

/// Carries out a command, and gives what is said to it.
fn answer_command<M: Machine>(
    alloc: Global,
    debugger: &mut Debugger<M>,
    command: Command,
) -> Result<Vec<u8>, NoMemory>
    ensures debugger { OnOk result (debugger.new ≡ (does debugger.old command).0) }
    ensures text { IfOk result (λ text. text.items ≡ answer_line (does debugger.old command).1) }
{
    match debugger.command(command) {
        Ok(said) => said_text(alloc, said),
        Err(DebugError::NoMemory) => Err(NoMemory),
        Err(why) => refused_text(alloc, why),
    }
}

pub(crate) fn said_text(alloc: Global, said: Said) -> Result<Vec<u8>, NoMemory>
    ensures { IfOk result (λ text. text.items ≡ answer_text (answer_of said)) }
{
    match said {
        Said::At { position, now, by } => at_text(alloc, position, now, by),
        Said::Broke(number) => Ok(format!(in alloc; "break {number}\n")?.into_bytes()),
        Said::Cleared(number) => Ok(format!(in alloc; "cleared {number}\n")?.into_bytes()),
        Said::Text(text) => Ok(text),
    }
}

fn at_text(alloc: Global, position: u32, now: u64, by: Option<u8>) -> Result<Vec<u8>, NoMemory>
    ensures { IfOk result (λ text. text.items ≡ answer_text (At position now by)) }
{
    let text = match by {
        Some(number) => format!(in alloc; "at {position} now {now} break {number}\n")?,
        None => format!(in alloc; "at {position} now {now}\n")?,
    };
    Ok(text.into_bytes())
}

pub(crate) fn refused_text(alloc: Global, why: DebugError) -> Result<Vec<u8>, NoMemory>
    ensures { IfOk result (λ text. text.items ≡ refused_text why) }
{
    let name = error_name(why);
    Ok(format!(in alloc; "refused {name}\n")?.into_bytes())
}

fn error_name(why: DebugError) -> &'static str
    ensures { result.now ≡ error_name why }
{
    match why {
        DebugError::NoSuchWork => "NoSuchWork",
        DebugError::NoSuchPool => "NoSuchPool",
        DebugError::NoSuchFlush => "NoSuchFlush",
        DebugError::NoSuchBreak => "NoSuchBreak",
        DebugError::PastEnd => "PastEnd",
        DebugError::PastStart => "PastStart",
        DebugError::TooManyBreaks => "TooManyBreaks",
        DebugError::NoMemory => "NoMemory",
    }
}
