//! What is said besides the answers to a person at a terminal.
ghost use Rattle.cmwq_debug.specs.Debugging.{does, last_of};
ghost use Rattle.cmwq_debug_lines.specs.Prompt.{behind_answer, ending, indented_reply, last_text, line_told, opening, prompt, prompted};
ghost use Rattle.cmwq_debug_lines.specs.Talk.{answer_line};
ghost use Rattle.cmwq_types.specs.declared.limits.TheConstants.{MAX_WORKS};
ghost use Rattle.std.specs.Prelude.{◌≡◌, ◌++◌, ◌≤◌, IfOk, OnOk, Some, length, option_map};

use crate::commands_read::order_of;
use crate::manner::Manner;
use crate::order::Order;
use crate::talk::{obey, refused_text, said_text};
use cmwq_debug::{Command, DebugError, Debugger, Said};
use cmwq_instr_words::InstrWords;
use cmwq_scan::{Tokens, read_tokens};
use cmwq_table::{Machine, ReplyLine, is_silent};
use cmwq_types::{Instr, NoMemory, Reply, Scenario};
use std::alloc::Global;
use std::fmt;

/// Carries out what the command line tells the debugger, and gives what is said to it in this manner, as bytes; `None` where the line
/// ends the session. The names of works are the scenario's.
///
/// `Plain` gives the answer. `Prompted` gives behind the answer to a move what brought the debugger to where it stands: that instruction in the
/// words of the listing, and below it the line that a run prints of it, if it prints one, each behind two blanks; and then the prompt
/// for the next line. Where memory runs out, the line may have been carried out without being answered.
#[tactic(auto, unfolding(crate::specs::Talk::line_said, crate::specs::Prompt::line_told))]
pub fn answer_in<M: Machine>(
    alloc: Global,
    manner: Manner,
    scenario: &Scenario,
    debugger: &mut Debugger<M>,
    line: &[u8],
) -> Result<Option<Vec<u8>>, NoMemory>
    requires { length scenario.now.works ≤ MAX_WORKS }
    ensures debugger { OnOk result (debugger.new ≡ (line_told manner scenario.now debugger.old line.now).0) }
    ensures text { IfOk result (λ said. option_map (λ text. text.items) said ≡ (line_told manner scenario.now debugger.old line.now).1) }
{
    let mut words = Tokens::new(alloc);
    read_tokens(&mut words, line)?;
    let order = order_of(scenario, &words);
    match manner {
        Manner::Plain => obey(alloc, debugger, order),
        Manner::Prompted => obey_prompted(alloc, scenario, debugger, order),
    }
}

/// What is said in this manner before anything is read: the first prompt.
pub fn opening<M: Machine>(
    alloc: Global,
    manner: Manner,
    debugger: &Debugger<M>,
) -> Result<Vec<u8>, NoMemory>
    ensures { IfOk result (λ text. text.items ≡ opening manner debugger.now) }
{
    match manner {
        Manner::Plain => Ok(Vec::new(alloc)),
        Manner::Prompted => prompt_text(alloc, debugger),
    }
}

/// What is said in this manner where the commands end without `quit`: behind the last prompt the end of its line.
pub fn ending(manner: Manner) -> &'static [u8]
    ensures { result.now ≡ ending manner }
{
    match manner {
        Manner::Plain => b"",
        Manner::Prompted => b"\n",
    }
}

/// Carries out an order, and gives what is said to it with a prompt behind it, if the session goes on.
fn obey_prompted<M: Machine>(
    alloc: Global,
    scenario: &Scenario,
    debugger: &mut Debugger<M>,
    order: Order,
) -> Result<Option<Vec<u8>>, NoMemory>
    ensures debugger { OnOk result (debugger.new ≡ (prompted scenario.now debugger.old order).0) }
    ensures text { IfOk result (λ said. option_map (λ text. text.items) said ≡ (prompted scenario.now debugger.old order).1) }
{
    let said = match order {
        Order::Do(command) => Some(answer_fully(alloc, scenario, debugger, command)?),
        _ => obey(alloc, debugger, order)?,
    };
    let Some(mut said) = said else {
        return Ok(None);
    };
    said.extend_from_slice(&prompt_text(alloc, debugger)?)?;
    Ok(Some(said))
}

/// Carries out a command, and gives what is said to it, and behind a move what brought the debugger to where it stands.
fn answer_fully<M: Machine>(
    alloc: Global,
    scenario: &Scenario,
    debugger: &mut Debugger<M>,
    command: Command,
) -> Result<Vec<u8>, NoMemory>
    ensures debugger { OnOk result (debugger.new ≡ (does debugger.old command).0) }
    ensures text { IfOk result (λ text. text.items ≡ answer_line (does debugger.old command).1 ++ behind_answer scenario.now (does debugger.old command)) }
{
    match debugger.command(command) {
        Ok(Said::At { position, now, by }) => {
            let mut text = said_text(alloc, Said::At { position, now, by })?;
            text.extend_from_slice(&last_text(alloc, scenario, debugger, now)?)?;
            Ok(text)
        }
        Ok(said) => said_text(alloc, said),
        Err(DebugError::NoMemory) => Err(NoMemory),
        Err(why) => refused_text(alloc, why),
    }
}

/// What brought the debugger to where it stands, at this time; no text at the start.
fn last_text<M: Machine>(
    alloc: Global,
    scenario: &Scenario,
    debugger: &mut Debugger<M>,
    now: u64,
) -> Result<Vec<u8>, NoMemory>
    ensures same { debugger.new ≡ debugger.old }
    ensures text { IfOk result (λ text. text.items ≡ last_text scenario.now now (last_of debugger.old)) }
{
    let Some((instr, reply)) = debugger.last()? else {
        return Ok(Vec::new(alloc));
    };
    let last = Last {
        scenario,
        now,
        instr,
        reply,
    };
    Ok(format!(in alloc; "{last}")?.into_bytes())
}

/// Where the debugger stands, for a person who is to type a command.
fn prompt_text<M: Machine>(alloc: Global, debugger: &Debugger<M>) -> Result<Vec<u8>, NoMemory>
    ensures { IfOk result (λ text. text.items ≡ prompt debugger.now) }
{
    let (position, now) = (debugger.position(), debugger.now());
    Ok(format!(in alloc; "{position} now {now}> ")?.into_bytes())
}

/// An instruction that was carried out, and below it the line of its reply at the time, if it has one, each behind two blanks.
#[derive(Clone, Copy)]
struct Last<'a> {
    scenario: &'a Scenario,
    now: u64,
    instr: Instr,
    reply: Reply,
}

impl fmt::Display for Last<'_> {
    ghost output = { λ last. Some (last_text last.scenario.now last.now (Some (last.instr, last.reply))) };

    fn fmt<W: fmt::Write>(&self, f: &mut fmt::Formatter<W>) -> fmt::Result {
        let instr = InstrWords {
            scenario: self.scenario,
            instr: self.instr,
        };
        write!(f, "  {instr}\n")?;
        if is_silent(self.reply) {
            return Ok(());
        }
        let line = ReplyLine {
            scenario: self.scenario,
            time: self.now,
            instr: self.instr,
            reply: self.reply,
        };
        write!(f, "  {line}")
    }
}
