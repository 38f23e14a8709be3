//! Assembling: the scenario that a text spells, or its first fault.
ghost use Rattle.cmwq_asm.specs.Texts.{AsmErrorIs, Assembles, GivesStage};
ghost use Rattle.cmwq_grammar.specs.Cutting.{lines_of};
ghost use Rattle.cmwq_grammar.specs.FaultLaw.{IsFault};
ghost use Rattle.cmwq_grammar.specs.Grammar.{Spells};
ghost use Rattle.cmwq_grammar.specs.Meaning.{FaultAt, fault_at, reads, stage_after};
ghost use Rattle.cmwq_grammar.specs.Stages as stage;
ghost use Rattle.cmwq_grammar.specs.declared.why.Why.{Why};
ghost use Rattle.cmwq_types.specs.Contents.{ScenarioContents};
ghost use Rattle.cmwq_types.specs.Faults.{IsValid};
ghost use Rattle.std.specs.Prelude.{◌≡◌, ◌≤◌, ◌⊎◌, ℕ, IfOk, MatchResult, length};

use crate::fault::{AsmError, LineError};
use crate::line_steps::judge_line;
use crate::stage::Stage;
use cmwq_grammar::Why;
use cmwq_grammar::laws::{
    read_text_spells_its_scenario, reading_fails_at_the_first_fault,
    spelled_text_reads_as_its_scenario,
};
use cmwq_list::list;
use cmwq_scan::{is_text, next_line};
use cmwq_types::{MAX_TEXT, Scenario};
use std::alloc::Global;

/// The scenario that the text spells.
///
/// Any other text has a first fault, and gives that: the first line such that no scenario's text begins with the
/// lines up to it, or the end of a text that may not end there. Lines are counted from 1; a text of more than
/// 4,194,304 bytes is `TooLong` at line 0, whatever is in it. `NoMemory` says nothing of the text. The rules of
/// texts are this project's own.
pub fn assemble(alloc: Global, text: &[u8]) -> Result<Scenario, AsmError>
    // What is assembled is spelled so.
    ensures found { IfOk result (λ s. Spells text.now s) }
    // What is spelled so is assembled, unless memory runs out.
    ensures only { (S : ScenarioContents) → Spells text.now S → MatchResult result (λ s. s ≡ S) (λ e. e ≡ AsmError.NoMemory) }
    // A fault that is told is the text's first.
    ensures told { (line : ℕ) (why : Why) → result ≡ Err (AsmError.At line why) → IsFault text.now (fault_at line why) }
    // The text's first fault is told, unless memory runs out.
    ensures fault { (fault : FaultAt) → IsFault text.now fault
        → MatchResult result (λ s. ⊥) (λ e. (e ≡ AsmError.At fault.line fault.why) ⊎ (e ≡ AsmError.NoMemory)) }
{
    read_text_spells_its_scenario();
    spelled_text_reads_as_its_scenario();
    reading_fails_at_the_first_fault();
    scenario_of_text(alloc, text)
}

/// Lists the valid scenario and assembles the listing: the scenario comes back. This stands on what `list` and
/// `assemble` say and on nothing else of them.
pub fn assemble_again(alloc: Global, scenario: &Scenario) -> Result<Scenario, AsmError>
    requires { IsValid scenario.now }
    // It comes back, unless memory runs out.
    ensures { MatchResult result (λ s. s ≡ scenario.now) (λ e. e ≡ AsmError.NoMemory) }
{
    let text = list(alloc, scenario)?;
    assemble(alloc, &text)
}

/// What reading the text gives.
#[tactic(auto, unfolding(cmwq_grammar::specs::Meaning::reads, cmwq_grammar::specs::Meaning::reads_lines))]
fn scenario_of_text(alloc: Global, text: &[u8]) -> Result<Scenario, AsmError>
    ensures { Assembles result (reads text.now) }
{
    if text.len() > MAX_TEXT {
        return Err(AsmError::At {
            line: 0,
            why: Why::TooLong,
        });
    }
    let (stage, lines) = read_lines(alloc, text)?;
    match stage.at_end() {
        Ok(scenario) => Ok(scenario),
        Err(error) => Err(at_line(lines + 1, error)),
    }
}

/// The stage after all lines of the text, and how many there are.
pub(crate) fn read_lines<'t>(alloc: Global, text: &'t [u8]) -> Result<(Stage<'t>, u32), AsmError>
    requires { length text.now ≤ MAX_TEXT }
    ensures stage { GivesStage result (stage_after 1 (lines_of text.now) stage.Start) }
    ensures count { IfOk result (λ read. read.1 ≡ length (lines_of text.now)) }
    ensures few { IfOk result (λ read. read.1 ≤ MAX_TEXT) }
{
    let is_all_text = is_text(text);
    let mut stage = Stage::Start;
    let mut lines = 0;
    let mut rest = text;
    while let Some((line, behind)) = next_line(rest) {
        lines += 1;
        let next = match judge_line(alloc, stage, line, is_all_text) {
            Ok(next) => next,
            Err(error) => return Err(at_line(lines, error)),
        };
        let (reached, left, more) = next.read_on(behind, is_all_text)?;
        stage = reached;
        rest = left;
        lines += more;
    }
    Ok((stage, lines))
}

/// The fault of this line.
fn at_line(line: u32, error: LineError) -> AsmError
    ensures { AsmErrorIs result line error }
{
    match error {
        LineError::Why(why) => AsmError::At { line, why },
        LineError::NoMemory => AsmError::NoMemory,
    }
}
