//! `debug`: from command lines to what the debugger says to them.
ghost use Rattle.cmwq_debug_lines.specs.Prompt.{line_told, lines_said, opening, text_said};
ghost use Rattle.cmwq_grammar.specs.Cutting.{lines_of};
ghost use Rattle.cmwq_streams.specs.Sending.{HasSentFront, IsSendError};
ghost use Rattle.cmwq_play.specs.Commands.{Reads};
ghost use Rattle.cmwq_debug_session.specs.Told.{HasNoLine, Holds, HoldsOn, IsFrontTold, IsTalkError, IsTalked, IsDebugged, Talks, Told, ToldFront, ToldToItsEnd};
ghost use Rattle.cmwq_play.specs.Runs.{CanRun, IsRefused, IsRunOf};
ghost use Rattle.cmwq_debug.specs.Debugging.{opened};
ghost use Rattle.cmwq_types.specs.Faults.{IsValid};
ghost use Rattle.cmwq_types.specs.Scenario.{expand};
ghost use Rattle.cmwq_types.specs.declared.limits.TheConstants.{MAX_TEXT, MAX_WORKS};
ghost use Rattle.std.specs.Io.KnownBytes.{Appends, Consumes, IsAtEnd, Keeps};
ghost use Rattle.std.specs.Prelude.{◌≡◌, ◌<◌, ◌≤◌, ◌+◌, ◌↔◌, ◌⊎◌, Err, IfErr, IfNone, IfOk, IfSome, List, Ok, OnErr, OnOk, drop, false, is_some, length, take, true, ℕ};

use cmwq_core::Core;
use cmwq_debug::Debugger;
use cmwq_debug_lines::{Manner, answer_in, ending, line_length, opening};
use cmwq_play::{empty_chunk, judge, read_some};
use cmwq_runs::expanded;
use cmwq_streams::{PlayError, Sink, Source, put_all};
use cmwq_table::Machine;
use cmwq_types::{Actor, MAX_TEXT, NoMemory, Scenario};
use std::alloc::Global;
use std::sync::Arc;

/// Carries out one command line, and writes what is said to it. It answers whether the session goes on.
fn answer_line<M: Machine, W: Sink>(
    alloc: Global,
    manner: Manner,
    scenario: &Scenario,
    debugger: &mut Debugger<M>,
    line: &[u8],
    writer: &mut W,
) -> Result<bool, PlayError>
    requires works { length scenario.now.works ≤ MAX_WORKS }
    requires sound { W.failed writer.old ≡ false }
    ensures debugger { OnOk result (debugger.new ≡ (line_told manner scenario.now debugger.old line.now).0) }
    ensures goes_on { IfOk result (λ goes_on. goes_on ≡ is_some (line_told manner scenario.now debugger.old line.now).1) }
    ensures ok { OnOk result (Appends (W.contents writer.old) (W.contents writer.new) (text_said (line_told manner scenario.now debugger.old line.now).1)) }
    ensures err { OnErr result (HasSentFront (W.contents writer.old) (W.contents writer.new) (text_said (line_told manner scenario.now debugger.old line.now).1)) }
    ensures why { IfErr result (λ error. IsSendError error) }
    ensures write { (result ≡ Err PlayError.Write) ↔ (W.failed writer.new ≡ true) }
{
    let Some(said) = answer_in(alloc, manner, scenario, debugger, line)? else {
        return Ok(false);
    };
    put_all(writer, &said)?;
    Ok(true)
}

/// Answers each whole line of the text, and says how many bytes these take; `None` where one of them ended the session, and what
/// stands behind it isn't answered. What a line says has gone out before the next one is carried out.
fn answer_lines<M: Machine, W: Sink>(
    alloc: Global,
    manner: Manner,
    scenario: &Scenario,
    debugger: &mut Debugger<M>,
    text: &[u8],
    writer: &mut W,
) -> Result<Option<usize>, PlayError>
    requires works { length scenario.now.works ≤ MAX_WORKS }
    requires sound { W.failed writer.old ≡ false }
    ensures told { IfOk result (λ answered. IfSome answered (λ taken. Told (W.contents writer.old) (W.contents writer.new) manner scenario.now debugger.old (take taken text.now) debugger.new)) }
    ensures within { IfOk result (λ answered. IfSome answered (λ taken. taken ≤ length text.now)) }
    ensures begun { IfOk result (λ answered. IfSome answered (λ taken. HasNoLine (drop taken text.now))) }
    ensures ended { IfOk result (λ answered. IfNone answered (ToldToItsEnd (W.contents writer.old) (W.contents writer.new) manner scenario.now debugger.old text.now)) }
    ensures front { OnErr result (ToldFront (W.contents writer.old) (W.contents writer.new) manner scenario.now debugger.old text.now) }
    ensures why { IfErr result (λ error. IsSendError error) }
    ensures write { (result ≡ Err PlayError.Write) ↔ (W.failed writer.new ≡ true) }
{
    let mut taken = 0;
    while let Some(len) = line_length(&text[taken..]) {
        let line = &text[taken..][..len];
        if !answer_line(alloc, manner, scenario, debugger, line, writer)? {
            return Ok(None);
        }
        taken += len + 1;
    }
    Ok(Some(taken))
}

/// Answers what is left at the end, a last line that no line feed ends, and says what is said there.
fn answer_rest<M: Machine, W: Sink>(
    alloc: Global,
    manner: Manner,
    scenario: &Scenario,
    debugger: &mut Debugger<M>,
    text: &[u8],
    writer: &mut W,
) -> Result<(), PlayError>
    requires works { length scenario.now.works ≤ MAX_WORKS }
    requires sound { W.failed writer.old ≡ false }
    requires one { HasNoLine text.now }
    ensures ok { OnOk result (Appends (W.contents writer.old) (W.contents writer.new) (lines_said manner scenario.now debugger.old (lines_of text.now))) }
    ensures err { OnErr result (HasSentFront (W.contents writer.old) (W.contents writer.new) (lines_said manner scenario.now debugger.old (lines_of text.now))) }
    ensures why { IfErr result (λ error. IsSendError error) }
    ensures write { (result ≡ Err PlayError.Write) ↔ (W.failed writer.new ≡ true) }
{
    if text.is_empty() {
        return put_all(writer, ending(manner));
    }
    if !answer_line(alloc, manner, scenario, debugger, text, writer)? {
        return Ok(());
    }
    put_all(writer, ending(manner))
}

/// Hears the commands to their end, or up to one that ends the session, and answers them as they come: before more is read, each whole line that was heard
/// has been answered.
fn talk<M: Machine, R: Source, W: Sink>(
    alloc: Global,
    manner: Manner,
    scenario: &Scenario,
    debugger: &mut Debugger<M>,
    commands: &mut R,
    writer: &mut W,
) -> Result<(), PlayError>
    requires works { length scenario.now.works ≤ MAX_WORKS }
    requires commands { R.failed commands.old ≡ false }
    requires writer { W.failed writer.old ≡ false }
    ensures { Talks (R.remaining commands.old) (R.remaining commands.new) (W.contents writer.old) (W.contents writer.new) (R.failed commands.new) (W.failed writer.new) manner scenario.now debugger.old result }
{
    let mut text = Vec::new(alloc);
    let mut done = 0;
    for _turn in 0..MAX_TEXT + 2 {
        if read_some(commands, &mut empty_chunk(), &mut text)? == 0 {
            return answer_rest(alloc, manner, scenario, debugger, &text[done..], writer);
        }
        if text.len() > MAX_TEXT {
            return Err(PlayError::TooLong);
        }
        match answer_lines(alloc, manner, scenario, debugger, &text[done..], writer)? {
            Some(taken) => done += taken,
            None => return Ok(()),
        }
    }
    unreachable!()
}

/// Says what is said before anything is read.
fn put_opening<M: Machine, W: Sink>(
    alloc: Global,
    manner: Manner,
    debugger: &Debugger<M>,
    writer: &mut W,
) -> Result<(), PlayError>
    requires { W.failed writer.old ≡ false }
    ensures ok { OnOk result (Appends (W.contents writer.old) (W.contents writer.new) (opening manner debugger.now)) }
    ensures err { OnErr result (HasSentFront (W.contents writer.old) (W.contents writer.new) (opening manner debugger.now)) }
    ensures why { IfErr result (λ error. IsSendError error) }
    ensures write { (result ≡ Err PlayError.Write) ↔ (W.failed writer.new ≡ true) }
{
    let text = opening(alloc, manner, debugger)?;
    put_all(writer, &text)?;
    Ok(())
}

/// Holds a session: says what is said before anything is read, and then hears the commands.
fn hold<M: Machine, R: Source, W: Sink>(
    alloc: Global,
    manner: Manner,
    scenario: &Scenario,
    debugger: &mut Debugger<M>,
    commands: &mut R,
    writer: &mut W,
) -> Result<(), PlayError>
    requires works { length scenario.now.works ≤ MAX_WORKS }
    requires commands { R.failed commands.old ≡ false }
    requires writer { W.failed writer.old ≡ false }
    ensures { Holds (R.remaining commands.old) (R.remaining commands.new) (W.contents writer.old) (W.contents writer.new) (R.failed commands.new) (W.failed writer.new) manner scenario.now debugger.old result }
{
    put_opening(alloc, manner, debugger, writer)?;
    talk(alloc, manner, scenario, debugger, commands, writer)
}

/// Carries out commands on a debugger over the instructions of the scenario's one actor, and writes what it says to each.
/// The commands are lines of text, and `docs/FORMATS.md` lists them.
///
/// In a `Prompted` session a prompt with position and time goes out before anything is read and behind each answer, what brought the debugger to where it
/// stands is told behind the answer to a move, and where the commands end without `quit`, the line of the last prompt is ended.
/// In a `Plain` one the answers are all that is said.
///
/// What a command says has gone out before the next one is carried out, and what all whole lines that were read say
/// before more is read; so a person sees each answer before the next command. Behind `quit` nothing is read. It answers `Actors` and `Full` as `run` does,
/// before anything is read; then nothing is written. `TooLong` comes where more than 4,194,304 bytes of commands come.
/// On each fault what was written is a front of what is said to the whole input.
pub fn debug<R: Source, W: Sink>(
    alloc: Global,
    manner: Manner,
    scenario: Scenario,
    commands: &mut R,
    writer: &mut W,
) -> Result<(), PlayError>
    requires valid { IsValid scenario }
    requires commands { R.failed commands.old ≡ false }
    requires writer { W.failed writer.old ≡ false }
    ensures reads { Reads (R.remaining commands.old) (R.remaining commands.new) (R.failed commands.new) result }
    ensures told { OnOk result (IsDebugged manner (R.remaining commands.old) (W.contents writer.old) (W.contents writer.new) scenario) }
    ensures front { OnErr result (IsFrontTold manner (R.remaining commands.old) (W.contents writer.old) (W.contents writer.new) scenario) }
    // What was read has been answered, each whole line of it, where a read fails.
    ensures answered { result ≡ Err PlayError.Read → IsTalked manner (R.remaining commands.old) (R.remaining commands.new) (W.contents writer.old) (W.contents writer.new) scenario }
    ensures refused { IfErr result (λ error. IsRefused scenario error ⊎ (CanRun scenario × IsTalkError error)) }
    ensures silent { IfErr result (λ error. IsRefused scenario error → Keeps (W.contents writer.old) (W.contents writer.new)) }
    ensures too_long { result ≡ Err PlayError.TooLong → IfSome (R.remaining commands.old) (λ bytes. MAX_TEXT < length bytes) }
    ensures write { (result ≡ Err PlayError.Write) ↔ (W.failed writer.new ≡ true) }
{
    judge(&scenario)?;
    hold_on::<Core, R, W>(alloc, manner, scenario, commands, writer)
}

/// Holds a session on a debugger of the one actor's instructions.
fn hold_on<M: Machine, R: Source, W: Sink>(
    alloc: Global,
    manner: Manner,
    scenario: Scenario,
    commands: &mut R,
    writer: &mut W,
) -> Result<(), PlayError>
    requires valid { IsValid scenario }
    requires can { CanRun scenario }
    requires commands { R.failed commands.old ≡ false }
    requires writer { W.failed writer.old ≡ false }
    ensures { HoldsOn (R.remaining commands.old) (R.remaining commands.new) (W.contents writer.old) (W.contents writer.new) (R.failed commands.new) (W.failed writer.new) manner scenario result }
{
    let scenario = Arc::new(alloc, scenario)?;
    let mut debugger = opened::<M>(alloc, &scenario, &scenario.actors[0])?;
    hold(alloc, manner, &scenario, &mut debugger, commands, writer)
}

/// A debugger over the instructions of this actor of the scenario.
fn opened<M: Machine>(
    alloc: Global,
    scenario: &Arc<Scenario>,
    actor: &Actor,
) -> Result<Debugger<M>, NoMemory>
    requires valid { IsValid scenario.now.value }
    requires runs { IsRunOf scenario.now.value actor.now }
    ensures { IfOk result (λ debugger. debugger ≡ opened scenario.now.value (expand actor.now)) }
{
    let instrs = expanded(alloc, &actor.lines)?;
    Debugger::begin(alloc, Arc::clone(scenario)?, instrs)
}
