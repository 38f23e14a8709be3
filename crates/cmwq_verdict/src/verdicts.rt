//! What is said of a text.
ghost use Rattle.cmwq_grammar.specs.FaultLaw.{IsFault};
ghost use Rattle.cmwq_grammar.specs.Meaning.{fault_at};
ghost use Rattle.cmwq_verdict.specs.Verdicts.{IsExplained, IsFoundOut, IsVerdict, ok_line, unread_line, shown, subject_of, verdict_lines};
ghost use Rattle.cmwq_verdict.specs.Hints.{hint_lines};
ghost use Rattle.cmwq_verdict.specs.Looks.{pointer, why_words};
ghost use Rattle.cmwq_verdict.specs.WordPlaces.{IsNext, column_of_place};
ghost use Rattle.std.specs.Fmt.{decimal};
ghost use Rattle.std.specs.Prelude.{◌≡◌, ◌++◌, ◌∷◌, [], IfOk, OnOk, Some, codes, option_map};

use crate::finding::{Finding, column_of_place, found_of};
use crate::hints::push_hints;
use crate::looks::{Look, push_pointer, push_why};
use crate::mending::push_mending;
use crate::places::FaultPlace;
use crate::shown::{Shown, push_shown_as};
use crate::writing::push_bytes;
use cmwq_asm::{AsmError, assemble};
use cmwq_fitting::{TextFault, front_of};
use cmwq_grammar::Why;
use cmwq_types::NoMemory;
use std::alloc::Global;

/// What is said of the text of this file: nothing where it spells a scenario, and else a line, `FILE:LINE:COLUMN: WORD: WHY`, and what may
/// stand there.
///
/// Line and reason are those of the text's first fault. The word is the first one of that line such that the text cut behind it
/// has this fault, and the column is that of its first byte, counted in bytes from 1. For a word that is missing stands `end of
/// line`, or `end of text`, for a line in which no word is at fault `line`, and for a text that is too long `text`. Of a word the
/// first 64 bytes are shown, and `?` for each that isn't a visible character of ASCII.
///
/// The second line is `  a line here may begin with: WORD, WORD`, of just those words with which some scenario's text goes on after the lines
/// before the fault's, or `  no line may follow`. Behind a first word with which a line may begin it is `  expected here: THING, THING`: of
/// `max`, the flags, `*` and the names that lines before declare just those with which the line goes on, the nearest to the word first, and not
/// more than eight; `a new name`; `a number from LOW to HIGH`; `the line's end`. If a word is misspelt and one that fits there is near, `  did you
/// mean WORD?` follows. A text that is too long has none of these. Where it is to point at the place, the fault's line stands behind the first, its
/// first 100 bytes, with a caret below the column where that is among them; as a terminal shows it, the reason is red as well. It fails only
/// for want of memory.
pub fn verdict(
    alloc: Global,
    look: Look,
    file: &str,
    text: &[u8],
) -> Result<Option<Vec<u8>>, NoMemory>
    ensures { IfOk result (λ told. IsVerdict look file.now text.now (option_map (λ bytes. bytes.items) told)) }
{
    match assemble(alloc, text) {
        Ok(_) => Ok(None),
        Err(AsmError::At { line, why }) => {
            let fault = TextFault { line, why };
            Ok(Some(fault_told(alloc, look, file, text, fault)?))
        }
        Err(AsmError::NoMemory) => Err(NoMemory),
    }
}

/// What is said of the text of this file, as `verdict` tells it, and behind a fault a sentence on what mends it: that of its reason in the table
/// `why_sentence` of the specs. It fails only for want of memory.
pub fn explained_verdict(
    alloc: Global,
    look: Look,
    file: &str,
    text: &[u8],
) -> Result<Option<Vec<u8>>, NoMemory>
    ensures { IfOk result (λ told. IsExplained look file.now text.now (option_map (λ bytes. bytes.items) told)) }
{
    match assemble(alloc, text) {
        Ok(_) => Ok(None),
        Err(AsmError::At { line, why }) => {
            let fault = TextFault { line, why };
            Ok(Some(fault_explained(alloc, look, file, text, fault)?))
        }
        Err(AsmError::NoMemory) => Err(NoMemory),
    }
}

/// The lines that tell the text's first fault, which is this one.
fn fault_told(
    alloc: Global,
    look: Look,
    file: &str,
    text: &[u8],
    fault: TextFault,
) -> Result<Vec<u8>, NoMemory>
    requires { IsFault text.now (fault_at fault.line fault.why) }
    ensures { IfOk result (λ told. IsVerdict look file.now text.now (Some told.items)) }
{
    let found = found_of(alloc, text, fault)?;
    verdict_lines(alloc, look, file, text, &found)
}

/// The lines that tell the text's first fault, which is this one, and what mends it.
fn fault_explained(
    alloc: Global,
    look: Look,
    file: &str,
    text: &[u8],
    fault: TextFault,
) -> Result<Vec<u8>, NoMemory>
    requires { IsFault text.now (fault_at fault.line fault.why) }
    ensures { IfOk result (λ told. IsExplained look file.now text.now (Some told.items)) }
{
    let found = found_of(alloc, text, fault)?;
    explained_lines(alloc, look, file, text, &found)
}

/// The lines that tell the text's fault, which was found out, and what mends it.
fn explained_lines(
    alloc: Global,
    look: Look,
    file: &str,
    text: &[u8],
    found: &Finding<'_>,
) -> Result<Vec<u8>, NoMemory>
    requires { IsFoundOut text.now (fault_at found.now.fault.line found.now.fault.why) found.now.place found.now.next found.now.offer }
    ensures { IfOk result (λ told. IsExplained look file.now text.now (Some told.items)) }
{
    let mut told = verdict_lines(alloc, look, file, text, found)?;
    push_mending(alloc, &mut told, text, found)?;
    Ok(told)
}

/// The lines that tell the text's fault, which was found out.
fn verdict_lines(
    alloc: Global,
    look: Look,
    file: &str,
    text: &[u8],
    found: &Finding<'_>,
) -> Result<Vec<u8>, NoMemory>
    requires { IsNext text.now (fault_at found.now.fault.line found.now.fault.why) found.now.next }
    ensures { IfOk result (λ told. told.items
        ≡ verdict_lines look file.now text.now (fault_at found.now.fault.line found.now.fault.why) found.now.place found.now.next found.now.offer) }
{
    let column = column_of_place(found.place);
    let mut told = place_text(alloc, file, found.fault.line, column)?;
    push_verdict(alloc, &mut told, look, text, found)?;
    Ok(told)
}

/// Writes what stands behind the place in the line that tells the text's fault, and the lines behind that one.
fn push_verdict(
    alloc: Global,
    told: &mut Vec<u8>,
    look: Look,
    text: &[u8],
    found: &Finding<'_>,
) -> Result<(), NoMemory>
    requires { IsNext text.now (fault_at found.now.fault.line found.now.fault.why) found.now.next }
    ensures { OnOk result (told.new.items ≡ told.old.items ++ (subject_of found.now.place ++ (codes ": " ++ (why_words look found.now.fault.why ++ 10 ∷ []))
        ++ (pointer look text.now (fault_at found.now.fault.line found.now.fault.why) (column_of_place found.now.place)
        ++ hint_lines text.now (fault_at found.now.fault.line found.now.fault.why) found.now.place found.now.next found.now.offer))) }
{
    push_subject_and_why(told, look, found.fault.why, found.place)?;
    let column = column_of_place(found.place);
    push_pointer(told, look, text, found.fault, column)?;
    push_hints(alloc, told, text, found)
}

/// `FILE: ok`, which is said of a good file. It fails only for want of memory.
pub fn ok_line(alloc: Global, file: &str) -> Result<Vec<u8>, NoMemory>
    ensures { IfOk result (λ line. line.items ≡ ok_line file.now) }
{
    file_line(alloc, file, "ok")
}

/// `FILE: read`, which is said of a file that can't be read. It fails only for want of memory.
pub fn unread_line(alloc: Global, file: &str) -> Result<Vec<u8>, NoMemory>
    ensures { IfOk result (λ line. line.items ≡ unread_line file.now) }
{
    file_line(alloc, file, "read")
}

/// `FILE: WORD`.
fn file_line(alloc: Global, file: &str, word: &str) -> Result<Vec<u8>, NoMemory>
    ensures { IfOk result (λ line. line.items ≡ file.now ++ (codes ": " ++ (word.now ++ 10 ∷ []))) }
{
    Ok(format!(in alloc; "{file}: {word}\n")?.into_bytes())
}

/// `FILE:LINE:COLUMN: `.
fn place_text(alloc: Global, file: &str, line: u32, column: usize) -> Result<Vec<u8>, NoMemory>
    ensures { IfOk result (λ told. told.items ≡ file.now ++ (codes ":" ++ (decimal line ++ (codes ":" ++ (decimal column ++ codes ": "))))) }
{
    Ok(format!(in alloc; "{file}:{line}:{column}: ")?.into_bytes())
}

/// Writes what stands at the place, and why that is a fault.
fn push_subject_and_why(
    told: &mut Vec<u8>,
    look: Look,
    why: Why,
    place: FaultPlace<'_>,
) -> Result<(), NoMemory>
    ensures { OnOk result (told.new.items ≡ told.old.items ++ (subject_of place.entry ++ (codes ": " ++ (why_words look why ++ 10 ∷ [])))) }
{
    push_subject(told, place)?;
    push_bytes(told, b": ")?;
    push_why(told, look, why)?;
    push_bytes(told, b"\n")
}

/// Writes what stands at the place.
fn push_subject(told: &mut Vec<u8>, place: FaultPlace<'_>) -> Result<(), NoMemory>
    ensures { OnOk result (told.new.items ≡ told.old.items ++ subject_of place.entry) }
{
    match place {
        FaultPlace::Text => push_bytes(told, b"text"),
        FaultPlace::EndOfText => push_bytes(told, b"end of text"),
        FaultPlace::Line => push_bytes(told, b"line"),
        FaultPlace::EndOfLine { .. } => push_bytes(told, b"end of line"),
        FaultPlace::Word { bytes, .. } => push_shown(told, bytes),
    }
}

/// Writes the word as it is shown.
fn push_shown(told: &mut Vec<u8>, word: &[u8]) -> Result<(), NoMemory>
    ensures { OnOk result (told.new.items ≡ told.old.items ++ shown word.now) }
{
    push_shown_as(told, Shown::Visible, front_of(word, 64))
}
