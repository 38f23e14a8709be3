//! Where the first fault of a text is seen.
ghost use Rattle.cmwq_grammar.specs.Cutting.{lines_of};
ghost use Rattle.cmwq_grammar.specs.FaultLaw.{IsFault};
ghost use Rattle.cmwq_grammar.specs.Meaning.{fault_at};
ghost use Rattle.cmwq_scan.specs.Words.{StandsIn, worded_part};
ghost use Rattle.cmwq_verdict.specs.FaultPlaces.{IsPlace, IsPlaceAmong, behind_words, cut_behind, line_start};
ghost use Rattle.std.specs.List.{All};
ghost use Rattle.std.specs.Prelude.{◌≡◌, ◌≢◌, ◌+◌, ◌-◌, ◌≤◌, ◌<◌, ◌↔◌, ◌∷◌, ◌==◌, if◌then◌else◌, ℕ, List, IfOk, IsTrue, MatchOption, drop, length};

use cmwq_asm::{AsmError, assemble};
use cmwq_fitting::{TextFault, front_of};
use cmwq_grammar::Why;
use cmwq_scan::{Token, Tokens, next_line, read_tokens, worded_part};
use cmwq_types::NoMemory;
use std::alloc::Global;

/// Where the first fault of a text is seen. Columns are counted in bytes, from 1.
#[derive(Clone, Copy)]
pub enum FaultPlace<'t> {
    /// The text as a whole, which is too long.
    Text,
    /// Behind the text's last line.
    EndOfText,
    /// The line as a whole.
    Line,
    /// Behind the line's last word.
    EndOfLine { column: usize },
    /// A word.
    Word { column: usize, bytes: &'t [u8] },
}

/// Where the text's first fault, which is this one, is seen. It fails only for want of memory.
pub(crate) fn place_of_fault<'t>(
    alloc: Global,
    text: &'t [u8],
    fault: TextFault,
) -> Result<FaultPlace<'t>, NoMemory>
    ensures { IfOk result (λ place. IsPlace text.now (fault_at fault.line fault.why) place) }
{
    if fault.line == 0 {
        return Ok(FaultPlace::Text);
    }
    let start = line_start(text, fault.line - 1);
    match next_line(rest_from(text, start)) {
        Some((bytes, _)) => place_in_line(alloc, text, bytes, start, fault),
        None => Ok(FaultPlace::EndOfText),
    }
}

/// Where the fault of a line is seen; the line begins at this offset of the text.
fn place_in_line<'t>(
    alloc: Global,
    text: &'t [u8],
    bytes: &'t [u8],
    start: usize,
    fault: TextFault,
) -> Result<FaultPlace<'t>, NoMemory>
    requires some { fault.line ≢ 0 }
    requires start { start ≡ line_start (fault.line - 1) text.now }
    requires room { start + length bytes.now ≤ length text.now }
    requires line { (more : List (List ℕ)) × (lines_of (drop start text.now) ≡ bytes.now ∷ more) }
    ensures { IfOk result (λ place. IsPlace text.now (fault_at fault.line fault.why) place) }
{
    let mut words = Tokens::new(alloc);
    read_tokens(&mut words, bytes)?;
    let part = worded_part(bytes);
    if is_missing_word(fault.why) {
        let column = behind_words(part, &words);
        return Ok(FaultPlace::EndOfLine { column });
    }
    place_among(alloc, text, start, part, &words, fault)
}

fn is_missing_word(why: Why) -> bool
    ensures { IsTrue result ↔ (why ≡ Why.MissingWord) }
{
    matches!(why, Why::MissingWord)
}

/// The first word such that the text cut behind it has the fault, or the line as a whole.
fn place_among<'t>(
    alloc: Global,
    text: &[u8],
    start: usize,
    part: &[u8],
    words: &[Token<'t>],
    fault: TextFault,
) -> Result<FaultPlace<'t>, NoMemory>
    requires stand { All (StandsIn part.now) words.now }
    requires start { start ≡ line_start (fault.line - 1) text.now }
    requires room { start + length part.now ≤ length text.now }
    ensures { IfOk result (λ place. IsPlaceAmong text.now (fault_at fault.line fault.why) words.now place) }
{
    for number in 0..words.len() {
        let word = &words[number];
        let cut = cut_behind(text, start, part, word);
        if has_fault(alloc, cut, fault)? {
            return Ok(FaultPlace::Word {
                column: word.column(),
                bytes: word.bytes(),
            });
        }
    }
    Ok(FaultPlace::Line)
}

/// Where line n of the text begins, lines being counted from 0.
pub(crate) fn line_start(text: &[u8], n: u32) -> usize
    ensures start { result ≡ line_start n text.now }
    ensures within { result ≤ length text.now }
{
    let mut left = n;
    for index in 0..text.len() {
        if left == 0 {
            return index;
        }
        left = left_behind(left, text[index]);
    }
    text.len()
}

/// What stands from this place on.
pub(crate) fn rest_from(text: &[u8], start: usize) -> &[u8]
    requires { start ≤ length text.now }
    ensures { result.now ≡ drop start text.now }
{
    text.split_at(start).1
}

/// How many line feeds are left to pass behind this byte.
fn left_behind(left: u32, byte: u8) -> u32
    requires { 0 < left }
    ensures { result ≡ (if byte == 10 then left - 1 else left) }
{
    if byte == b'\n' { left - 1 } else { left }
}

/// The column behind the last of the words, which stand in this part of the line.
#[tactic(auto, using(crate::proofs::PlaceLemmas::within))]
fn behind_words(part: &[u8], words: &[Token]) -> usize
    requires { All (StandsIn part.now) words.now }
    ensures { result ≡ behind_words words.now }
{
    match words.last() {
        Some(word) => word.column() + word.bytes().len(),
        None => 1,
    }
}

/// The text cut behind a word of this part of a line that begins at this place, and behind the byte that follows the word.
#[tactic(auto, using(crate::proofs::PlaceLemmas::within))]
fn cut_behind<'t>(text: &'t [u8], start: usize, part: &[u8], word: &Token) -> &'t [u8]
    requires stands { StandsIn part.now word.now }
    requires room { start + length part.now ≤ length text.now }
    ensures { result.now ≡ cut_behind text.now start word.now }
{
    let end = start + (word.column() - 1) + word.bytes().len();
    front_of(text, end + 1)
}

/// Whether this is the text's first fault.
fn has_fault(alloc: Global, text: &[u8], fault: TextFault) -> Result<bool, NoMemory>
    ensures { IfOk result (λ has. IsTrue has ↔ IsFault text.now (fault_at fault.line fault.why)) }
{
    let told = match assemble(alloc, text) {
        Ok(_) => return Ok(false),
        Err(AsmError::NoMemory) => return Err(NoMemory),
        Err(AsmError::At { line, why }) => TextFault { line, why },
    };
    Ok(is_same_fault(told, fault))
}

/// Whether the two faults are one.
fn is_same_fault(fault: TextFault, other: TextFault) -> bool
    ensures { IsTrue result ↔ (fault_at fault.line fault.why ≡ fault_at other.line other.why) }
{
    fault.line == other.line && is_same_reason(fault.why, other.why)
}

fn is_same_reason(why: Why, other: Why) -> bool
    ensures { IsTrue result ↔ (why ≡ other) }
{
    why == other
}
