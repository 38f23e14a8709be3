//! What is said of a fault beside its reason.
ghost use Rattle.cmwq_grammar.specs.Cutting.{is_empty, lines_of, words_of};
ghost use Rattle.cmwq_grammar.specs.Meaning.{fault_at};
ghost use Rattle.cmwq_verdict.specs.Cures.{article_of, bar_cure, bodiless, bodiless_words, body_cure, cure, cure_at, has_bar, is_barred, is_comment, is_declaration, kernel_cure, missing_cure, missing_in, missing_words, name_behind, names_in, wants_bodies, word_cure, written_words};
ghost use Rattle.cmwq_types.specs.First.{or_else};
ghost use Rattle.cmwq_verdict.specs.Forms.{form_at};
ghost use Rattle.cmwq_verdict.specs.WordPlaces.{IsNext, line_before, text_before};
ghost use Rattle.cmwq_scan.specs.Words.{words_in};
ghost use Rattle.std.specs.Prelude.{◌≡◌, ◌≢◌, ◌++◌, IfOk, None, OnOk, Some, drop, length, map, not, option_map};

use crate::finding::{Finding, column_of_place, line_before, lines_before, text_before};
use crate::forms::{call_name, form_at, kernel_form};
use crate::places::{FaultPlace, rest_from};
use crate::writing::{joined, push_between};
use cmwq_fitting::{TextFault, front_of};
use cmwq_grammar::{Next, Why};
use cmwq_scan::{Token, Tokens, is_word, next_line, next_word, read_tokens, worded_part};
use cmwq_types::NoMemory;
use std::alloc::Global;

/// Returns what is said of the fault, which was found out, beside its reason: of C's comments and a kernel's words, of an operand that is missing, and of
/// a work that has no body. `cure` of the specs has the cases. It fails only for want of memory.
pub(crate) fn cure_of(
    alloc: Global,
    text: &[u8],
    found: &Finding<'_>,
) -> Result<Option<Vec<u8>>, NoMemory>
    requires { IsNext text.now (fault_at found.now.fault.line found.now.fault.why) found.now.next }
    ensures { IfOk result (λ words. option_map (λ words. words.items) words
        ≡ cure text.now (fault_at found.now.fault.line found.now.fault.why) found.now.place found.now.next) }
{
    match found.next {
        Some(next) => cure_at(alloc, text, found.fault, next, found.place),
        None => Ok(None),
    }
}

/// Returns what is said of the fault that is seen at this place, where a line may be so.
fn cure_at(
    alloc: Global,
    text: &[u8],
    fault: TextFault,
    next: Next,
    place: FaultPlace<'_>,
) -> Result<Option<Vec<u8>>, NoMemory>
    requires { fault.line ≢ 0 }
    ensures { IfOk result (λ words. option_map (λ words. words.items) words
        ≡ cure_at text.now (fault_at fault.line fault.why) next place.entry place.entry) }
{
    match place {
        FaultPlace::Word { bytes, .. } if is_comment(bytes) => said(alloc, COMMENT),
        FaultPlace::Word { bytes, .. } => word_cure(alloc, text, fault, next, place, bytes),
        FaultPlace::EndOfLine { column } => {
            missing_cure(alloc, next, line_before(text, fault, column))
        }
        FaultPlace::EndOfText => body_cure(alloc, next, lines_before(text, fault)),
        _ => Ok(None),
    }
}

const COMMENT: &[u8] = b"a comment begins with #, and ends with its line";

const BARS: &[u8] = b"write flags one after another, without WQ_ and |: queue NAME max N FLAG FLAG";

/// Returns these words.
fn said(alloc: Global, words: &[u8]) -> Result<Option<Vec<u8>>, NoMemory>
    ensures { IfOk result (λ said. option_map (λ said. said.items) said ≡ Some words.now) }
{
    Ok(Some(Vec::from_slice(alloc, words)?))
}

/// Returns whether the word begins as a comment of C does.
fn is_comment(word: &[u8]) -> bool
    ensures { result ≡ is_comment word.now }
{
    let front = front_of(word, 2);
    is_word(front, b"//") || is_word(front, b"/*")
}

/// Returns what is said of a word at this place.
fn word_cure(
    alloc: Global,
    text: &[u8],
    fault: TextFault,
    next: Next,
    place: FaultPlace<'_>,
    word: &[u8],
) -> Result<Option<Vec<u8>>, NoMemory>
    requires { fault.line ≢ 0 }
    ensures { IfOk result (λ words. option_map (λ words. words.items) words
        ≡ word_cure text.now (fault_at fault.line fault.why) next place.entry fault.why word.now) }
{
    match fault.why {
        Why::BadWord => bad_word_cure(alloc, text, fault, next, column_of_place(place), word),
        Why::Misplaced if is_word(word, b"actor") => {
            body_cure(alloc, next, lines_before(text, fault))
        }
        _ => Ok(None),
    }
}

/// Returns what is said of a word that means nothing at this column: of a kernel's word, or of flags that are joined.
fn bad_word_cure(
    alloc: Global,
    text: &[u8],
    fault: TextFault,
    next: Next,
    column: usize,
    word: &[u8],
) -> Result<Option<Vec<u8>>, NoMemory>
    requires { fault.line ≢ 0 }
    ensures { IfOk result (λ words. option_map (λ words. words.items) words
        ≡ or_else (kernel_cure next word.now) (bar_cure next
        (not (is_empty (words_of (line_before text.now (fault_at fault.line fault.why) column))))
        (has_bar (lines_of (drop (length (text_before text.now (fault_at fault.line fault.why) column)) text.now))))) }
{
    if let Some(words) = kernel_cure(alloc, next, word)? {
        return Ok(Some(words));
    }
    let is_behind = has_words(line_before(text, fault, column));
    let rest = rest_from(text, text_before(text, fault, column).len());
    bar_cure(alloc, next, is_behind, has_bar(rest))
}

/// Returns how the line is written that stands for this word of a kernel.
fn kernel_cure(alloc: Global, next: Next, word: &[u8]) -> Result<Option<Vec<u8>>, NoMemory>
    ensures { IfOk result (λ words. option_map (λ words. words.items) words ≡ kernel_cure next word.now) }
{
    let form = kernel_form(alloc, next, word)?;
    written_if(alloc, call_name(word), form)
}

/// Returns the words that say how a kernel's word is written, if something stands for it.
fn written_if(
    alloc: Global,
    name: &[u8],
    form: Option<Vec<u8>>,
) -> Result<Option<Vec<u8>>, NoMemory>
    ensures { IfOk result (λ words. option_map (λ words. words.items) words
        ≡ option_map (λ form. written_words name.now form) (option_map (λ form. form.items) form)) }
{
    match form {
        Some(form) => Ok(Some(written_words(alloc, name, &form)?)),
        None => Ok(None),
    }
}

/// Returns the words that say how a kernel's word is written.
fn written_words(alloc: Global, name: &[u8], form: &[u8]) -> Result<Vec<u8>, NoMemory>
    ensures { IfOk result (λ words. words.items ≡ written_words name.now form.now) }
{
    let mut words = Vec::from_slice(alloc, b"a kernel's ")?;
    push_between(&mut words, name, b" is written here: ", form)?;
    Ok(words)
}

/// Returns what is said of flags that are joined by `|`.
fn bar_cure(
    alloc: Global,
    next: Next,
    is_behind: bool,
    has_it: bool,
) -> Result<Option<Vec<u8>>, NoMemory>
    ensures { IfOk result (λ words. option_map (λ words. words.items) words ≡ bar_cure next is_behind has_it) }
{
    if is_declaration(next) && is_behind && has_it {
        return said(alloc, BARS);
    }
    Ok(None)
}

fn is_declaration(next: Next) -> bool
    ensures { result ≡ is_declaration next }
{
    matches!(next, Next::Declaration { .. })
}

/// Returns whether the line has words.
fn has_words(line: &[u8]) -> bool
    ensures { result ≡ not (is_empty (words_of line.now)) }
{
    next_word(worded_part(line)).is_some()
}

/// Returns whether a `|` stands in the first of these lines, before its comment.
fn has_bar(rest: &[u8]) -> bool
    ensures { result ≡ has_bar (lines_of rest.now) }
{
    match next_line(rest) {
        Some((line, _)) => is_barred(worded_part(line)),
        None => false,
    }
}

/// Returns whether a `|` is among the bytes.
fn is_barred(bytes: &[u8]) -> bool
    ensures { result ≡ is_barred bytes.now }
{
    bytes.iter().any(|byte| *byte == b'|')
}

/// Returns which work has no body behind these lines, where bodies are wanted.
fn body_cure(alloc: Global, next: Next, lines: &[u8]) -> Result<Option<Vec<u8>>, NoMemory>
    ensures { IfOk result (λ words. option_map (λ words. words.items) words ≡ body_cure next lines.now) }
{
    if !wants_bodies(next) {
        return Ok(None);
    }
    match bodiless(alloc, lines)? {
        Some(work) => Ok(Some(bodiless_words(alloc, work)?)),
        None => Ok(None),
    }
}

/// Returns whether bodies of works are wanted.
fn wants_bodies(next: Next) -> bool
    ensures { result ≡ wants_bodies next }
{
    matches!(next, Next::Work { .. } | Next::Body)
}

/// Returns the first work whose body these lines don't begin.
fn bodiless<'t>(alloc: Global, lines: &'t [u8]) -> Result<Option<&'t [u8]>, NoMemory>
    ensures { IfOk result (λ name. option_map (λ name. name.now) name ≡ bodiless lines.now) }
{
    let works = names_in(alloc, b"work", lines)?;
    let bodies = names_in(alloc, b"body", lines)?;
    Ok(works.get(bodies.len()).copied())
}

/// Returns the second words of the lines that begin with this one.
fn names_in<'t>(alloc: Global, first: &[u8], lines: &'t [u8]) -> Result<Vec<&'t [u8]>, NoMemory>
    ensures { IfOk result (λ names. map (λ name. name.now) names.items ≡ names_in first.now lines.now) }
{
    let mut names = Vec::new(alloc);
    let mut words = Tokens::new(alloc);
    let mut rest = lines;
    while let Some((line, behind)) = next_line(rest) {
        read_tokens(&mut words, line)?;
        push_name(&mut names, first, &words)?;
        rest = behind;
    }
    Ok(names)
}

/// Adds the second of these words, if the first is this one.
fn push_name<'t>(
    names: &mut Vec<&'t [u8]>,
    first: &[u8],
    words: &[Token<'t>],
) -> Result<(), NoMemory>
    ensures { OnOk result (map (λ name. name.now) names.new.items
        ≡ map (λ name. name.now) names.old.items ++ name_behind first.now (words_in words.now)) }
{
    match words {
        [word, name, ..] if is_word(word.bytes(), first) => {
            names.push(name.bytes())?;
            Ok(())
        }
        _ => Ok(()),
    }
}

/// Returns the words that say that this work has no body.
fn bodiless_words(alloc: Global, work: &[u8]) -> Result<Vec<u8>, NoMemory>
    ensures { IfOk result (λ words. words.items ≡ bodiless_words work.now) }
{
    let end = joined(
        alloc,
        work,
        b", its operations and finish come before the actors",
    )?;
    let named = joined(alloc, b" has no body: body ", &end)?;
    let about = joined(alloc, work, &named)?;
    joined(alloc, b"work ", &about)
}

/// Returns which operand is missing behind this front of a line.
fn missing_cure(alloc: Global, next: Next, line: &[u8]) -> Result<Option<Vec<u8>>, NoMemory>
    ensures { IfOk result (λ words. option_map (λ words. words.items) words ≡ missing_cure next (words_of line.now)) }
{
    let mut words = Tokens::new(alloc);
    read_tokens(&mut words, line)?;
    missing_among(alloc, next, &words)
}

/// Returns which operand is missing in a line that has these words.
fn missing_among(
    alloc: Global,
    next: Next,
    words: &[Token<'_>],
) -> Result<Option<Vec<u8>>, NoMemory>
    ensures { IfOk result (λ said. option_map (λ said. said.items) said ≡ missing_cure next (words_in words.now)) }
{
    match words {
        [first, ..] => missing_behind(alloc, next, first.bytes(), words.len()),
        [] => Ok(None),
    }
}

/// Returns which operand is missing in a line that begins with this word and has so many.
fn missing_behind(
    alloc: Global,
    next: Next,
    first: &[u8],
    count: usize,
) -> Result<Option<Vec<u8>>, NoMemory>
    ensures { IfOk result (λ words. option_map (λ words. words.items) words ≡ option_map (λ form. missing_in count form) (form_at next first.now)) }
{
    match form_at(alloc, next, first)? {
        Some(form) => Ok(Some(missing_in(alloc, count, form)?)),
        None => Ok(None),
    }
}

/// Returns which operand is missing in a line that is written so and has so many words.
fn missing_in(alloc: Global, count: usize, form: Vec<u8>) -> Result<Vec<u8>, NoMemory>
    ensures { IfOk result (λ words. words.items ≡ missing_in count form.items) }
{
    let mut operands = Tokens::new(alloc);
    read_tokens(&mut operands, &form)?;
    match operands.get(count) {
        Some(operand) => missing_operand(alloc, &form, operand.bytes()),
        None => missing_times(alloc, &form),
    }
}

/// Returns that this operand of a line that is written so is missing.
fn missing_operand(alloc: Global, form: &[u8], operand: &[u8]) -> Result<Vec<u8>, NoMemory>
    ensures { IfOk result (λ words. words.items ≡ missing_words form.now (Some operand.now)) }
{
    let end = joined(alloc, operand, b" is missing")?;
    let named = joined(alloc, article_of(operand), &end)?;
    let behind = joined(alloc, b": ", &named)?;
    joined(alloc, form, &behind)
}

/// Returns that in a line that is written so the number of times is missing.
fn missing_times(alloc: Global, form: &[u8]) -> Result<Vec<u8>, NoMemory>
    ensures { IfOk result (λ words. words.items ≡ missing_words form.now None) }
{
    let mut words = Vec::from_slice(alloc, form)?;
    words.extend_from_slice(b" * N: the number N is missing")?;
    Ok(words)
}

/// Returns what stands before the operand's name.
fn article_of(operand: &[u8]) -> &'static [u8]
    ensures { result.now ≡ article_of operand.now }
{
    if operand.len() == 1 {
        b"the number "
    } else if is_word(operand, b"max") {
        b"the word "
    } else {
        b"the "
    }
}
