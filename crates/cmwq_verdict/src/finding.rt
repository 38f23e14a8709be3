//! A text's first fault, and what can be found out about its place.
ghost use Rattle.cmwq_fitting.specs.KnownWords.{known_words};
ghost use Rattle.cmwq_fitting.specs.Offered.{IsOfferAt};
ghost use Rattle.cmwq_grammar.specs.Cutting.{words_of};
ghost use Rattle.cmwq_grammar.specs.FaultLaw.{IsFault};
ghost use Rattle.cmwq_grammar.specs.Meaning.{fault_at};
ghost use Rattle.cmwq_grammar.specs.Offers.{words_of_next};
ghost use Rattle.cmwq_verdict.specs.FaultPlaces.{IsPlace};
ghost use Rattle.cmwq_verdict.specs.OfferLines.{IsNextAt, spelled};
ghost use Rattle.cmwq_verdict.specs.Verdicts.{IsFoundOut};
ghost use Rattle.cmwq_verdict.specs.WordPlaces.{IsNext, IsOffer, column_of_place, is_begun_with, is_behind_first, line_before, lines_before, text_before, word_of_place};
ghost use Rattle.std.specs.List.{list_any};
ghost use Rattle.std.specs.Prelude.{◌≡◌, ◌≢◌, IfOk, map};
ghost use Rattle.std.specs.Str.{bytes_eq};

use crate::first_words::{FirstWord, words_of};
use crate::offers::next_at;
use crate::places::{FaultPlace, line_start, place_of_fault, rest_from};
use cmwq_fitting::{Gap, Offer, TextFault, front_of, known_words, offer_at};
use cmwq_grammar::Next;
use cmwq_scan::{is_word, next_word, worded_part};
use cmwq_types::NoMemory;
use std::alloc::Global;

/// A text's first fault, and what was found out about it.
#[derive(Drop)]
pub(crate) struct Finding<'t> {
    pub(crate) fault: TextFault,
    /// Where it is seen.
    pub(crate) place: FaultPlace<'t>,
    /// What a further line may be; `None` where the text as a whole is at fault.
    pub(crate) next: Option<Next>,
    /// What may stand at the place, where that is behind a line's first word.
    pub(crate) offer: Option<Offer<'t>>,
}

/// What can be found out about this fault, the text's first one. It fails only for want of memory.
pub(crate) fn found_of<'t>(
    alloc: Global,
    text: &'t [u8],
    fault: TextFault,
) -> Result<Finding<'t>, NoMemory>
    requires { IsFault text.now (fault_at fault.line fault.why) }
    ensures { IfOk result (λ found. IsFoundOut text.now (fault_at found.fault.line found.fault.why) found.place found.next found.offer) }
{
    let place = place_of_fault(alloc, text, fault)?;
    let next = next_of(alloc, text, fault)?;
    let offer = offer_of(alloc, text, fault, place, next)?;
    Ok(Finding {
        fault,
        place,
        next,
        offer,
    })
}

/// What a further line may be in the fault's place, where that is in a line or behind the last one.
fn next_of(alloc: Global, text: &[u8], fault: TextFault) -> Result<Option<Next>, NoMemory>
    requires { IsFault text.now (fault_at fault.line fault.why) }
    ensures { IfOk result (λ next. IsNext text.now (fault_at fault.line fault.why) next) }
{
    if fault.line == 0 {
        return Ok(None);
    }
    Ok(Some(next_at(alloc, text, fault.line)?))
}

/// What may stand at the place, where that is behind a first word with which a line may begin.
fn offer_of<'t>(
    alloc: Global,
    text: &'t [u8],
    fault: TextFault,
    place: FaultPlace<'_>,
    next: Option<Next>,
) -> Result<Option<Offer<'t>>, NoMemory>
    requires { IsNext text.now (fault_at fault.line fault.why) next }
    ensures { IfOk result (λ offer. IsOffer text.now (fault_at fault.line fault.why) place.entry next offer) }
{
    let Some(next) = next else {
        return Ok(None);
    };
    let column = column_of_place(place);
    if !is_behind_first(alloc, next, line_before(text, fault, column))? {
        return Ok(None);
    }
    Ok(Some(offer_behind(alloc, text, fault, column)?))
}

/// What may stand at a column of the fault's line.
fn offer_behind<'t>(
    alloc: Global,
    text: &'t [u8],
    fault: TextFault,
    column: usize,
) -> Result<Offer<'t>, NoMemory>
    requires { fault.line ≢ 0 }
    ensures { IfOk result (λ offer. IsOfferAt fault.line (text_before text.now (fault_at fault.line fault.why) column)
        (known_words (lines_before text.now (fault_at fault.line fault.why))) offer) }
{
    let known = known_words(alloc, lines_before(text, fault))?;
    let gap = Gap::new(alloc, text_before(text, fault, column), fault.line)?;
    offer_at(alloc, &gap, &known)
}

/// Whether the line's first words, which are these bytes, begin with one with which a line may begin.
fn is_behind_first(alloc: Global, next: Next, line: &[u8]) -> Result<bool, NoMemory>
    ensures { IfOk result (λ is. is ≡ is_begun_with (words_of_next next) (words_of line.now)) }
{
    let first_words = words_of(alloc, next)?;
    Ok(is_begun_with(&first_words, line))
}

/// Whether the words of these bytes begin with one of these.
fn is_begun_with(first_words: &[FirstWord], line: &[u8]) -> bool
    ensures { result ≡ is_begun_with (map spelled first_words.now) (words_of line.now) }
{
    match next_word(worded_part(line)) {
        Some((word, _)) => is_first_word(first_words, word),
        None => false,
    }
}

/// Whether the word is one of these.
#[tactic(auto, using(crate::proofs::PlaceLemmas::any_spelled))]
fn is_first_word(first_words: &[FirstWord], word: &[u8]) -> bool
    ensures { result ≡ list_any (bytes_eq word.now) (map spelled first_words.now) }
{
    is_any_first(first_words, word)
}

fn is_any_first(first_words: &[FirstWord], word: &[u8]) -> bool
    ensures { result ≡ list_any (λ first. bytes_eq word.now (spelled first)) first_words.now }
{
    first_words
        .iter()
        .any(|first| is_word(word, first.as_bytes()))
}

/// The lines before the fault's.
pub(crate) fn lines_before(text: &[u8], fault: TextFault) -> &[u8]
    requires { fault.line ≢ 0 }
    ensures { result.now ≡ lines_before text.now (fault_at fault.line fault.why) }
{
    text.split_at(line_start(text, fault.line - 1)).0
}

/// The fault's line, up to a column.
pub(crate) fn line_before(text: &[u8], fault: TextFault, column: usize) -> &[u8]
    requires { fault.line ≢ 0 }
    ensures { result.now ≡ line_before text.now (fault_at fault.line fault.why) column }
{
    let start = line_start(text, fault.line - 1);
    front_of(rest_from(text, start), column.saturating_sub(1))
}

/// The text, up to a column of the fault's line.
pub(crate) fn text_before(text: &[u8], fault: TextFault, column: usize) -> &[u8]
    requires { fault.line ≢ 0 }
    ensures { result.now ≡ text_before text.now (fault_at fault.line fault.why) column }
{
    let start = line_start(text, fault.line - 1);
    let line = front_of(rest_from(text, start), column.saturating_sub(1));
    text.split_at(start + line.len()).0
}

/// The column of the place.
pub(crate) fn column_of_place(place: FaultPlace<'_>) -> usize
    ensures { result ≡ column_of_place place.entry }
{
    match place {
        FaultPlace::Text => 0,
        FaultPlace::EndOfText | FaultPlace::Line => 1,
        FaultPlace::EndOfLine { column } => column,
        FaultPlace::Word { column, .. } => column,
    }
}

/// The word at the place, if one is there.
pub(crate) fn word_of_place<'t>(place: FaultPlace<'t>) -> &'t [u8]
    ensures { result.now ≡ word_of_place place.entry }
{
    match place {
        FaultPlace::Word { bytes, .. } => bytes,
        _ => &[],
    }
}
