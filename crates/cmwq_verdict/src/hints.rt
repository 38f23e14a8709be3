//! What is said of a fault's place: what may stand there, and what is meant.
ghost use Rattle.cmwq_fitting.specs.Meant.{meant_among, meant_at};
ghost use Rattle.cmwq_grammar.specs.Cutting.{words_of};
ghost use Rattle.cmwq_grammar.specs.Meaning.{fault_at};
ghost use Rattle.cmwq_verdict.specs.Cures.{cure, cure_or};
ghost use Rattle.cmwq_verdict.specs.Hints.{line_end, end_text, hint_lines, is_misspelt, limit_words, limits_text, things_list, meant_first, meant_if, meant_line, meant_of_place, more_text, names_offered, place_line, stand_line, things_offered, words_told};
ghost use Rattle.cmwq_verdict.specs.OfferLines.{spelled};
ghost use Rattle.cmwq_verdict.specs.WordPlaces.{IsNext};
ghost use Rattle.std.specs.Prelude.{◌≡◌, ◌++◌, ◌≢◌, IfOk, OnOk, drop, map, option_map};

use crate::cures::cure_of;
use crate::finding::{Finding, column_of_place, line_before, text_before, word_of_place};
use crate::first_words::{FirstWord, words_of};
use crate::offers::push_offered;
use crate::writing::{push_between, push_bytes, push_sentence};
use cmwq_fitting::{Gap, Limits, Offer, meant_among, meant_at, nearest_first};
use cmwq_grammar::Why;
use cmwq_scan::{next_word, worded_part};
use cmwq_types::{Fault, NoMemory};
use std::alloc::Global;

/// Writes what is said of the place of the text's fault, which was found out.
pub(crate) fn push_hints(
    alloc: Global,
    told: &mut Vec<u8>,
    text: &[u8],
    found: &Finding<'_>,
) -> Result<(), NoMemory>
    requires { IsNext text.now (fault_at found.now.fault.line found.now.fault.why) found.now.next }
    ensures { OnOk result (told.new.items ≡ told.old.items
        ++ hint_lines text.now (fault_at found.now.fault.line found.now.fault.why) found.now.place found.now.next found.now.offer) }
{
    let Some(next) = found.next else {
        return Ok(());
    };
    let words = words_of(alloc, next)?;
    push_hints_among(alloc, told, text, &words, found)
}

/// Writes what may stand at the place, and then what is said of the fault beside its reason, or else what is meant there. These are the words that a
/// line may begin with.
fn push_hints_among(
    alloc: Global,
    told: &mut Vec<u8>,
    text: &[u8],
    words: &[FirstWord],
    found: &Finding<'_>,
) -> Result<(), NoMemory>
    requires some { found.now.fault.line ≢ 0 }
    requires next { IsNext text.now (fault_at found.now.fault.line found.now.fault.why) found.now.next }
    ensures { OnOk result (told.new.items ≡ told.old.items ++ (place_line found.now.place (map spelled words.now) found.now.offer
        ++ cure_or (cure text.now (fault_at found.now.fault.line found.now.fault.why) found.now.place found.now.next)
        (meant_if text.now (fault_at found.now.fault.line found.now.fault.why) found.now.place (map spelled words.now)
        (is_misspelt found.now.fault.why) found.now.offer))) }
{
    push_place_line(alloc, told, words, found)?;
    match cure_of(alloc, text, found)? {
        Some(cure) => push_sentence(told, &cure),
        None => push_meant_if(alloc, told, text, words, found),
    }
}

/// Writes what is meant at the place, where a word isn't the right one. These are the words that a line may begin with.
fn push_meant_if(
    alloc: Global,
    told: &mut Vec<u8>,
    text: &[u8],
    words: &[FirstWord],
    found: &Finding<'_>,
) -> Result<(), NoMemory>
    requires { found.now.fault.line ≢ 0 }
    ensures { OnOk result (told.new.items ≡ told.old.items
        ++ meant_if text.now (fault_at found.now.fault.line found.now.fault.why) found.now.place (map spelled words.now)
        (is_misspelt found.now.fault.why) found.now.offer) }
{
    if !is_misspelt(found.fault.why) {
        return Ok(());
    }
    let meant = meant_of_place(alloc, text, words, found)?;
    push_meant(told, meant)
}

/// Writes what may stand at the place: how a line may begin there, these being the words, or what may stand behind its first word.
fn push_place_line(
    alloc: Global,
    told: &mut Vec<u8>,
    words: &[FirstWord],
    found: &Finding<'_>,
) -> Result<(), NoMemory>
    ensures { OnOk result (told.new.items ≡ told.old.items ++ place_line found.now.place (map spelled words.now) found.now.offer) }
{
    match &found.offer {
        None => push_offered(told, words),
        Some(offer) => {
            let list = things_listed(alloc, offer, word_of_place(found.place))?;
            push_standing(told, words, &list, offer.may_end)
        }
    }
}

/// Writes the line of what may stand at a place, this being the list; where it is empty, that the line should end, or how a line may begin.
fn push_standing(
    told: &mut Vec<u8>,
    words: &[FirstWord],
    list: &[u8],
    may_end: bool,
) -> Result<(), NoMemory>
    ensures { OnOk result (told.new.items ≡ told.old.items ++ stand_line (map spelled words.now) list.now may_end) }
{
    if list.is_empty() {
        return push_end(told, words, may_end);
    }
    push_between(
        told,
        b"  expected here: ",
        behind_two(list),
        end_text(may_end),
    )?;
    push_bytes(told, b"\n")
}

/// Writes that the line should end, or else how one may begin.
fn push_end(told: &mut Vec<u8>, words: &[FirstWord], may_end: bool) -> Result<(), NoMemory>
    ensures { OnOk result (told.new.items ≡ told.old.items ++ line_end (map spelled words.now) may_end) }
{
    if may_end {
        push_bytes(told, b"  the line should end here\n")
    } else {
        push_offered(told, words)
    }
}

/// That the line may end.
fn end_text(may_end: bool) -> &'static [u8]
    ensures { result.now ≡ end_text may_end }
{
    if may_end { b", or the line's end" } else { b"" }
}

/// What stands behind the first two bytes.
fn behind_two(list: &[u8]) -> &[u8]
    ensures { result.now ≡ drop 2 list.now }
{
    match list {
        [_, _, rest @ ..] => rest,
        _ => &[],
    }
}

/// What may stand at a place, where this word does, each behind a comma.
#[tactic(auto, using(crate::proofs::ListLemmas::listed_two))]
fn things_listed(alloc: Global, offer: &Offer<'_>, word: &[u8]) -> Result<Vec<u8>, NoMemory>
    ensures { IfOk result (λ list. list.items ≡ things_list (things_offered offer.now word.now)) }
{
    let mut list = names_of(alloc, offer, word)?;
    push_limits(alloc, &mut list, offer.limits)?;
    Ok(list)
}

/// The names and other words that may stand at a place, where this word does, each behind a comma.
fn names_of(alloc: Global, offer: &Offer<'_>, word: &[u8]) -> Result<Vec<u8>, NoMemory>
    ensures { IfOk result (λ list. list.items ≡ things_list (names_offered offer.now word.now)) }
{
    if offer.new_name {
        return Ok(Vec::from_slice(alloc, b", a new name")?);
    }
    let words = nearest_first(alloc, &offer.words, word)?;
    words_listed(alloc, &words)
}

/// The words, of which eight are told, each behind a comma.
fn words_listed(alloc: Global, words: &[&[u8]]) -> Result<Vec<u8>, NoMemory>
    ensures { IfOk result (λ list. list.items ≡ things_list (words_told (map (λ word. word.now) words.now))) }
{
    let mut list = Vec::new(alloc);
    push_told_words(alloc, &mut list, words)?;
    Ok(list)
}

/// Adds the words, of which eight are told, each behind a comma.
fn push_told_words(alloc: Global, list: &mut Vec<u8>, words: &[&[u8]]) -> Result<(), NoMemory>
    ensures { OnOk result (list.new.items ≡ list.old.items ++ things_list (words_told (map (λ word. word.now) words.now))) }
{
    if words.len() <= 8 {
        return push_listed(list, words);
    }
    let (front, others) = words.split_at(8);
    push_listed(list, front)?;
    let more = more_text(alloc, others.len())?;
    push_between(list, b", ", &more, b"")
}

/// The words that tell how many more there are.
fn more_text(alloc: Global, count: usize) -> Result<Vec<u8>, NoMemory>
    ensures { IfOk result (λ text. text.items ≡ more_text count) }
{
    Ok(format!(in alloc; "{count} more")?.into_bytes())
}

/// Adds the words, each behind a comma.
fn push_listed(list: &mut Vec<u8>, words: &[&[u8]]) -> Result<(), NoMemory>
    ensures { OnOk result (list.new.items ≡ list.old.items ++ things_list (map (λ word. word.now) words.now)) }
{
    for word in words {
        push_between(list, b", ", *word, b"")?;
    }
    Ok(())
}

/// Adds the numbers that may stand at a place, behind a comma.
fn push_limits(alloc: Global, list: &mut Vec<u8>, limits: Option<Limits>) -> Result<(), NoMemory>
    ensures { OnOk result (list.new.items ≡ list.old.items ++ things_list (limit_words limits)) }
{
    let Some(Limits { low, high }) = limits else {
        return Ok(());
    };
    let numbers = limits_text(alloc, low, high)?;
    push_between(list, b", ", &numbers, b"")
}

/// The words that tell these limits.
pub(crate) fn limits_text(alloc: Global, low: u64, high: u64) -> Result<Vec<u8>, NoMemory>
    ensures { IfOk result (λ text. text.items ≡ limits_text low high) }
{
    if low == high {
        return Ok(format!(in alloc; "the number {low}")?.into_bytes());
    }
    Ok(format!(in alloc; "a number from {low} to {high}")?.into_bytes())
}

/// What the word at the place is meant as, these being the words that a line may begin with.
fn meant_of_place(
    alloc: Global,
    text: &[u8],
    words: &[FirstWord],
    found: &Finding<'_>,
) -> Result<Option<Vec<u8>>, NoMemory>
    requires { found.now.fault.line ≢ 0 }
    ensures { IfOk result (λ meant. option_map (λ meant. meant.items) meant
        ≡ meant_of_place text.now (fault_at found.now.fault.line found.now.fault.why) found.now.place (map spelled words.now) found.now.offer) }
{
    let word = word_of_place(found.place);
    match &found.offer {
        None => {
            let line = line_before(text, found.fault, column_of_place(found.place));
            meant_first(alloc, words, line, word)
        }
        Some(offer) => {
            let front = text_before(text, found.fault, column_of_place(found.place));
            let gap = Gap::new(alloc, front, found.fault.line)?;
            meant_at(alloc, &gap, offer, word)
        }
    }
}

/// What the word is meant as, these being the words that a line may begin with, and this what stands before it in its line.
fn meant_first(
    alloc: Global,
    words: &[FirstWord],
    line: &[u8],
    word: &[u8],
) -> Result<Option<Vec<u8>>, NoMemory>
    ensures { IfOk result (λ meant. option_map (λ meant. meant.items) meant ≡ meant_first (map spelled words.now) (words_of line.now) word.now) }
{
    if next_word(worded_part(line)).is_some() {
        return Ok(None);
    }
    let spellings = spellings(alloc, words)?;
    meant_among(alloc, &spellings, word)
}

/// How the words are spelled.
fn spellings(alloc: Global, words: &[FirstWord]) -> Result<Vec<&'static [u8]>, NoMemory>
    ensures { IfOk result (λ spellings. map (λ word. word.now) spellings.items ≡ map spelled words.now) }
{
    let mut spellings = Vec::new(alloc);
    for word in words {
        spellings.push(word.as_bytes())?;
    }
    Ok(spellings)
}

/// Writes what is meant.
fn push_meant(told: &mut Vec<u8>, meant: Option<Vec<u8>>) -> Result<(), NoMemory>
    ensures { OnOk result (told.new.items ≡ told.old.items ++ meant_line (option_map (λ meant. meant.items) meant)) }
{
    match meant {
        Some(word) => push_between(told, b"  did you mean ", &word, b"?\n"),
        None => Ok(()),
    }
}

/// Whether the reason is that of a word that isn't the right one.
fn is_misspelt(why: Why) -> bool
    ensures { result ≡ is_misspelt why }
{
    match why {
        Why::BadWord | Why::BadName | Why::ExtraWord | Why::Fault(Fault::Unknown) => true,
        _ => false,
    }
}
