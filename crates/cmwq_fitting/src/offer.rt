//! What may stand at a place of a line.
ghost use Rattle.cmwq_fitting.specs.Fitting.{fits};
ghost use Rattle.cmwq_fitting.specs.KnownWords.{is_known};
ghost use Rattle.cmwq_fitting.specs.Offered.{IsOfferAt, new_name_fits, numbered_name, unknown_name};
ghost use Rattle.cmwq_types.specs.Listing.{word_if};
ghost use Rattle.std.specs.List.{filter};
ghost use Rattle.std.specs.Prelude.{◌≡◌, ◌++◌, IfOk, OnOk, map};

use crate::gap::Gap;
use crate::knowing::is_known;
use crate::numbers::{Limits, number_limits};
use cmwq_types::NoMemory;
use std::alloc::Global;

/// What may stand at a place of a line.
#[derive(Drop)]
pub struct Offer<'t> {
    /// Words of the language, and names that lines before declare.
    pub words: Vec<&'t [u8]>,
    /// Whether a name that no line before declares may.
    pub new_name: bool,
    /// The numbers that may, if some do.
    pub limits: Option<Limits>,
    /// Whether the line may end there.
    pub may_end: bool,
}

/// What may stand at the place, of these known words, each of which is there once. It fails only for want of memory.
pub fn offer_at<'t>(alloc: Global, gap: &Gap<'_>, known: &[&'t [u8]]) -> Result<Offer<'t>, NoMemory>
    ensures { IfOk result (λ offer. IsOfferAt gap.now.line gap.now.front.now (map (λ word. word.now) known.now) offer) }
{
    let words = fitting_words(alloc, gap, known)?;
    let new_name = fits_new_name(alloc, gap, known)?;
    let limits = number_limits(alloc, gap)?;
    Ok(Offer {
        words,
        new_name,
        limits,
        may_end: gap.may_end(),
    })
}

/// Those of the words that fit the place.
fn fitting_words<'t>(
    alloc: Global,
    gap: &Gap<'_>,
    known: &[&'t [u8]],
) -> Result<Vec<&'t [u8]>, NoMemory>
    ensures { IfOk result (λ words. map (λ word. word.now) words.items
        ≡ filter (fits gap.now.line gap.now.front.now) (map (λ word. word.now) known.now)) }
{
    let mut words = Vec::new(alloc);
    for word in known {
        push_fitting(alloc, gap, &mut words, *word)?;
    }
    Ok(words)
}

/// Adds the word, if it fits the place.
fn push_fitting<'t>(
    alloc: Global,
    gap: &Gap<'_>,
    words: &mut Vec<&'t [u8]>,
    word: &'t [u8],
) -> Result<(), NoMemory>
    ensures { OnOk result (map (λ word. word.now) words.new.items
        ≡ map (λ word. word.now) words.old.items ++ word_if (fits gap.now.line gap.now.front.now word.now) word.now) }
{
    if gap.fits(alloc, word)? {
        words.push(word)?;
    }
    Ok(())
}

/// Whether a name that isn't among these words fits the place.
fn fits_new_name(alloc: Global, gap: &Gap<'_>, known: &[&[u8]]) -> Result<bool, NoMemory>
    ensures { IfOk result (λ fits. fits ≡ new_name_fits gap.now.line gap.now.front.now (unknown_name (map (λ word. word.now) known.now))) }
{
    let Some(number) = unknown_name(alloc, known)? else {
        return Ok(false);
    };
    let name = numbered_name(alloc, number)?;
    gap.fits(alloc, &name)
}

/// The number of a name that isn't among these words.
fn unknown_name(alloc: Global, known: &[&[u8]]) -> Result<Option<usize>, NoMemory>
    ensures { IfOk result (λ number. number ≡ unknown_name (map (λ word. word.now) known.now)) }
{
    for number in 0..known.len() + 1 {
        if !is_name_known(alloc, known, number)? {
            return Ok(Some(number));
        }
    }
    Ok(None)
}

/// Whether the name of this number is among these words.
fn is_name_known(alloc: Global, known: &[&[u8]], number: usize) -> Result<bool, NoMemory>
    ensures { IfOk result (λ known_it. known_it ≡ is_known (map (λ word. word.now) known.now) (numbered_name number)) }
{
    let name = numbered_name(alloc, number)?;
    Ok(is_known(known, &name))
}

/// The name of this number.
fn numbered_name(alloc: Global, number: usize) -> Result<Vec<u8>, NoMemory>
    ensures { IfOk result (λ name. name.items ≡ numbered_name number) }
{
    Ok(format!(in alloc; "n{number}")?.into_bytes())
}
