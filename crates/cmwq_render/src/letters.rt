//! The letters by which the text of a picture calls works.
ghost use Rattle.cmwq_render.specs.Letters.{alphabet, begins_another, begins_with, candidates, free_letter, is_free, is_letter, is_no_sign, is_spare, letter_of, letter_shown, letters, letters_from, unless_name};
ghost use Rattle.std.specs.List.{filter, find, list_any};
ghost use Rattle.std.specs.Prelude.{◌≡◌, ◌==◌, ◌<◌, ◌++◌, IfOk, IfSome, IsTrue, OnOk, not};

use crate::sketching::sign_mark;
use cmwq_picture::{Sign, Title};
use cmwq_types::{NoMemory, Scenario, WorkDecl};
use std::alloc::Global;

/// The letters that there are, from the first to be given on. The last one is also the sign of an inactive work.
const ALPHABET: &[u8; 62] = b"abcdefghijklmnopqrstuvwyzABCDEFGHIJKLMNOPQRSTUVWXYZ0123456789x";

/// A letter or digit of its own for each work, by number: where no other work's name begins so a letter of its name, else another one;
/// none where there are more than 62 works.
pub(crate) fn letters(alloc: Global, scenario: &Scenario) -> Result<Vec<u8>, NoMemory>
    ensures letters { IfOk result (λ given. given.items ≡ letters scenario.now) }
{
    let mut given = Vec::new(alloc);
    if scenario.works.len() <= ALPHABET.len() {
        for (w, work) in scenario.works.iter().enumerate() {
            let letter = letter_of(alloc, &scenario.works, w, work.name.as_bytes(), &given)?;
            given.push(letter)?;
        }
    }
    Ok(given)
}

/// The letter of the work, where others were given these.
fn letter_of(
    alloc: Global,
    works: &[WorkDecl],
    w: usize,
    name: &[u8],
    given: &[u8],
) -> Result<u8, NoMemory>
    ensures { IfOk result (λ letter. letter ≡ letter_of works.now w name.now given.now) }
{
    let candidates = candidates(alloc, works, w, name)?;
    Ok(free_letter(&candidates, given))
}

/// The first of these that none was given yet.
fn free_letter(candidates: &[u8], given: &[u8]) -> u8
    ensures { result ≡ free_letter (find (is_free given.now) candidates.now) }
{
    for letter in candidates {
        if is_free(given, *letter) {
            return *letter;
        }
    }
    b'?'
}

/// What the work could be called by, the best first.
fn candidates(alloc: Global, works: &[WorkDecl], w: usize, name: &[u8]) -> Result<Vec<u8>, NoMemory>
    ensures { IfOk result (λ found. found.items ≡ candidates works.now w name.now) }
{
    let mut found = Vec::new(alloc);
    push_spare(&mut found, works, w, name)?;
    push_spare(&mut found, works, w, ALPHABET)?;
    found.extend_from_slice(ALPHABET)?;
    Ok(found)
}

/// Pushes the spare ones of these letters.
fn push_spare(
    found: &mut Vec<u8>,
    works: &[WorkDecl],
    w: usize,
    letters: &[u8],
) -> Result<(), NoMemory>
    ensures { OnOk result (found.new.items ≡ found.old.items ++ filter (is_spare works.now w) letters.now) }
{
    for letter in letters {
        if is_spare(works, w, *letter) {
            found.push(*letter)?;
        }
    }
    Ok(())
}

/// Returns whether the letter is no sign and begins no other work's name.
fn is_spare(works: &[WorkDecl], w: usize, letter: u8) -> bool
    ensures { result ≡ is_spare works.now w letter }
{
    is_no_sign(letter) && !begins_another(works, w, letter)
}

/// Returns whether the letter stands for no sign.
fn is_no_sign(letter: u8) -> bool
    ensures { result ≡ is_no_sign letter }
{
    letter != sign_mark(Sign::Inactive)
}

/// Whether a work's name, but for this one's, begins with the letter.
fn begins_another(works: &[WorkDecl], w: usize, letter: u8) -> bool
    ensures { result ≡ begins_another w letter 0 works.now }
{
    for (at, work) in works.iter().enumerate() {
        if at != w && begins_with(work.name.as_bytes(), letter) {
            return true;
        }
    }
    false
}

/// Whether the name begins with the letter.
fn begins_with(name: &[u8], letter: u8) -> bool
    ensures { result ≡ begins_with letter name.now }
{
    match name.first() {
        Some(first) => *first == letter,
        None => false,
    }
}

/// The letter that is shown in front of the row, where the works have these: of a work whose name is its letter none.
pub(crate) fn letter_shown(scenario: &Scenario, letters: &[u8], title: Title) -> Option<u8>
    ensures { result ≡ letter_shown scenario.now letters.now title }
{
    match title {
        Title::Work(work) | Title::Pending(work) => {
            let w = work.0 as usize;
            unless_name(scenario.work_name_bytes(w), letters.get(w).copied())
        }
        _ => None,
    }
}

/// The letter, unless it is the name.
fn unless_name(name: &[u8], letter: Option<u8>) -> Option<u8>
    ensures { result ≡ unless_name name.now letter }
{
    match letter {
        Some(letter) if !(name.len() == 1 && begins_with(name, letter)) => Some(letter),
        _ => None,
    }
}

fn is_free(given: &[u8], letter: u8) -> bool
    ensures { result ≡ is_free given.now letter }
{
    is_letter(letter) && !is_among(given, letter)
}

fn is_letter(letter: u8) -> bool
    ensures { result ≡ is_letter letter }
{
    is_among(ALPHABET, letter)
}

fn is_among(letters: &[u8], letter: u8) -> bool
    ensures { result ≡ list_any (λ other. other == letter) letters.now }
{
    letters.iter().any(|other| *other == letter)
}
