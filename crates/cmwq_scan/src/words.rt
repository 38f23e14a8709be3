//! Words, one at a time from the front of what is left of a line.
ghost use Rattle.cmwq_scan.specs.Words.{words_left};
ghost use Rattle.std.specs.Prelude.{◌≡◌, ◌∷◌, ◌<◌, [], IfSome, MatchOption, length};
ghost use Rattle.std.specs.Str.{bytes_eq};

use crate::cutting::{cut_at_blank, next_low};
use crate::equality::is_same;
use crate::lanes::{LANES, run_before_blank};

/// The next word, and what is left behind it; `None` where no word is left.
#[inline(always)]
pub fn next_word<'t>(rest: &'t [u8]) -> Option<(&'t [u8], &'t [u8])>
    ensures words { MatchOption result
        (words_left rest.now ≡ [])
        (λ found. words_left rest.now ≡ found.0.now ∷ words_left found.1.now) }
    ensures shorter { IfSome result (λ found. length found.1.now < length rest.now) }
{
    match front_word(rest) {
        Some(found) => Some(found),
        None => spaced_word(rest),
    }
}

/// The word that stands at the very front, if it and a blank are among the bytes that are looked at together, or, where fewer are left, if a space is
/// right behind it.
#[inline(always)]
fn front_word<'t>(rest: &'t [u8]) -> Option<(&'t [u8], &'t [u8])>
    ensures words { IfSome result (λ found. words_left rest.now ≡ found.0.now ∷ words_left found.1.now) }
    ensures shorter { IfSome result (λ found. length found.1.now < length rest.now) }
{
    if rest.len() < LANES {
        return short_word(rest);
    }
    let run = run_before_blank(rest, 0);
    if run == 0 || run == LANES {
        return None;
    }
    Some((&rest[..run], &rest[run + 1..]))
}

/// The word that stands at the very front of few bytes, if a space is right behind it. They are looked at one by one, and the first that is a space
/// or lower ends the search.
#[inline(always)]
#[tactic(auto, using(crate::proofs::TokenLemmas::spaced_front))]
fn short_word<'t>(rest: &'t [u8]) -> Option<(&'t [u8], &'t [u8])>
    ensures words { IfSome result (λ found. words_left rest.now ≡ found.0.now ∷ words_left found.1.now) }
    ensures shorter { IfSome result (λ found. length found.1.now < length rest.now) }
{
    let end = next_low(rest, 0);
    if end == 0 || end == rest.len() || rest[end] != b' ' {
        return None;
    }
    Some((&rest[..end], &rest[end + 1..]))
}

/// The next word, whatever stands before and behind it, and what is left behind it.
#[inline(never)]
fn spaced_word<'t>(rest: &'t [u8]) -> Option<(&'t [u8], &'t [u8])>
    ensures words { MatchOption result
        (words_left rest.now ≡ [])
        (λ found. words_left rest.now ≡ found.0.now ∷ words_left found.1.now) }
    ensures shorter { IfSome result (λ found. length found.1.now < length rest.now) }
{
    let mut left = Some(rest);
    while let Some(part) = left {
        let (word, behind) = cut_at_blank(part);
        if !word.is_empty() {
            return match behind {
                Some(behind) => Some((word, behind)),
                None => Some((word, &[])),
            };
        }
        left = behind;
    }
    None
}

/// Whether the word is this one.
#[inline(always)]
pub fn is_word(word: &[u8], wanted: &[u8]) -> bool
    ensures { result ≡ bytes_eq word.now wanted.now }
{
    is_same(word, wanted)
}
