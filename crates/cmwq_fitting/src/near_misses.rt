//! Which word is meant by one that doesn't fit.
ghost use Rattle.cmwq_fitting.specs.NearMisses.{if_near, is_near, near_miss, plain_form, small_letter, without_prefix};
ghost use Rattle.std.specs.Prelude.{◌≡◌, ◌<◌, IfOk, IfSome, length, map};

use crate::nearness::{apart, nearest};
use cmwq_types::NoMemory;
use std::alloc::Global;

/// Which of the words is the nearest to this one, where at most half of the letters are apart. Capitals count as small letters, and the `WQ_` of a
/// kernel's flags doesn't count. It fails only for want of memory.
pub(crate) fn near_miss(
    alloc: Global,
    words: &[&[u8]],
    word: &[u8],
) -> Result<Option<usize>, NoMemory>
    ensures miss { IfOk result (λ miss. miss ≡ near_miss (map (λ word. word.now) words.now) word.now) }
    ensures in_range { IfOk result (λ miss. IfSome miss (λ k. k < length words.now)) }
{
    let plain = plain_form(alloc, word)?;
    Ok(if_near(words, &plain, nearest(words, &plain)))
}

/// The word in small letters, without the `WQ_` of a kernel's flags.
pub(crate) fn plain_form(alloc: Global, word: &[u8]) -> Result<Vec<u8>, NoMemory>
    ensures { IfOk result (λ plain. plain.items ≡ plain_form word.now) }
{
    let small = small_letters(alloc, word)?;
    Ok(Vec::from_slice(alloc, without_prefix(&small))?)
}

/// The word of this number, where it is near to the other.
fn if_near(words: &[&[u8]], word: &[u8], number: Option<usize>) -> Option<usize>
    requires { IfSome number (λ k. k < length words.now) }
    ensures near { result ≡ if_near (map (λ word. word.now) words.now) word.now number }
    ensures in_range { IfSome result (λ k. k < length words.now) }
{
    match number {
        Some(k) if is_near(word, words[k]) => Some(k),
        _ => None,
    }
}

/// Whether at most half of the longer word's letters are apart.
fn is_near(word: &[u8], other: &[u8]) -> bool
    ensures { result ≡ is_near word.now other.now }
{
    let longer = word.len().max(other.len());
    let apart = apart(word, other);
    apart <= longer && apart <= longer - apart
}

/// The word in small letters.
fn small_letters(alloc: Global, word: &[u8]) -> Result<Vec<u8>, NoMemory>
    ensures { IfOk result (λ small. small.items ≡ map small_letter word.now) }
{
    let mut small = Vec::new(alloc);
    for byte in word {
        small.push(small_letter(*byte))?;
    }
    Ok(small)
}

fn small_letter(byte: u8) -> u8
    ensures { result ≡ small_letter byte }
{
    match byte {
        b'A'..=b'Z' => byte + 32,
        _ => byte,
    }
}

/// The word without the `wq_` that it may begin with.
fn without_prefix(word: &[u8]) -> &[u8]
    ensures { result.now ≡ without_prefix word.now }
{
    match word {
        [b'w', b'q', b'_', rest @ ..] => rest,
        _ => word,
    }
}
