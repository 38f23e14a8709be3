//! The words that can be told of: those of the language, and the names that lines declare.
ghost use Rattle.cmwq_fitting.specs.KnownWords.{and_known, begins_max, body_opened, fixed_words, is_declaration, is_known, known_words, last_body, name_declared};
ghost use Rattle.cmwq_scan.specs.Words.{words_in};
ghost use Rattle.std.specs.List.{list_any};
ghost use Rattle.std.specs.Prelude.{◌≡◌, IfOk, OnOk, map, option_map};
ghost use Rattle.std.specs.Str.{bytes_eq};

use cmwq_scan::{Token, Tokens, is_word, next_line, read_tokens};
use cmwq_types::NoMemory;
use std::alloc::Global;

/// The words that the text knows, each once: `max`, the flags and `*`, and the names of queues, works and actors as they are declared. It fails only
/// for want of memory.
pub fn known_words<'t>(alloc: Global, text: &'t [u8]) -> Result<Vec<&'t [u8]>, NoMemory>
    ensures { IfOk result (λ known. map (λ word. word.now) known.items ≡ known_words text.now) }
{
    let mut known = fixed_words(alloc)?;
    let mut words = Tokens::new(alloc);
    let mut rest = text;
    while let Some((line, behind)) = next_line(rest) {
        read_tokens(&mut words, line)?;
        add_known(&mut known, name_declared(&words))?;
        rest = behind;
    }
    Ok(known)
}

/// What stands behind a line's first word and is neither a name nor a number.
fn fixed_words<'t>(alloc: Global) -> Result<Vec<&'t [u8]>, NoMemory>
    ensures { IfOk result (λ known. map (λ word. word.now) known.items ≡ fixed_words) }
{
    let words: [&'t [u8]; 8] = [
        b"max",
        b"highpri",
        b"unbound",
        b"cpu_intensive",
        b"freezable",
        b"ordered",
        b"mem_reclaim",
        b"*",
    ];
    Ok(Vec::from_slice(alloc, &words)?)
}

/// Adds the word, if there is one, unless it is there.
fn add_known<'t>(known: &mut Vec<&'t [u8]>, word: Option<&'t [u8]>) -> Result<(), NoMemory>
    ensures { OnOk result (map (λ word. word.now) known.new.items
        ≡ and_known (map (λ word. word.now) known.old.items) (option_map (λ word. word.now) word.entry)) }
{
    if let Some(word) = word {
        if !is_known(known, word) {
            known.push(word)?;
        }
    }
    Ok(())
}

/// Whether the word is among these.
#[tactic(auto, using(crate::proofs::KnownLemmas::any_of_map))]
pub fn is_known(known: &[&[u8]], word: &[u8]) -> bool
    ensures { result ≡ is_known (map (λ word. word.now) known.now) word.now }
{
    is_any(known, word)
}

/// Whether the word is any of these.
fn is_any(words: &[&[u8]], word: &[u8]) -> bool
    ensures { result ≡ list_any (λ other. bytes_eq word.now other.now) words.now }
{
    words.iter().any(|other| is_word(word, *other))
}

/// The name that a line of these words declares, if it declares one.
fn name_declared<'t>(words: &[Token<'t>]) -> Option<&'t [u8]>
    ensures { option_map (λ name. name.now) result ≡ name_declared (words_in words.now) }
{
    match words {
        [first, name, behind @ ..] if is_declaration(first.bytes(), behind) => Some(name.bytes()),
        _ => None,
    }
}

/// Whether a line declares its second word: a work's, an actor's, or a queue's, whose third word is `max`.
fn is_declaration(first: &[u8], behind: &[Token<'_>]) -> bool
    ensures { result ≡ is_declaration first.now (words_in behind.now) }
{
    is_word(first, b"work")
        || (is_word(first, b"actor") || (is_word(first, b"queue") && begins_max(behind)))
}

fn begins_max(words: &[Token<'_>]) -> bool
    ensures { result ≡ begins_max (words_in words.now) }
{
    match words {
        [] => false,
        [word, ..] => is_word(word.bytes(), b"max"),
    }
}

/// The name of the work whose body is the last that the text opens, if it opens one. It fails only for want of memory.
pub fn last_body<'t>(alloc: Global, text: &'t [u8]) -> Result<Option<&'t [u8]>, NoMemory>
    ensures { IfOk result (λ last. option_map (λ name. name.now) last ≡ last_body text.now) }
{
    let mut last = None;
    let mut words = Tokens::new(alloc);
    let mut rest = text;
    while let Some((line, behind)) = next_line(rest) {
        read_tokens(&mut words, line)?;
        if let Some(name) = body_opened(&words) {
            last = Some(name);
        }
        rest = behind;
    }
    Ok(last)
}

/// The name of the work whose body a line of these words opens, if it opens one.
fn body_opened<'t>(words: &[Token<'t>]) -> Option<&'t [u8]>
    ensures { option_map (λ name. name.now) result ≡ body_opened (words_in words.now) }
{
    match words {
        [first, name, ..] if is_word(first.bytes(), b"body") => Some(name.bytes()),
        _ => None,
    }
}
