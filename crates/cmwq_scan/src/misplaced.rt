//! The reason against a line whose first word can't stand where it is.
ghost use Rattle.cmwq_scan.specs.Refusals.{refusal_of};
ghost use Rattle.cmwq_grammar.specs.Instructions.{first_words};
ghost use Rattle.cmwq_types.specs.Mnemonics.{mnemonics, spelling};
ghost use Rattle.std.specs.List.{list_any};
ghost use Rattle.std.specs.Prelude.{◌≡◌, map};
ghost use Rattle.std.specs.Str.{bytes_eq};

use crate::words::is_word;
use cmwq_grammar::Why;
use cmwq_types::Mnemonic;

/// The words that lines begin with, but for those of instructions.
const OTHER_WORDS: [&[u8]; 10] = [
    b"cpus", b"workers", b"steps", b"flushes", b"work", b"body", b"burn", b"sleep", b"finish",
    b"actor",
];

/// The reason, if some line begins with the word; else that none does.
#[tactic(auto, unfolding(crate::specs::Refusals::refusal_of))]
pub fn refusal_of(reason: Why, word: &[u8]) -> Why
    ensures { result ≡ refusal_of reason word.now }
{
    if begins_lines(word) {
        reason
    } else {
        Why::BadWord
    }
}

#[tactic(auto, using(crate::proofs::FirstWords::first_words_are))]
fn begins_lines(word: &[u8]) -> bool
    ensures { result ≡ list_any (bytes_eq word.now) first_words }
{
    is_among(word, &OTHER_WORDS) || names_instr(word)
}

#[tactic(auto, using(crate::proofs::FirstWords::spelled_by_one))]
fn names_instr(word: &[u8]) -> bool
    ensures { result ≡ list_any (bytes_eq word.now) (map spelling mnemonics) }
{
    Mnemonic::read(word).is_some()
}

fn is_among(word: &[u8], words: &[&[u8]]) -> bool
    ensures { result ≡ list_any (λ other. bytes_eq word.now other.now) words.now }
{
    words.iter().any(|other| is_word(word, other))
}
