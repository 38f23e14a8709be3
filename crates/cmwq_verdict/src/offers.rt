//! Which words a line may begin with in a fault's place.
ghost use Rattle.cmwq_grammar.specs.FaultLaw.{IsFault};
ghost use Rattle.cmwq_grammar.specs.Meaning.{fault_at};
ghost use Rattle.cmwq_grammar.specs.declared.why.Why.{Why};
ghost use Rattle.cmwq_verdict.specs.OfferLines.{IsNextAt, offer_line, spelled};
ghost use Rattle.std.specs.List.{flat_map};
ghost use Rattle.std.specs.Prelude.{◌≡◌, ◌≢◌, ◌++◌, ◌∷◌, IfOk, OnOk, codes, map};

use crate::first_words::FirstWord;
use crate::places::line_start;
use crate::writing::{push_between, push_bytes};
use cmwq_asm::{AsmError, next_after};
use cmwq_grammar::Next;
use cmwq_types::NoMemory;
use std::alloc::Global;

/// What a line may be in the place of the text's first fault, which is in this line, counted from 1, or behind the last one: just what some
/// scenario's text goes on with after the lines before. It fails only for want of memory.
pub(crate) fn next_at(alloc: Global, text: &[u8], line: u32) -> Result<Next, NoMemory>
    requires line { line ≢ 0 }
    requires fault { (why : Why) × IsFault text.now (fault_at line why) }
    ensures { IfOk result (λ next. IsNextAt text.now line next) }
{
    let start = line_start(text, line - 1);
    let front = text.split_at(start).0;
    match next_after(alloc, front) {
        Ok(next) => Ok(next),
        Err(AsmError::NoMemory) => Err(NoMemory),
        Err(AsmError::At { .. }) => unreachable!(),
    }
}

/// Writes the line that offers these words.
pub(crate) fn push_offered(told: &mut Vec<u8>, words: &[FirstWord]) -> Result<(), NoMemory>
    ensures { OnOk result (told.new.items ≡ told.old.items ++ offer_line (map spelled words.now)) }
{
    match words {
        [] => push_bytes(told, b"  no line may follow\n"),
        [word, others @ ..] => push_word_and_others(told, word.as_bytes(), others),
    }
}

/// Writes the line that offers the word and these others.
fn push_word_and_others(
    told: &mut Vec<u8>,
    word: &[u8],
    others: &[FirstWord],
) -> Result<(), NoMemory>
    ensures { OnOk result (told.new.items ≡ told.old.items ++ offer_line (word.now ∷ map spelled others.now)) }
{
    push_between(told, b"  a line here may begin with: ", word, b"")?;
    push_other_words(told, others)?;
    push_bytes(told, b"\n")
}

/// Writes the words behind the first.
fn push_other_words(told: &mut Vec<u8>, others: &[FirstWord]) -> Result<(), NoMemory>
    ensures { OnOk result (told.new.items ≡ told.old.items ++ flat_map (λ other. codes ", " ++ other) (map spelled others.now)) }
{
    for other in others {
        push_between(told, b", ", other.as_bytes(), b"")?;
    }
    Ok(())
}
