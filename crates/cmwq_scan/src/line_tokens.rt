//! The words of a line, each with its column.
ghost use Rattle.cmwq_grammar.specs.Cutting.{words_of};
ghost use Rattle.cmwq_grammar.specs.LineFields.{number_within};
ghost use Rattle.cmwq_scan.specs.Answers.{Tells};
ghost use Rattle.cmwq_scan.specs.LastFields.{last};
ghost use Rattle.cmwq_scan.specs.Words.{IsBefore, StandsIn, word_if_filled, words_in, worded_part};
ghost use Rattle.std.specs.List.{All, AllPairs};
ghost use Rattle.std.specs.Prelude.{◌≡◌, ◌++◌, ◌≤◌, IfOk, OnOk};

use crate::cutting::{cut_at_blank, worded_part};
use crate::numbers::number_of;
use cmwq_grammar::Why;
use cmwq_types::{Fault, NoMemory};
use smallvec::SmallVec;
use std::marker::Model;

/// A word of a line.
#[derive(Default, Drop)]
pub struct Token<'t> {
    bytes: &'t [u8],
    column: usize,
}

impl<'t> Model for Token<'t> {
    ghost use Rattle.cmwq_scan.specs.Words.{Word};

    ghost Value = { Word };

    ghost view = { λ t. record { bytes = t.bytes.now; column = t.column } };
}

impl<'t> Token<'t> {
    /// The word's bytes.
    pub fn bytes(&self) -> &'t [u8]
        ensures { result.now ≡ self.now.bytes }
    {
        self.bytes
    }

    /// The column of its first byte, from 1. A tab counts as one, as every byte does.
    pub fn column(&self) -> usize
        ensures { result ≡ self.now.column }
    {
        self.column
    }
}

/// The words of a line. Ten of them need no allocation: no good line has more, as `queue NAME max N` with six flags has ten, and
/// no command of the debugger has more than five.
pub type Tokens<'t> = SmallVec<Token<'t>, 10>;

/// Leaves the words of the line in the list, and nothing else.
pub fn read_tokens<'t>(tokens: &mut Tokens<'t>, line: &'t [u8]) -> Result<(), NoMemory>
    ensures words { OnOk result (words_in tokens.new.items ≡ words_of line.now) }
    // Each word stands at its column, and they stand in order; none stands in a comment.
    ensures columns { OnOk result (All (StandsIn (worded_part line.now)) tokens.new.items) }
    ensures order { OnOk result (AllPairs IsBefore tokens.new.items) }
{
    tokens.clear();
    let mut before = 0;
    let mut rest = Some(worded_part(line));
    while let Some(part) = rest {
        let (bytes, behind) = cut_at_blank(part);
        push_filled(tokens, bytes, before + 1)?;
        before += bytes.len() + 1;
        rest = behind;
    }
    Ok(())
}

/// Adds the word at this column, unless it is empty.
fn push_filled<'t>(tokens: &mut Tokens<'t>, bytes: &'t [u8], column: usize) -> Result<(), NoMemory>
    ensures { OnOk result (tokens.new.items
        ≡ tokens.old.items ++ word_if_filled (record { bytes = bytes.now; column = column })) }
{
    if !bytes.is_empty() {
        tokens.push(Token { bytes, column })?;
    }
    Ok(())
}

/// The number that these words are, from 0 to `high`, or why they aren't one.
#[tactic(auto, unfolding(cmwq_grammar::specs::LineFields::word_at, cmwq_grammar::specs::LineFields::number_at, cmwq_grammar::specs::LineFields::number_where, cmwq_grammar::specs::LineFields::ended))]
pub fn number_in(words: &[Token], high: u32) -> Result<u32, Why>
    ensures number { Tells (λ n. n) result (last (number_within 0 high (words_in words.now))) }
    ensures within { IfOk result (λ n. n ≤ high) }
{
    let [word, rest @ ..] = words else {
        return Err(Why::MissingWord);
    };
    let Some(number) = number_of(word.bytes()) else {
        return Err(Why::BadNumber);
    };
    if number > u64::from(high) {
        return Err(Why::Fault(Fault::Range));
    }
    if !rest.is_empty() {
        return Err(Why::ExtraWord);
    }
    Ok(number as u32)
}
