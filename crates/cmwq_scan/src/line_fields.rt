//! The fields of a line. Each is taken off the front of what is left of the line: its value and what is
//! left behind it, or why it isn't there.
ghost use Rattle.cmwq_scan.specs.Answers.{Tells};
ghost use Rattle.cmwq_scan.specs.LastFields.{last};
ghost use Rattle.cmwq_scan.specs.Words.{words_left};
ghost use Rattle.cmwq_grammar.specs.LineFields.{after_word, declared_at, ended, name_at, new_name_at, number_at, number_where, word_at};
ghost use Rattle.cmwq_types.specs.Faults.{within};
ghost use Rattle.cmwq_types.specs.Name.{is_name};
ghost use Rattle.std.specs.List.{list_any};
ghost use Rattle.std.specs.Prelude.{◌≡◌, if◌then◌else◌, IfOk, false, length, nat_lt, ◌<◌, ◌≤◌};
ghost use Rattle.std.specs.Str.{bytes_eq};

use crate::naming::{Named, Names};
use crate::numbers::{front_number, number_of};
use crate::words::{is_word, next_word};
use cmwq_grammar::Why;
use cmwq_types::{Fault, Name};

/// A field's value, and what is left of the line behind it.
pub type Field<'t, T> = Result<(T, &'t [u8]), Why>;

/// The next word.
#[tactic(auto, unfolding(cmwq_grammar::specs::LineFields::word_at))]
fn take_word<'t>(rest: &'t [u8]) -> Field<'t, &'t [u8]>
    ensures { Tells (λ field. (field.0.now, words_left field.1.now)) result (word_at (words_left rest.now)) }
{
    match next_word(rest) {
        Some(found) => Ok(found),
        None => Err(Why::MissingWord),
    }
}

/// The value, if no word is left.
#[tactic(auto, unfolding(cmwq_grammar::specs::LineFields::ended))]
pub fn ended<T: Drop>(value: T, rest: &[u8]) -> Result<T, Why>
    ensures told { Tells (λ found. found) result (ended value (words_left rest.now)) }
    ensures same { IfOk result (λ found. found ≡ value) }
{
    if rest.is_empty() {
        return Ok(value);
    }
    match next_word(rest) {
        Some(_) => Err(Why::ExtraWord),
        None => Ok(value),
    }
}

/// A name.
#[tactic(auto, unfolding(cmwq_grammar::specs::LineFields::name_at))]
fn take_name<'t>(rest: &'t [u8]) -> Field<'t, Named<'t>>
    ensures { Tells (λ field. (field.0, words_left field.1.now)) result (name_at (words_left rest.now)) }
{
    let (bytes, rest) = take_word(rest)?;
    match Name::read(bytes) {
        Some(name) => Ok((Named::new(name, bytes), rest)),
        None => Err(Why::BadName),
    }
}

/// A name that isn't among these yet.
#[tactic(auto, unfolding(cmwq_grammar::specs::LineFields::new_name_at))]
pub fn take_new_name<'t>(names: &Names, rest: &'t [u8]) -> Field<'t, Named<'t>>
    ensures name { Tells (λ field. (field.0, words_left field.1.now)) result (new_name_at names.now (words_left rest.now)) }
    ensures new { IfOk result (λ field. list_any (λ other. bytes_eq other field.0) names.now ≡ false) }
{
    let (name, rest) = take_name(rest)?;
    if names.contains(&name) {
        return Err(Why::Fault(Fault::Duplicate));
    }
    Ok((name, rest))
}

/// The number of a name that is among these.
#[inline(always)]
#[tactic(auto, unfolding(cmwq_grammar::specs::LineFields::declared_at, cmwq_grammar::specs::LineFields::name_at))]
pub fn take_declared<'t>(names: &Names, rest: &'t [u8]) -> Field<'t, usize>
    ensures number { Tells (λ field. (field.0, words_left field.1.now)) result (declared_at names.now (words_left rest.now)) }
    ensures within { IfOk result (λ field. field.0 < length names.now) }
{
    let (word, rest) = take_word(rest)?;
    match names.number_of(word) {
        Some(number) => Ok((number, rest)),
        None => Err(not_declared(word)),
    }
}

/// The reason against a word that is the name of nothing.
fn not_declared(word: &[u8]) -> Why
    ensures { result ≡ (if is_name word.now then Why.Fault Fault.Unknown else Why.BadName) }
{
    if Name::read(word).is_some() {
        Why::Fault(Fault::Unknown)
    } else {
        Why::BadName
    }
}

/// A number: `0`, or 1 to 10 digits of which the first isn't `0`.
#[inline(always)]
pub fn take_number<'t>(rest: &'t [u8]) -> Field<'t, u64>
    ensures { Tells (λ field. (field.0, words_left field.1.now)) result (number_at (words_left rest.now)) }
{
    match front_number(rest) {
        Some(found) => Ok(found),
        None => take_number_word(rest),
    }
}

/// A number, whatever stands before it.
#[cold]
#[inline(never)]
#[tactic(auto, unfolding(cmwq_grammar::specs::LineFields::number_at))]
fn take_number_word<'t>(rest: &'t [u8]) -> Field<'t, u64>
    ensures { Tells (λ field. (field.0, words_left field.1.now)) result (number_at (words_left rest.now)) }
{
    let (word, rest) = take_word(rest)?;
    match number_of(word) {
        Some(number) => Ok((number, rest)),
        None => Err(Why::BadNumber),
    }
}

/// A number from `low` to `high`, both included.
#[inline(always)]
#[tactic(auto, unfolding(cmwq_grammar::specs::LineFields::number_where))]
pub fn take_number_within<'t>(low: u32, high: u32, rest: &'t [u8]) -> Field<'t, u32>
    ensures number { Tells (λ field. (field.0, words_left field.1.now)) result (number_where (within low high) (words_left rest.now)) }
    ensures within { IfOk result (λ field. field.0 ≤ high) }
{
    let Some((number, rest)) = front_number(rest) else {
        return take_word_within(low, high, rest);
    };
    if number < u64::from(low) || number > u64::from(high) {
        return Err(Why::Fault(Fault::Range));
    }
    Ok((number as u32, rest))
}

/// A number from `low` to `high`, both included, whatever stands before it.
#[cold]
#[inline(never)]
#[tactic(auto, unfolding(cmwq_grammar::specs::LineFields::number_where))]
fn take_word_within<'t>(low: u32, high: u32, rest: &'t [u8]) -> Field<'t, u32>
    ensures number { Tells (λ field. (field.0, words_left field.1.now)) result (number_where (within low high) (words_left rest.now)) }
    ensures within { IfOk result (λ field. field.0 ≤ high) }
{
    let (number, rest) = take_number_word(rest)?;
    if number < u64::from(low) || number > u64::from(high) {
        return Err(Why::Fault(Fault::Range));
    }
    Ok((number as u32, rest))
}

/// The number of a name that is among these, in a line's last word.
pub fn take_last_declared(names: &Names, rest: &[u8]) -> Result<usize, Why>
    ensures number { Tells (λ n. n) result (last (declared_at names.now (words_left rest.now))) }
    ensures within { IfOk result (λ n. n < length names.now) }
{
    let (number, rest) = take_declared(names, rest)?;
    ended(number, rest)
}

/// A name that isn't among these yet, in a line's last word.
pub fn take_last_new_name<'t>(names: &Names, rest: &'t [u8]) -> Result<Named<'t>, Why>
    ensures name { Tells (λ name. name) result (last (new_name_at names.now (words_left rest.now))) }
    ensures new { IfOk result (λ name. list_any (λ other. bytes_eq other name) names.now ≡ false) }
{
    let (name, rest) = take_new_name(names, rest)?;
    ended(name, rest)
}

/// A number from `low` to `high`, both included, in a line's last word.
#[inline(always)]
pub fn take_last_number_within(low: u32, high: u32, rest: &[u8]) -> Result<u32, Why>
    ensures number { Tells (λ n. n) result (last (number_where (within low high) (words_left rest.now))) }
    ensures within { IfOk result (λ n. n ≤ high) }
{
    let (number, rest) = take_number_within(low, high, rest)?;
    ended(number, rest)
}

/// A number below the limit, in a line's last word.
#[tactic(auto, unfolding(cmwq_grammar::specs::LineFields::number_where))]
pub fn take_last_number_below(limit: u8, rest: &[u8]) -> Result<u8, Why>
    ensures { Tells (λ n. n) result (last (number_where (λ n. nat_lt n limit) (words_left rest.now))) }
{
    let (number, rest) = take_number(rest)?;
    if number >= u64::from(limit) {
        return Err(Why::Fault(Fault::Range));
    }
    ended(number as u8, rest)
}

/// What is left behind this word, which must stand here.
#[tactic(auto, unfolding(cmwq_grammar::specs::LineFields::after_word))]
pub fn take_keyword<'t>(wanted: &[u8], rest: &'t [u8]) -> Result<&'t [u8], Why>
    ensures { Tells (λ rest. words_left rest.now) result (after_word wanted.now (words_left rest.now)) }
{
    let (word, rest) = take_word(rest)?;
    if !is_word(word, wanted) {
        return Err(Why::BadWord);
    }
    Ok(rest)
}
