//! Numbers, by their digits.
ghost use Rattle.cmwq_grammar.specs.LineFields.{is_number, number_at};
ghost use Rattle.cmwq_scan.specs.Numbers.{begins_well};
ghost use Rattle.cmwq_scan.specs.Words.{words_left};
ghost use Rattle.std.specs.Char.{is_ascii_digit};
ghost use Rattle.std.specs.List.{list_all};
ghost use Rattle.std.specs.Prelude.{◌≡◌, ◌↔◌, ◌<◌, ◌≤◌, IfSome, IsSome, IsTrue, Ok, false, length, slice_index, take};
ghost use Rattle.std.specs.Str.Parse.{digits_value};

use crate::cutting::is_blank;

/// A number has at most as many digits.
const MAX_DIGITS: usize = 10;

/// The byte of the digit 0.
const ZERO: u64 = 48;

/// The number that stands at the very front of what is left of a line, and what is left behind it. Where it
/// is `None`, a number may still stand behind blanks.
#[inline(always)]
pub(crate) fn front_number<'t>(rest: &'t [u8]) -> Option<(u64, &'t [u8])>
    ensures { IfSome result (λ found. number_at (words_left rest.now) ≡ Ok (found.0, words_left found.1.now)) }
{
    let (value, count) = leading_digits(rest);
    let (digits, behind) = (&rest[..count], &rest[count..]);
    if !begins_well(digits) {
        return None;
    }
    match behind {
        [] => Some((value, behind)),
        [byte, behind @ ..] if is_blank(*byte) => Some((value, behind)),
        _ => None,
    }
}

/// The number that the digits at the front write, and how many they are, up to ten.
#[inline(always)]
fn leading_digits(bytes: &[u8]) -> (u64, usize)
    ensures few { result.1 ≤ MAX_DIGITS }
    ensures there { result.1 ≤ length bytes.now }
    ensures digits { IsTrue (list_all is_ascii_digit (take result.1 bytes.now)) }
    ensures value { result.0 ≡ digits_value 10 (take result.1 bytes.now) }
    // Fewer than ten of them end at a byte that is no digit, or at the end.
    ensures all { result.1 < MAX_DIGITS → result.1 < length bytes.now → is_ascii_digit (slice_index bytes.now result.1) ≡ false }
{
    // A bound that is known lets the compiler write out the steps of its loop one by one.
    if bytes.len() < MAX_DIGITS {
        digits_before(bytes, bytes.len())
    } else {
        digits_before(bytes, MAX_DIGITS)
    }
}

/// The number that the digits at the front write, and how many they are, up to the end that is given.
#[inline(always)]
fn digits_before(bytes: &[u8], end: usize) -> (u64, usize)
    requires few { end ≤ MAX_DIGITS }
    requires there { end ≤ length bytes.now }
    ensures there { result.1 ≤ end }
    ensures digits { IsTrue (list_all is_ascii_digit (take result.1 bytes.now)) }
    ensures value { result.0 ≡ digits_value 10 (take result.1 bytes.now) }
    // Where they don't reach the end, they end at a byte that is no digit.
    ensures all { result.1 < end → is_ascii_digit (slice_index bytes.now result.1) ≡ false }
{
    let mut value = 0;
    for place in 0..end {
        let digit = u64::from(bytes[place]).wrapping_sub(ZERO);
        if digit > 9 {
            return (value, place);
        }
        value = value * 10 + digit;
    }
    (value, end)
}

/// The number that the word is.
pub(crate) fn number_of(word: &[u8]) -> Option<u64>
    ensures exact { IsSome result ↔ IsTrue (is_number word.now) }
    ensures number { IfSome result (λ n. n ≡ digits_value 10 word.now) }
{
    let (value, count) = leading_digits(word);
    if count == word.len() && begins_well(word) {
        Some(value)
    } else {
        None
    }
}

/// Whether there are digits, and no `0` stands before others.
fn begins_well(digits: &[u8]) -> bool
    ensures { result ≡ begins_well digits.now }
{
    match digits {
        [] | [b'0', _, ..] => false,
        _ => true,
    }
}
