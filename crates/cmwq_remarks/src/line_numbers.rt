//! The numbers of a text's lines.
ghost use Rattle.cmwq_grammar.specs.Cutting.{is_empty, lines_of, words_of, worded};
ghost use Rattle.cmwq_remarks.specs.LineNumbers.{line_at, number_from, number_of_last};
ghost use Rattle.std.specs.Prelude.{◌≡◌, ◌≤◌, ◌<◌, ◌^◌, length, not};

use cmwq_scan::{next_line, next_word, worded_part};
use cmwq_types::Line;

/// The number, from 1, of the text's line that stands behind so many of the last lines with words, of which it has so many in all.
pub(crate) fn number_of_last(text: &[u8], count: usize, place: usize) -> usize
    requires { place < 2 ^ 32 }
    ensures { result ≡ number_of_last text.now count place }
{
    let before = count_worded(text).saturating_sub(count);
    number_from(text, before + place)
}

/// The number, from 1, of the text's line that has words and stands behind so many others of these.
fn number_from(text: &[u8], others: usize) -> usize
    ensures { result ≡ number_from 1 (lines_of text.now) others }
{
    let mut rest = text;
    let mut number = 1;
    let mut left = others;
    while let Some((line, behind)) = next_line(rest) {
        if has_words(line) {
            if left == 0 {
                return number;
            }
            left -= 1;
        }
        rest = behind;
        number += 1;
    }
    number
}

/// How many lines of the text have words.
pub(crate) fn count_worded(text: &[u8]) -> usize
    ensures count { result ≡ length (worded (lines_of text.now)) }
    ensures few { result ≤ length text.now }
{
    let mut rest = text;
    let mut count = 0;
    while let Some((line, behind)) = next_line(rest) {
        if has_words(line) {
            count += 1;
        }
        rest = behind;
    }
    count
}

/// Whether the line has words.
fn has_words(line: &[u8]) -> bool
    ensures { result ≡ not (is_empty (words_of line.now)) }
{
    next_word(worded_part(line)).is_some()
}

/// Which of the lines has the instruction at this place of a run.
pub(crate) fn line_at(lines: &[Line], place: u32) -> usize
    ensures at { result ≡ line_at lines.now place }
    ensures within { result ≤ length lines.now }
{
    let mut left = place;
    let mut number = 0;
    for line in lines {
        if left < line.times {
            return number;
        }
        left -= line.times;
        number += 1;
    }
    number
}
