//! Cutting: a text into its lines, and a line into its pieces between blanks.
ghost use Rattle.cmwq_grammar.specs.Cutting.{is_blank, is_hash, lines_of};
ghost use Rattle.cmwq_scan.specs.Words.{worded_part};
ghost use Rattle.memchr.specs.Find.{Nowhere, Passes};
ghost use Rattle.std.specs.List.{before_first, slice_split};
ghost use Rattle.std.specs.Prelude.{◌≡◌, ◌+◌, ◌<◌, ◌≤◌, ◌∷◌, ◌++◌, ◌==◌, ℕ, [], IfSome, IsTrue, MatchOption, Some, length, position};
ghost use Rattle.std.specs.Str.{is_utf8};
ghost use Rattle.std.specs.Str.Lines.{strip_carriage_return};

use crate::lanes::{LANES, WIDE, run_before, run_before_blank};
use memchr::memchr;

/// The first line of the text and what comes after its line feed, or `None` where there is no line. An
/// empty piece after the last line feed is no line.
pub fn next_line(text: &[u8]) -> Option<(&[u8], &[u8])>
    ensures lines { MatchOption result
        (lines_of text.now ≡ [])
        (λ line. lines_of text.now ≡ line.0.now ∷ lines_of line.1.now) }
    ensures shorter { IfSome result (λ line. length line.0.now + length line.1.now ≤ length text.now) }
    ensures ends { IfSome result (λ line. length line.1.now < length text.now) }
    // The lines of what is UTF-8 are so, each by itself.
    ensures utf8 { IfSome result (λ line. IsTrue (is_utf8 text.now) → IsTrue (is_utf8 line.0.now) × IsTrue (is_utf8 line.1.now)) }
{
    if text.is_empty() {
        return None;
    }
    match place_of(text, b'\n') {
        Some(place) => Some((&text[..place], &text[place + 1..])),
        None => Some((text, &[])),
    }
}

/// The part of a line that has its words: what stands before a `#`, less one carriage return at the
/// line's end.
pub fn worded_part(line: &[u8]) -> &[u8]
    ensures part { result.now ≡ worded_part line.now }
    ensures shorter { length result.now ≤ length line.now }
{
    let line = without_carriage_return(line);
    match place_of(line, b'#') {
        Some(place) => &line[..place],
        None => line,
    }
}

/// A line of a text.
#[derive(Drop)]
pub struct TextLine<'t> {
    pub line: &'t [u8],
    /// The part that has its words.
    pub worded: &'t [u8],
    /// What comes after its line feed.
    pub behind: &'t [u8],
}

/// The first line of the text, as `next_line` and `worded_part` cut it. Most lines are short, and the same bytes are then looked
/// through for the line feed and the `#`.
#[inline(always)]
pub fn next_text_line(text: &[u8]) -> Option<TextLine<'_>>
    ensures lines { MatchOption result
        (lines_of text.now ≡ [])
        (λ next. lines_of text.now ≡ next.line.now ∷ lines_of next.behind.now) }
    ensures worded { IfSome result (λ next. next.worded.now ≡ worded_part next.line.now) }
    ensures ends { IfSome result (λ next. length next.behind.now < length text.now) }
    // The lines of what is UTF-8 are so, each by itself.
    ensures utf8 { IfSome result (λ next. IsTrue (is_utf8 text.now) → IsTrue (is_utf8 next.line.now) × IsTrue (is_utf8 next.behind.now)) }
{
    match short_line(text) {
        Some(next) => Some(next),
        None => any_text_line(text),
    }
}

/// The first line of the text, however long it is.
#[inline(never)]
fn any_text_line(text: &[u8]) -> Option<TextLine<'_>>
    ensures lines { MatchOption result
        (lines_of text.now ≡ [])
        (λ next. lines_of text.now ≡ next.line.now ∷ lines_of next.behind.now) }
    ensures worded { IfSome result (λ next. next.worded.now ≡ worded_part next.line.now) }
    ensures ends { IfSome result (λ next. length next.behind.now < length text.now) }
    ensures utf8 { IfSome result (λ next. IsTrue (is_utf8 text.now) → IsTrue (is_utf8 next.line.now) × IsTrue (is_utf8 next.behind.now)) }
{
    let (line, behind) = next_line(text)?;
    let worded = worded_part(line);
    Some(TextLine {
        line,
        worded,
        behind,
    })
}

/// The first line of the text, if its line feed is among the first bytes that are looked at together.
#[inline(always)]
fn short_line(text: &[u8]) -> Option<TextLine<'_>>
    ensures lines { IfSome result (λ next. lines_of text.now ≡ next.line.now ∷ lines_of next.behind.now) }
    ensures worded { IfSome result (λ next. next.worded.now ≡ worded_part next.line.now) }
    ensures ends { IfSome result (λ next. length next.behind.now < length text.now) }
    ensures utf8 { IfSome result (λ next. IsTrue (is_utf8 text.now) → IsTrue (is_utf8 next.line.now) × IsTrue (is_utf8 next.behind.now)) }
{
    if text.len() < WIDE {
        return None;
    }
    let feed = run_before(b'\n', text);
    if feed == WIDE {
        return None;
    }
    let line = &text[..feed];
    let worded = before_hash(without_carriage_return(line), run_before(b'#', text));
    let behind = &text[feed + 1..];
    Some(TextLine {
        line,
        worded,
        behind,
    })
}

/// What stands before a `#`, the first of which stands at this place, unless the line ends before.
fn before_hash(line: &[u8], place: usize) -> &[u8]
    requires passed { Nowhere (λ k. (k < length line.now) × Passes is_hash line.now k) 0 place }
    requires there { place < length line.now → Passes is_hash line.now place }
    ensures { result.now ≡ before_first is_hash line.now }
{
    if place < line.len() {
        &line[..place]
    } else {
        line
    }
}

fn without_carriage_return(line: &[u8]) -> &[u8]
    ensures { result.now ≡ strip_carriage_return line.now }
{
    match line {
        [front @ .., b'\r'] => front,
        _ => line,
    }
}

/// What stands before the first blank, and what stands behind it, if there is a blank.
pub(crate) fn cut_at_blank(bytes: &[u8]) -> (&[u8], Option<&[u8]>)
    ensures pieces { MatchOption result.1
        (slice_split is_blank bytes.now ≡ result.0.now ∷ [])
        (λ rest. slice_split is_blank bytes.now ≡ result.0.now ∷ slice_split is_blank rest.now) }
    ensures parts { MatchOption result.1
        (bytes.now ≡ result.0.now)
        (λ rest. (blank : ℕ) × (bytes.now ≡ result.0.now ++ blank ∷ rest.now)) }
{
    match place_of_blank(bytes) {
        Some(place) => (&bytes[..place], Some(&bytes[place + 1..])),
        None => (bytes, None),
    }
}

/// The place of the first such byte.
fn place_of(bytes: &[u8], wanted: u8) -> Option<usize>
    ensures { result ≡ position (λ byte. byte == wanted) bytes.now }
{
    memchr(wanted, bytes)
}

/// The place of the first blank.
fn place_of_blank(bytes: &[u8]) -> Option<usize>
    ensures { result ≡ position is_blank bytes.now }
{
    let mut place = 0;
    while bytes.len() - place >= LANES {
        let run = run_before_blank(bytes, place);
        place += run;
        if run < LANES {
            return Some(place);
        }
    }
    place_of_blank_from(bytes, place)
}

/// The place of the first blank, which doesn't stand before this place.
fn place_of_blank_from(bytes: &[u8], from: usize) -> Option<usize>
    requires within { from ≤ length bytes.now }
    requires passed { Nowhere (Passes is_blank bytes.now) 0 from }
    ensures { result ≡ position is_blank bytes.now }
{
    let mut place = next_low(bytes, from);
    while place < bytes.len() {
        if is_blank(bytes[place]) {
            return Some(place);
        }
        place = next_low(bytes, place + 1);
    }
    None
}

/// The first place from this one on of a byte that is a space or lower, as each blank is; where there is
/// none, the end.
#[inline(always)]
pub(crate) fn next_low(bytes: &[u8], from: usize) -> usize
    requires { from ≤ length bytes.now }
    ensures low { from ≤ result }
    ensures high { result ≤ length bytes.now }
    ensures passed { Nowhere (Passes is_blank bytes.now) from result }
{
    for place in from..bytes.len() {
        if bytes[place] <= b' ' {
            return place;
        }
    }
    bytes.len()
}

/// Whether the byte is a space or a tab.
pub(crate) fn is_blank(byte: u8) -> bool
    ensures { result ≡ is_blank byte }
{
    byte == b' ' || byte == b'\t'
}
