//! What the words of `draw` ask for.

ghost use Rattle.clap.specs.Words.{Text, first_of, found_of, one_of, rows_of};
ghost use Rattle.cmwq_drawing.specs.declared.drawing.Span.{Span};
ghost use Rattle.cmwq_request.specs.Request.{DrawingWords, IsBackwards, IsWithin, drawing_asked, drawing_words, file_to_draw, flag_in, flag_of, form_words, is_ahead, is_in_id, is_letter, is_picture_name, is_scale, is_styled, number_if_any, number_in, request_words, span_asked};
ghost use Rattle.std.specs.List.{list_all};
ghost use Rattle.std.specs.Prelude.{◌≡◌, ℕ, Bool, IfSome, List, None, Option, Some, codes, option_map, true};

use crate::request::{Request, on_file, value_of};
use clap::ArgMatches;
use cmwq_drawing::{Drawing, Form, Span, Style};
use cmwq_tasks::Task;

/// What `draw` asks for; nothing where a time or a scale isn't a number or out of its limits, the first time is behind the last, the
/// picture's name isn't one, or it has a scale or a name and is no SVG picture.
pub(crate) fn draw_request<'a>(given: &ArgMatches<'a>) -> Option<Request<'a>>
    ensures words { (asked : List Text) → file_to_draw (rows_of (found_of given.now)) ≡ Some asked → option_map (λ request. request_words request) result ≡ Some asked }
    ensures nothing { IsBackwards (rows_of (found_of given.now)) → result ≡ None }
    ensures capacity { IfSome result (λ request. IsWithin request) }
{
    let drawing = drawing_asked(given)?;
    on_file(given, "FILE", Task::Draw(drawing))
}

/// The picture that is asked for, if it is one.
pub(crate) fn drawing_asked<'a>(given: &ArgMatches<'a>) -> Option<Drawing<'a>>
    ensures words { (words : DrawingWords) → drawing_asked (rows_of (found_of given.now)) ≡ Some words → option_map (λ drawing. drawing_words drawing) result ≡ Some words }
    ensures nothing { IsBackwards (rows_of (found_of given.now)) → result ≡ None }
{
    let span = span_asked(given)?;
    let form = form_asked(given)?;
    Some(Drawing {
        settle: flag_of(given, "settle"),
        fold: flag_of(given, "fold"),
        span,
        works: value_of(given, "WORKS"),
        form,
    })
}

/// The ticks that are asked for; nothing where a time isn't a number, or the first is behind the last.
fn span_asked(given: &ArgMatches<'_>) -> Option<Span>
    ensures span { (span : Span) → span_asked (rows_of (found_of given.now)) ≡ Some span → result ≡ Some span }
    ensures nothing { IsBackwards (rows_of (found_of given.now)) → result ≡ None }
{
    let from = number_of(given, "FROM")?;
    let to = number_of(given, "TO")?;
    if !is_ahead(from, to) {
        return None;
    }
    Some(Span { from, to })
}

/// Whether the first time, where it is given, isn't behind the last.
fn is_ahead(from: Option<u64>, to: Option<u64>) -> bool
    ensures { result ≡ is_ahead from to }
{
    match (from, to) {
        (Some(from), Some(to)) => from <= to,
        _ => true,
    }
}

/// What the picture is drawn as; nothing where a scale or a name is none, or is given for a text.
fn form_asked<'a>(given: &ArgMatches<'a>) -> Option<Form<'a>>
    ensures { (svg : Bool) (scale : Option ℕ) (id : Option Text) → flag_of (codes "svg") (rows_of (found_of given.now)) ≡ Some svg
        → number_if_any (first_of (codes "SCALE") (rows_of (found_of given.now))) ≡ Some scale
        → first_of (codes "NAME") (rows_of (found_of given.now)) ≡ id → is_styled svg scale id ≡ true
        → option_map (λ form. form_words form) result ≡ Some (svg, scale, id) }
{
    let scale = scale_asked(given)?;
    let id = value_of(given, "NAME");
    if !flag_of(given, "svg") {
        return match (scale, id) {
            (None, None) => Some(Form::Text),
            _ => None,
        };
    }
    match id {
        Some(name) if !is_picture_name(name.as_bytes()) => None,
        _ => Some(Form::Svg(Style { scale, id })),
    }
}

/// How many pixels a tick is to be wide, if that is given; nothing where it is given and isn't 1 to 100.
fn scale_asked(given: &ArgMatches<'_>) -> Option<Option<u32>>
    ensures { (scale : Option ℕ) → number_if_any (first_of (codes "SCALE") (rows_of (found_of given.now))) ≡ Some scale → is_scale scale ≡ true → result ≡ Some scale }
{
    match number_of(given, "SCALE")? {
        None => Some(None),
        Some(scale) if 1 <= scale && scale <= 100 => Some(Some(scale as u32)),
        Some(_) => None,
    }
}

/// Whether a picture in a page may be called so: 1 to 64 letters, digits, hyphens and underscores, first a letter.
#[tactic(auto, unfolding(crate::specs::Request::is_picture_name))]
fn is_picture_name(name: &[u8]) -> bool
    ensures { result ≡ is_picture_name name.now }
{
    match name.first() {
        Some(first) if is_letter(*first) => name.len() <= 64 && are_in_id(name),
        _ => false,
    }
}

/// Whether a picture's name may have each of them.
fn are_in_id(bytes: &[u8]) -> bool
    ensures { result ≡ list_all is_in_id bytes.now }
{
    bytes.iter().all(|byte| is_in_id(*byte))
}

/// Whether it is a letter of ASCII.
fn is_letter(byte: u8) -> bool
    ensures { result ≡ is_letter byte }
{
    (65 <= byte && byte <= 90) || (97 <= byte && byte <= 122)
}

/// Whether a picture's name may have it.
fn is_in_id(byte: u8) -> bool
    ensures { result ≡ is_in_id byte }
{
    is_letter(byte) || (48 <= byte && byte <= 57) || byte == b'-' || byte == b'_'
}

/// Whether the option was given.
pub(crate) fn flag_of(given: &ArgMatches<'_>, id: &str) -> bool
    ensures { (holds : Bool) → flag_in (one_of id.now (rows_of (found_of given.now))) ≡ Some holds → result ≡ holds }
{
    given.get_flag(id)
}

/// The number that was given with the option, if one was given; nothing where it isn't a number.
fn number_of(given: &ArgMatches<'_>, id: &str) -> Option<Option<u64>>
    ensures { (number : Option ℕ) → number_if_any (first_of id.now (rows_of (found_of given.now))) ≡ Some number → result ≡ Some number }
{
    match value_of(given, id) {
        Some(word) => Some(Some(drawing_number(word)?)),
        None => Some(None),
    }
}

/// The number that the word spells.
fn drawing_number(word: &str) -> Option<u64>
    ensures { (n : ℕ) → number_in word.now ≡ Some n → result ≡ Some n }
{
    word.parse().ok()
}

/// What `draw` takes, where its words ask for nothing.
pub(crate) fn wanted_by_draw(given: &ArgMatches<'_>) -> &'static str {
    let (Some(from), Some(to)) = (number_of(given, "FROM"), number_of(given, "TO")) else {
        return "--from and --to take a time in ticks";
    };
    if !is_ahead(from, to) {
        return "--from takes a time that isn't after that of --to";
    }
    if scale_asked(given).is_none() {
        return "--scale takes a number of pixels from 1 to 100";
    }
    if !flag_of(given, "svg") {
        return "--scale and --id go with --svg";
    }
    "--id takes a name of 1 to 64 letters, digits, - and _, first a letter"
}
