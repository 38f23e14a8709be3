//! What the words of `times` and `trace` ask for.

ghost use Rattle.clap.specs.Words.{Text, all_of, first_of, found_of, rows_of};
ghost use Rattle.cmwq_request.specs.Numbers.{are_limits, limits_in};
ghost use Rattle.cmwq_request.specs.Request.{IsNoTimes, IsNoTrace, IsWithin, asked_times, asked_trace, flag_of, form_given, format_given, request_words, swept_from, times_given};
ghost use Rattle.std.specs.Prelude.{◌≡◌, Bool, IfSome, None, Some, codes, if◌then◌else◌, map, option_map, true};

use crate::asking::plain_number;
use crate::draw_options::flag_of;
use crate::request::{Request, value_of, values_of};
use clap::ArgMatches;
use cmwq_reports::{Format, LimitRange, MOST_LIMITS, Sweep, Times, TraceForm};
use cmwq_tasks::Task;
use cmwq_types::MAX_MAX_ACTIVE;

/// What `times` asks for; nothing where `--sweep` has values that no max may have, or stands beside `--whom`.
pub(crate) fn times_request<'a>(given: &ArgMatches<'a>) -> Option<Request<'a>>
    ensures words { (json whom : Bool) → flag_of (codes "json") (rows_of (found_of given.now)) ≡ Some json → flag_of (codes "whom") (rows_of (found_of given.now)) ≡ Some whom
        → option_map (λ request. request_words request) result ≡ asked_times json whom (rows_of (found_of given.now)) }
    ensures nothing { IsNoTimes (rows_of (found_of given.now)) → result ≡ None }
    ensures capacity { IfSome result (λ request. IsWithin request) }
{
    let file = value_of(given, "FILE")?;
    let json = flag_of(given, "json");
    let whom = flag_of(given, "whom");
    match values_of(given, "SWEEP") {
        None => Some(Request::Do {
            file,
            task: Task::Times(times_given(json, whom)),
        }),
        Some(words) if !whom => swept(file, format_given(json), words),
        Some(_) => None,
    }
}

/// The sweep of the file that two words ask for: a queue, and values that its max may have.
fn swept<'a>(file: &'a str, format: Format, words: &[&'a str]) -> Option<Request<'a>>
    ensures words { (json : Bool) → format ≡ format_given json
        → option_map (λ request. request_words request) result ≡ swept_from json (map (λ word. word.now) words.now) file.now }
    ensures capacity { IfSome result (λ request. IsWithin request) }
{
    let [queue, word] = words else {
        return None;
    };
    let sweep = Sweep {
        queue,
        limits: limits_in(word)?,
        format,
    };
    Some(Request::Sweep { file, sweep })
}

/// The values that LOW..HIGH spells; nothing where the word is anything else, or no max may have them.
fn limits_in(word: &str) -> Option<LimitRange>
    ensures value { result ≡ limits_in word.now }
    ensures fit { IfSome result (λ limits. are_limits limits.low limits.high ≡ true) }
{
    let (low, behind) = word.split_once('.')?;
    let high = behind.strip_prefix('.')?;
    limits_from(plain_number(low)?, plain_number(high)?)
}

/// The values from the one to the other, if a max may have them.
fn limits_from(low: u64, high: u64) -> Option<LimitRange>
    ensures value { result ≡ (if are_limits low high then Some (record { low = low; high = high }) else None) }
    ensures fit { IfSome result (λ limits. are_limits limits.low limits.high ≡ true) }
{
    if low < 1 || high < low || high > MAX_MAX_ACTIVE as u64 || high - low >= MOST_LIMITS as u64 {
        return None;
    }
    Some(LimitRange {
        low: low as u16,
        high: high as u16,
    })
}

/// What is told, by whether it is told as JSON, and for whom works waited.
fn times_given(json: bool, whom: bool) -> Times
    ensures { result ≡ times_given json whom }
{
    Times {
        format: format_given(json),
        whom,
    }
}

fn format_given(json: bool) -> Format
    ensures { result ≡ format_given json }
{
    if json { Format::Json } else { Format::Text }
}

/// What `trace` asks for; nothing where not just one form, or a file, is given.
pub(crate) fn trace_request<'a>(given: &ArgMatches<'a>) -> Option<Request<'a>>
    ensures words { (json lines text : Bool) → flag_of (codes "json") (rows_of (found_of given.now)) ≡ Some json → flag_of (codes "lines") (rows_of (found_of given.now)) ≡ Some lines
        → flag_of (codes "text") (rows_of (found_of given.now)) ≡ Some text
        → option_map (λ request. request_words request) result ≡ asked_trace json lines text (rows_of (found_of given.now)) }
    ensures nothing { IsNoTrace (rows_of (found_of given.now)) → result ≡ None }
    ensures capacity { IfSome result (λ request. IsWithin request) }
{
    let file = value_of(given, "FILE")?;
    let json = flag_of(given, "json");
    let lines = flag_of(given, "lines");
    let text = flag_of(given, "text");
    match value_of(given, "OUT") {
        None => Some(Request::Do {
            file,
            task: Task::Trace(form_given(json, lines, text)?),
        }),
        Some(out) if !json && !lines && !text => Some(Request::TraceData { file, out }),
        Some(_) => None,
    }
}

/// The form that these options give, if they give just one.
fn form_given(json: bool, lines: bool, text: bool) -> Option<TraceForm>
    ensures { result ≡ form_given json lines text }
{
    match (json, lines, text) {
        (true, false, false) => Some(TraceForm::Json),
        (false, true, false) => Some(TraceForm::Lines),
        (false, false, true) => Some(TraceForm::Text),
        _ => None,
    }
}

/// What `times` takes, where its words ask for nothing.
pub(crate) fn wanted_by_times(given: &ArgMatches<'_>) -> &'static str {
    if flag_of(given, "whom") {
        return "--whom and --sweep don't go together";
    }
    "--sweep takes a queue and LOW..HIGH: numbers from 1 to 512, at most 64 of them"
}
