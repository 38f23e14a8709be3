//! What the words of `why` ask for.

ghost use Rattle.clap.specs.Words.{Text, first_of, found_of, rows_of};
ghost use Rattle.cmwq_question.specs.declared.question.Looks.{Looks};
ghost use Rattle.cmwq_request.specs.Numbers.{plain_number};
ghost use Rattle.cmwq_request.specs.Request.{IsNoQuestion, IsWithin, asked_why, flag_of, looks_in, question_arguments, question_words, request_words};
ghost use Rattle.std.specs.Prelude.{◌≡◌, Bool, IfSome, None, Some, codes, option_map};

use crate::draw_options::flag_of;
use crate::request::{Request, on_file, value_of};
use clap::ArgMatches;
use cmwq_question::{Inquiry, Looks, Question};
use cmwq_tasks::Task;

/// What `why` asks for; nothing where not just one of a work and a flush is given, where two options for positions are,
/// or where a number hasn't 1 to 10 digits.
pub(crate) fn why_request<'a>(given: &ArgMatches<'a>) -> Option<Request<'a>>
    ensures words { (every settle : Bool) → flag_of (codes "every") (rows_of (found_of given.now)) ≡ Some every → flag_of (codes "settle") (rows_of (found_of given.now)) ≡ Some settle
        → option_map (λ request. request_words request) result ≡ asked_why every settle (rows_of (found_of given.now)) }
    ensures nothing { IsNoQuestion (rows_of (found_of given.now)) → result ≡ None }
    ensures capacity { IfSome result (λ request. IsWithin request) }
{
    let looks = looks_of(given)?;
    let question = question_of(given)?;
    let inquiry = Inquiry {
        question,
        looks,
        settle: flag_of(given, "settle"),
    };
    on_file(given, "FILE", Task::Why(inquiry))
}

/// The positions that are asked for; nothing where two options for them are given, or a number hasn't 1 to 10 digits.
fn looks_of(given: &ArgMatches<'_>) -> Option<Looks>
    ensures { (every : Bool) → flag_of (codes "every") (rows_of (found_of given.now)) ≡ Some every
        → result ≡ looks_in every (first_of (codes "K") (rows_of (found_of given.now))) (first_of (codes "T") (rows_of (found_of given.now))) }
{
    match (
        flag_of(given, "every"),
        value_of(given, "K"),
        value_of(given, "T"),
    ) {
        (false, None, None) => Some(Looks::Settled),
        (true, None, None) => Some(Looks::Every),
        (false, Some(word), None) => Some(Looks::At(plain_number(word)?)),
        (false, None, Some(word)) => Some(Looks::Time(plain_number(word)?)),
        (false, Some(_), Some(_)) | (true, Some(_), _) | (true, None, Some(_)) => None,
    }
}

/// The work or flush that is asked for; nothing where both or neither are given, or a number hasn't 1 to 10 digits.
fn question_of<'a>(given: &ArgMatches<'a>) -> Option<Question<'a>>
    ensures { (settle : Bool) (looks : Looks) (file : Text) → option_map (λ question. question_arguments question settle looks file) result
        ≡ question_words (first_of (codes "WORK") (rows_of (found_of given.now))) (first_of (codes "F") (rows_of (found_of given.now))) settle looks file }
{
    match (value_of(given, "WORK"), value_of(given, "F")) {
        (Some(work), None) => Some(Question::Work(work)),
        (None, Some(word)) => Some(Question::Flush(plain_number(word)?)),
        (None, None) | (Some(_), Some(_)) => None,
    }
}

/// How many digits a number has at most.
const MOST_DIGITS: usize = 10;

/// The number that 1 to 10 digits spell; nothing where the word is anything else.
pub(crate) fn plain_number(word: &str) -> Option<u64>
    ensures { result ≡ plain_number word.now }
{
    if word.len() > MOST_DIGITS || word.starts_with('+') {
        return None;
    }
    word.parse().ok()
}

/// What `why` takes, where its words ask for nothing.
pub(crate) fn wanted_by_why(given: &ArgMatches<'_>) -> &'static str {
    if value_of(given, "WORK").is_some() == value_of(given, "F").is_some() {
        return "why takes either a WORK or --flush";
    }
    let has_position = value_of(given, "K").is_some();
    let has_time = value_of(given, "T").is_some();
    if (has_position && has_time) || (flag_of(given, "every") && (has_position || has_time)) {
        return "--every, --at and --time don't go together";
    }
    "--flush, --at and --time take a number of 1 to 10 digits"
}
