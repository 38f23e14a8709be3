//! What the words of `explore` ask for.

ghost use Rattle.clap.specs.Words.{all_of, first_of, found_of, rows_of};
ghost use Rattle.cmwq_request.specs.Request.{IsNoExploration, IsStateLimit, IsWithin, after_forbidden, asked_explore, exploration_from, flag_of, forbidden, limit_from, never_from, pairs_from, pairs_in, request_words, state_limit, words_to_explore, works_forbidden};
ghost use Rattle.cmwq_rings.specs.Rings.{goes_in_ring, pairs_of};
ghost use Rattle.std.specs.Prelude.{◌≡◌, Bool, IfOk, IfSome, None, Some, codes, false, map, option_map};

use crate::asking::plain_number;
use crate::draw_options::flag_of;
use crate::request::{Request, value_of, values_of};
use clap::ArgMatches;
use cmwq_exploration::{Exploration, MAX_STATES, Never, Precedence, USUAL_STATES};
use cmwq_rings::find_ring;
use std::alloc::{AllocError, Global};

/// What `explore` asks for; nothing where it isn't said what no order may come to, or that isn't one thing, where a work stands twice,
/// where `--before` goes in a ring, or where the limit isn't a number from 1 to [`MAX_STATES`]. The error is want of memory.
pub(crate) fn explore_request<'a>(
    alloc: Global,
    given: &ArgMatches<'a>,
) -> Result<Option<Request<'a>>, AllocError>
    ensures words { (stuck : Bool) → flag_of (codes "stuck") (rows_of (found_of given.now)) ≡ Some stuck
        → IfOk result (λ found. option_map (λ request. request_words request) found ≡ asked_explore stuck (rows_of (found_of given.now))) }
    ensures nothing { IsNoExploration (rows_of (found_of given.now)) → IfOk result (λ found. found ≡ None) }
    ensures capacity { IfOk result (λ found. IfSome found (λ request. IsWithin request)) }
{
    let before = before_of(alloc, given)?;
    if find_ring(alloc, &before)?.is_some() {
        return Ok(None);
    }
    Ok(request_with(given, before))
}

/// The request with these pairs, which go in no ring.
fn request_with<'a>(given: &ArgMatches<'a>, before: Vec<Precedence<'a>>) -> Option<Request<'a>>
    requires { goes_in_ring (pairs_of before.items) ≡ false }
    ensures words { (stuck : Bool) → flag_of (codes "stuck") (rows_of (found_of given.now)) ≡ Some stuck
        → option_map (λ request. request_words request) result ≡ words_to_explore (exploration_from false (never_from stuck (first_of (codes "ACTOR") (rows_of (found_of given.now))) (all_of (codes "WORK") (rows_of (found_of given.now)))) (pairs_of before.entry.items) (limit_from (first_of (codes "N") (rows_of (found_of given.now))))) (first_of (codes "FILE") (rows_of (found_of given.now))) }
    ensures capacity { IfSome result (λ request. IsWithin request) }
{
    let exploration = Exploration {
        never: never_asked(given)?,
        before,
        limit: limit_asked(given)?,
    };
    let file = value_of(given, "FILE")?;
    Some(Request::Explore { file, exploration })
}

/// What no order may come to; nothing where that isn't one thing.
fn never_asked<'a>(given: &ArgMatches<'a>) -> Option<Never<'a>>
    ensures { (stuck : Bool) → flag_of (codes "stuck") (rows_of (found_of given.now)) ≡ Some stuck
        → option_map forbidden result ≡ never_from stuck (first_of (codes "ACTOR") (rows_of (found_of given.now))) (all_of (codes "WORK") (rows_of (found_of given.now))) }
{
    let stuck = flag_of(given, "stuck");
    match (value_of(given, "ACTOR"), values_of(given, "WORK")) {
        (None, None) if stuck => Some(Never::Stuck),
        (None, Some(works)) if !stuck => works_asked(works),
        (Some(actor), Some(works)) if !stuck => after_asked(actor, works),
        _ => None,
    }
}

/// That this work never runs, or that these two never run at once.
fn works_asked<'a>(works: &[&'a str]) -> Option<Never<'a>>
    ensures { option_map forbidden result ≡ works_forbidden (map (λ work. work.now) works.now) }
{
    match works {
        [work] => Some(Never::Runs(work)),
        [work, other] if work != other => Some(Never::Together(work, other)),
        _ => None,
    }
}

/// That this work is never pending, and never runs, where the actor has ended.
fn after_asked<'a>(actor: &'a str, works: &[&'a str]) -> Option<Never<'a>>
    ensures { option_map forbidden result ≡ after_forbidden actor.now (map (λ work. work.now) works.now) }
{
    match works {
        [work] => Some(Never::After { actor, work }),
        _ => None,
    }
}

/// How many states are looked at; nothing where that isn't a number from 1 to [`MAX_STATES`].
fn limit_asked(given: &ArgMatches<'_>) -> Option<u32>
    ensures words { result ≡ limit_from (first_of (codes "N") (rows_of (found_of given.now))) }
    ensures limit { IfSome result IsStateLimit }
{
    match value_of(given, "N") {
        Some(word) => state_limit(plain_number(word)?),
        None => Some(USUAL_STATES),
    }
}

/// This number of states, where so many can be looked at.
fn state_limit(limit: u64) -> Option<u32>
    ensures words { result ≡ state_limit limit }
    ensures limit { IfSome result IsStateLimit }
{
    if 1 <= limit && limit <= MAX_STATES as u64 {
        Some(limit as u32)
    } else {
        None
    }
}

/// Who begins only when somebody else has ended. The error is want of memory.
fn before_of<'a>(alloc: Global, given: &ArgMatches<'a>) -> Result<Vec<Precedence<'a>>, AllocError>
    ensures { IfOk result (λ before. pairs_of before.items ≡ pairs_from (all_of (codes "BEFORE") (rows_of (found_of given.now)))) }
{
    match values_of(given, "BEFORE") {
        Some(names) => paired(alloc, names),
        None => Ok(Vec::new(alloc)),
    }
}

/// Two names each as one pair.
fn paired<'a>(alloc: Global, names: &[&'a str]) -> Result<Vec<Precedence<'a>>, AllocError>
    ensures { IfOk result (λ before. pairs_of before.items ≡ pairs_in (map (λ name. name.now) names.now)) }
{
    let mut before = Vec::new(alloc);
    let mut rest = names;
    'pairs: while let [first, then, more @ ..] = rest {
        before.push(Precedence { first, then })?;
        rest = more;
    }
    Ok(before)
}

/// The usage fault's text where `--before` goes in a ring, which it names; nothing where it doesn't. The error is want of memory.
pub(crate) fn ring_told(
    alloc: Global,
    given: &ArgMatches<'_>,
) -> Result<Option<String>, AllocError> {
    let before = before_of(alloc, given)?;
    match find_ring(alloc, &before)? {
        Some(ring) => Ok(Some(ring_line(alloc, &ring)?)),
        None => Ok(None),
    }
}

/// The names of a ring, the first of which is told again at its end.
fn ring_line(alloc: Global, ring: &[&str]) -> Result<String, AllocError> {
    let mut line = String::from_str(alloc, "--before goes in a cycle: ")?;
    for name in ring {
        line.push_str(name)?;
        line.push_str(", ")?;
    }
    if let Some(first) = ring.first() {
        line.push_str(first)?;
    }
    Ok(line)
}

/// What `explore` takes, where its words ask for nothing and `--before` goes in no ring.
pub(crate) fn wanted_by_explore(given: &ArgMatches<'_>) -> &'static str {
    if never_asked(given).is_some() {
        return "--limit takes a number of 1 to 10 digits, from 1 to 1000000";
    }
    if flag_of(given, "stuck") {
        return "--stuck doesn't go with --never and --after";
    }
    match (value_of(given, "ACTOR"), values_of(given, "WORK")) {
        (None, None) => "explore takes --never, --after with --never, or --stuck",
        (None, Some(_)) => "--never takes two work items that differ",
        (Some(_), _) => "--after takes an ACTOR, and --never with one WORK beside it",
    }
}
