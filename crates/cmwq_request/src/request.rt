//! The command line: which words ask for what.

ghost use Rattle.clap.specs.Words.{Row, Text, all_of, app_of, fault_of, first_of, found_of, kind_of, rows_of, subcommand_rows_of};
ghost use Rattle.cmwq_command_line.specs.CommandLine.{command_line};
ghost use Rattle.cmwq_request.specs.Request.{Asks, AsksNothing, AsksVersion, HasCapacity, HasUsageOf, IsAskedBy, IsCapacity, IsMisuse, IsMisusedBy, IsRead, IsRequestOf, IsUsageFault, IsVersionWord, IsWithin, all_values, asked_in, asked_of, asked_of_run, asks_for_language, file_and_capacity, file_to_debug, file_to_run, kind_of_run, strict_arguments, task_words, request_words};
ghost use Rattle.std.specs.Fmt.{decimal};
ghost use Rattle.std.specs.Str.{bytes_eq};
ghost use Rattle.std.specs.Prelude.{◌≡◌, ◌↔◌, ℕ, List, [], ◌∷◌, IfOk, IfSome, IsTrue, None, Some, codes, false, map, option_map, string_bytes};

use crate::asking::{wanted_by_why, why_request};
use crate::draw_options::{draw_request, flag_of, wanted_by_draw};
use crate::exploring::{explore_request, ring_told, wanted_by_explore};
use crate::reporting::{times_request, trace_request, wanted_by_times};
use clap::error::ErrorKind;
use clap::{ArgMatches, Command, Error};
use cmwq_command_line::commands::{called_command, command_line};
use cmwq_exploration::{Exploration, MAX_STATES};
use cmwq_reports::Sweep;
use cmwq_tasks::{RunKind, Task};
use cmwq_types::MAX_LINES;
use std::alloc::{AllocError, Global};

/// The path that stands for standard input, where a file is read.
pub const STANDARD_INPUT: &str = "-";

/// What the words ask for. The paths are as they were given.
#[derive(PartialEq, Eq, Drop)]
pub enum Request<'a> {
    /// Write a scenario to start from, to a file that isn't there yet, or to standard output.
    New {
        /// The new text's path.
        file: Option<&'a str>,
    },
    /// Do this with a file: the text of a scenario, or an image.
    Do {
        /// The file's path.
        file: &'a str,
        /// What is done with it.
        task: Task<'a>,
    },
    /// Run the scenario whose text is in this file, and tell how many of its actor's instructions were refused.
    Strict {
        /// The text's path.
        file: &'a str,
        /// How it is run.
        kind: RunKind,
    },
    /// Tell what the run of the scenario whose text is in this file comes to, for each of several values of a queue's `max_active`.
    Sweep {
        /// The text's path.
        file: &'a str,
        /// The queue, its values, and how it is told.
        sweep: Sweep<'a>,
    },
    /// Make a `trace.dat` of the run of the scenario whose text is in a file.
    TraceData {
        /// The text's path.
        file: &'a str,
        /// The new file's path.
        out: &'a str,
    },
    /// Make an image of the scenario whose text is in a file.
    Asm {
        /// The text's path.
        file: &'a str,
        /// The image's path.
        out: &'a str,
    },
    /// Debug the scenario whose text is in this file.
    Debug {
        /// The text's path.
        file: &'a str,
        /// Whether the run goes on until the machine is quiet.
        settle: bool,
    },
    /// Carry out all actors of the scenario whose text is in this file at once.
    Play {
        /// The text's path.
        file: &'a str,
        /// How many instructions the machine takes at most, 1 to 4,096.
        capacity: u32,
    },
    /// Look through all orders of the instructions of the actors of the scenario whose text is in this file.
    Explore {
        /// The text's path.
        file: &'a str,
        /// What is asked of them.
        exploration: Exploration<'a>,
    },
    /// Tell the verdict of each of these files.
    Check {
        /// The texts' paths, at least one.
        files: Vec<&'a str>,
    },
    /// Tell what a scenario's text may say.
    Language,
    /// Tell the program's version.
    Version,
}

/// Reads the words, of which the first is the program's name. The error is a usage fault, help that
/// was asked for, or want of memory; it holds the text for the user. The version is a request.
///
/// Each command's words ask for it, where no FILE, OUT, IMAGE, WORK or ACTOR is empty or begins with a hyphen, but for a FILE or IMAGE that is `-`;
/// the call then fails only for want of memory. It is a usage fault where `why` is asked of neither or of both of a work and
/// a flush, at positions of two kinds, or with a number that hasn't 1 to 10 digits; where `draw` is to begin behind its end; where
/// `debug` is to read the scenario from `-`; where `explore` isn't told one thing that never may be, its `--before` goes in a ring, or its
/// `--limit` isn't from 1 to [`MAX_STATES`]; where `--sweep` has values that no `max_active` may have, or more than 64 of them, or stands
/// beside `--whom`; and where `trace` is told no form, or two.
pub fn parse<'a>(alloc: Global, words: &'a [String]) -> Result<Request<'a>, Error>
    ensures asks { (name : Text) (given asked : List Text) → map string_bytes words.entry.now ≡ name ∷ given → IsAskedBy given asked → Asks asked result }
    ensures misuse { (name : Text) (given : List Text) → map string_bytes words.entry.now ≡ name ∷ given → IsMisusedBy given → IsUsageFault result }
    ensures version { (name word : Text) → map string_bytes words.entry.now ≡ name ∷ word ∷ []
        → IsVersionWord word → AsksVersion result }
    ensures capacity { IfOk result (λ request. IsWithin request) }
{
    if asks_for_language(words) {
        return Ok(Request::Language);
    }
    let mut command = command_line(alloc)?;
    request_met(alloc, &mut command, words)
}

/// Whether the words ask what a scenario's text may say: they are `help scenario`.
fn asks_for_language(words: &[String]) -> bool
    ensures { result ≡ asks_for_language (map string_bytes words.now) }
{
    match words {
        [_, help, scenario] => help.as_str() == "help" && scenario.as_str() == "scenario",
        _ => false,
    }
}

/// What the words ask for, by the program's command line.
fn request_met<'a>(
    alloc: Global,
    command: &mut Command<'a>,
    words: &'a [String],
) -> Result<Request<'a>, Error>
    requires { app_of command.now ≡ command_line }
    ensures asks { (asked : List Text) → IsRead (map string_bytes words.entry.now) asked → Asks asked result }
    ensures misuse { IsMisuse (map string_bytes words.entry.now) → IsUsageFault result }
    ensures version { fault_of command_line (map string_bytes words.entry.now) ≡ ErrorKind.DisplayVersion ∷ [] → AsksVersion result }
    ensures capacity { IfOk result (λ request. IsWithin request) }
{
    let matches = match command.try_get_matches_from_mut(words) {
        Ok(matches) => matches,
        Err(error) if tells_version(&error) => return Ok(Request::Version),
        Err(error) => return Err(error),
    };
    match request_of(alloc, &matches)? {
        Some(request) => Ok(request),
        None => Err(misuse(alloc, &matches)?),
    }
}

/// The usage fault of words that ask for nothing, with the usage of their command. The error is want of memory.
fn misuse(alloc: Global, matches: &ArgMatches<'_>) -> Result<Error, AllocError>
    ensures { IfOk result (λ error. kind_of error ≡ ErrorKind.ValueValidation) }
{
    let mut command = command_met(alloc, matches)?;
    if let Some(("explore", given)) = matches.subcommand()
        && let Some(line) = ring_told(alloc, given)?
    {
        return command.error(ErrorKind::ValueValidation, line.as_str());
    }
    command.error(ErrorKind::ValueValidation, wanted_words(matches))
}

/// The command that was met, by itself, if its words can ask for nothing, and else the program. The error is want of memory.
fn command_met<'a>(alloc: Global, matches: &ArgMatches<'_>) -> Result<Command<'a>, AllocError>
    ensures { (met : Text × List Row) → subcommand_rows_of matches.now ≡ Some met → IfOk result (λ command. HasUsageOf met.0 command) }
{
    match matches.subcommand() {
        Some((name, _)) => command_named(alloc, name),
        None => command_line(alloc),
    }
}

/// The command of this name, by itself, if its words can ask for nothing, and else the program. The error is want of memory.
fn command_named<'a>(alloc: Global, name: &str) -> Result<Command<'a>, AllocError>
    ensures { IfOk result (λ command. HasUsageOf name.now command) }
{
    match called_command(alloc, name)? {
        Some(command) => Ok(command),
        None => command_line(alloc),
    }
}

/// What the command that was met takes.
fn wanted_words(matches: &ArgMatches<'_>) -> &'static str {
    match matches.subcommand() {
        Some(("draw", given)) => wanted_by_draw(given),
        Some(("why", given)) => wanted_by_why(given),
        Some(("explore", given)) => wanted_by_explore(given),
        Some(("times", given)) => wanted_by_times(given),
        Some(("trace", _)) => "trace takes one of --json, --lines, --text and --dat",
        Some(("debug", _)) => "debug reads its commands from standard input, so FILE can't be -",
        _ => "--capacity takes a number from 1 to 4096",
    }
}

/// Whether the version was asked for.
fn tells_version(error: &Error) -> bool
    ensures { IsTrue result ↔ (kind_of error.now ≡ ErrorKind.DisplayVersion) }
{
    error.kind() == ErrorKind::DisplayVersion
}

/// The usage fault of words that aren't all text.
pub fn not_text(alloc: Global) -> Result<Error, AllocError>
    ensures { IfOk result (λ error. kind_of error ≡ ErrorKind.ValueValidation) }
{
    let mut command = command_line(alloc)?;
    command.error(
        ErrorKind::ValueValidation,
        "a word of the command line isn't UTF-8",
    )
}

/// What the command that was met asks for. The error is want of memory.
fn request_of<'a>(
    alloc: Global,
    matches: &ArgMatches<'a>,
) -> Result<Option<Request<'a>>, AllocError>
    ensures words { (asked : List Text) → asked_of (subcommand_rows_of matches.now) ≡ Some asked → HasCapacity asked → IfOk result (λ request. IsRequestOf asked request) }
    ensures nothing { (met : Text × List Row) → subcommand_rows_of matches.now ≡ Some met → AsksNothing met → IfOk result (λ request. request ≡ None) }
    ensures capacity { IfOk result (λ found. IfSome found (λ request. IsWithin request)) }
{
    match matches.subcommand() {
        Some((name, given)) => request_by(alloc, name, given),
        None => Ok(None),
    }
}

/// What the command of this name asks for, given these values. The error is want of memory.
fn request_by<'a>(
    alloc: Global,
    name: &str,
    given: &ArgMatches<'a>,
) -> Result<Option<Request<'a>>, AllocError>
    ensures words { (asked : List Text) → asked_in (name.now, rows_of (found_of given.now)) ≡ Some asked → HasCapacity asked → IfOk result (λ request. IsRequestOf asked request) }
    ensures nothing { AsksNothing (name.now, rows_of (found_of given.now)) → IfOk result (λ request. request ≡ None) }
    ensures capacity { IfOk result (λ found. IfSome found (λ request. IsWithin request)) }
{
    match name {
        "check" => check_request(alloc, given),
        "explore" => explore_request(alloc, given),
        _ => Ok(request_on_file(name, given)),
    }
}

/// What `check` asks for. The error is want of memory.
fn check_request<'a>(
    alloc: Global,
    given: &ArgMatches<'a>,
) -> Result<Option<Request<'a>>, AllocError>
    ensures words { (asked : List Text) → all_values (codes "check") (codes "FILE") (rows_of (found_of given.now)) ≡ Some asked → IfOk result (λ request. IsRequestOf asked request) }
    ensures capacity { IfOk result (λ found. IfSome found (λ request. IsWithin request)) }
{
    let Some(paths) = values_of(given, "FILE") else {
        return Ok(None);
    };
    let files = paths.to_vec(alloc)?;
    Ok(Some(Request::Check { files }))
}

/// What the command of this name, which takes at most two files, asks for.
fn request_on_file<'a>(name: &str, given: &ArgMatches<'a>) -> Option<Request<'a>>
    requires check { bytes_eq name.now (codes "check") ≡ false }
    requires explore { bytes_eq name.now (codes "explore") ≡ false }
    ensures words { (asked : List Text) → asked_in (name.now, rows_of (found_of given.now)) ≡ Some asked → HasCapacity asked → option_map (λ request. request_words request) result ≡ Some asked }
    ensures nothing { AsksNothing (name.now, rows_of (found_of given.now)) → result ≡ None }
    ensures capacity { IfSome result (λ request. IsWithin request) }
{
    match name {
        "new" => Some(Request::New {
            file: value_of(given, "FILE"),
        }),
        "run" => run_request(given),
        "settle" => on_file(given, "FILE", Task::Settle),
        "list" => on_file(given, "FILE", Task::List),
        "asm" => Some(Request::Asm {
            file: value_of(given, "FILE")?,
            out: value_of(given, "OUT")?,
        }),
        "show" => on_file(given, "IMAGE", Task::Show),
        _ => request_on_run(name, given),
    }
}

/// What the command of this name, which looks into a run, asks for.
fn request_on_run<'a>(name: &str, given: &ArgMatches<'a>) -> Option<Request<'a>>
    requires check { bytes_eq name.now (codes "check") ≡ false }
    requires explore { bytes_eq name.now (codes "explore") ≡ false }
    ensures words { (asked : List Text) → asked_of_run (name.now, rows_of (found_of given.now)) ≡ Some asked → HasCapacity asked → option_map (λ request. request_words request) result ≡ Some asked }
    ensures nothing { AsksNothing (name.now, rows_of (found_of given.now)) → result ≡ None }
    ensures capacity { IfSome result (λ request. IsWithin request) }
{
    match name {
        "debug" => debug_request(given),
        "draw" => draw_request(given),
        "why" => why_request(given),
        "times" => times_request(given),
        "trace" => trace_request(given),
        "play" => play_request(given),
        _ => None,
    }
}

/// What asks for this task on the file that is the argument's value.
pub(crate) fn on_file<'a>(given: &ArgMatches<'a>, id: &str, task: Task<'a>) -> Option<Request<'a>>
    ensures words { option_map (λ request. request_words request) result ≡ option_map (task_words task.entry) (first_of id.now (rows_of (found_of given.now))) }
    ensures capacity { IfSome result (λ request. IsWithin request) }
{
    let file = value_of(given, id)?;
    Some(Request::Do { file, task })
}

/// What `run` asks for.
fn run_request<'a>(given: &ArgMatches<'a>) -> Option<Request<'a>>
    ensures words { (asked : List Text) → file_to_run (rows_of (found_of given.now)) ≡ Some asked → option_map (λ request. request_words request) result ≡ Some asked }
    ensures capacity { IfSome result (λ request. IsWithin request) }
{
    let file = value_of(given, "FILE")?;
    let kind = run_kind(flag_of(given, "settle"), flag_of(given, "tell"));
    Some(run_of(file, kind, flag_of(given, "strict")))
}

/// The run of the file, which tells how many instructions were refused if it is strict.
fn run_of<'a>(file: &'a str, kind: RunKind, strict: bool) -> Request<'a>
    ensures words { request_words result ≡ codes "run" ∷ strict_arguments strict kind file.entry.now }
    ensures capacity { IsWithin result }
{
    if strict {
        Request::Strict { file, kind }
    } else {
        Request::Do {
            file,
            task: Task::Run(kind),
        }
    }
}

/// Which run the flags ask for.
fn run_kind(settle: bool, tell: bool) -> RunKind
    ensures { result ≡ kind_of_run settle tell }
{
    match (settle, tell) {
        (false, false) => RunKind::Plain,
        (true, false) => RunKind::Settled,
        (false, true) => RunKind::Told,
        (true, true) => RunKind::ToldSettled,
    }
}

/// What `debug` asks for; nothing where FILE is `-`, from which the commands come.
fn debug_request<'a>(given: &ArgMatches<'a>) -> Option<Request<'a>>
    ensures words { (asked : List Text) → file_to_debug (rows_of (found_of given.now)) ≡ Some asked → option_map (λ request. request_words request) result ≡ Some asked }
    ensures nothing { first_of (codes "FILE") (rows_of (found_of given.now)) ≡ Some (codes "-") → result ≡ None }
    ensures capacity { IfSome result (λ request. IsWithin request) }
{
    let file = value_of(given, "FILE")?;
    if file == STANDARD_INPUT {
        return None;
    }
    Some(Request::Debug {
        file,
        settle: flag_of(given, "settle"),
    })
}

/// What `play` asks for.
fn play_request<'a>(given: &ArgMatches<'a>) -> Option<Request<'a>>
    ensures words { (asked : List Text) → file_and_capacity (rows_of (found_of given.now)) ≡ Some asked → HasCapacity asked → option_map (λ request. request_words request) result ≡ Some asked }
    ensures capacity { IfSome result (λ request. IsWithin request) }
{
    let file = value_of(given, "FILE")?;
    let capacity = capacity_of(value_of(given, "N")?)?;
    Some(Request::Play { file, capacity })
}

/// The number that the word is, where it is one from 1 to 4,096.
fn capacity_of(word: &str) -> Option<u32>
    ensures read { (n : ℕ) → word.now ≡ decimal n → IsCapacity n → result ≡ Some n }
    ensures capacity { IfSome result (λ n. IsCapacity n) }
{
    let capacity: u32 = word.parse().ok()?;
    if capacity < 1 || capacity > MAX_LINES as u32 {
        return None;
    }
    Some(capacity)
}

/// The value of the argument.
pub(crate) fn value_of<'a>(given: &ArgMatches<'a>, id: &str) -> Option<&'a str>
    ensures { option_map (λ value. value.now) result ≡ first_of id.now (rows_of (found_of given.now)) }
{
    given.get_str(id)
}

/// All values of the argument.
pub(crate) fn values_of<'m, 'a>(given: &'m ArgMatches<'a>, id: &str) -> Option<&'m [&'a str]>
    ensures { option_map (λ values. map (λ value. value.now) values.now) result ≡ all_of id.now (rows_of (found_of given.now)) }
{
    given.get_strs(id)
}
