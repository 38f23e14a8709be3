//! The program's commands, and the words that they take.

ghost use Rattle.clap.specs.Words.{app_of, new_app, new_rule};
ghost use Rattle.cmwq_command_line.specs.CommandLine.{IsArgument, IsCalled, IsCommand, IsMisusable, WithMore, asking_command, asm_command, bare_program, check_command, command_line, command_on, debug_command, draw_command, eight_commands, explore_command, flag_rule, four_commands, list_command, misusable, never_command, new_command, play_command, required_rule, run_command, several_rule, settle_command, show_command, spanned_command, times_command, trace_command, twelve_commands, value_rule, why_command};
ghost use Rattle.std.specs.Prelude.{◌≡◌, ◌≤◌, IfOk, IfSome, codes, option_map};

use crate::help;
use clap::{Arg, ArgAction, Command};
use std::alloc::{AllocError, Global};
use std::ops::RangeInclusive;

/// Returns the command line of the program: its commands, their arguments and options, its help and its version. The error is want of memory.
pub fn command_line<'a>(alloc: Global) -> Result<Command<'a>, AllocError>
    ensures { IfOk result (λ r. app_of r ≡ command_line) }
{
    let program = with(twelve_commands(alloc)?, times_command(alloc))?;
    with(program, trace_command(alloc))
}

/// Returns the command of this name by itself. Its usage says how the program is called for it, as `cmwq draw`. There is none if all words
/// that the command takes are a request. The error is want of memory.
pub fn called_command<'a>(alloc: Global, name: &str) -> Result<Option<Command<'a>>, AllocError>
    ensures command { IfOk result (λ found. option_map (λ command. app_of command) found ≡ misusable name.now) }
    ensures called { IfOk result (λ found. IfSome found (λ command. IsCalled name.now command)) }
{
    match misusable(alloc, name) {
        Some(command) => Ok(Some(called(alloc, command?, name)?)),
        None => Ok(None),
    }
}

/// Returns the command of this name, if it takes words that are no request.
fn misusable<'a>(alloc: Global, name: &str) -> Option<Result<Command<'a>, AllocError>>
    ensures { IsMisusable (misusable name.now) result }
{
    match name {
        "debug" => Some(debug_command(alloc)),
        "play" => Some(play_command(alloc)),
        "draw" => Some(draw_command(alloc)),
        "why" => Some(why_command(alloc)),
        "explore" => Some(explore_command(alloc)),
        "times" => Some(times_command(alloc)),
        "trace" => Some(trace_command(alloc)),
        _ => None,
    }
}

/// Returns the command, with a usage that says how the program is called for it.
fn called<'a>(alloc: Global, command: Command<'a>, name: &str) -> Result<Command<'a>, AllocError>
    ensures command { IfOk result (λ r. app_of r ≡ app_of command.entry) }
    ensures called { IfOk result (λ r. IsCalled name.now r) }
{
    let mut call = String::from_str(alloc, "cmwq ")?;
    call.push_str(name)?;
    command.bin_name(&call)
}

/// Returns the program with its first twelve commands.
fn twelve_commands<'a>(alloc: Global) -> Result<Command<'a>, AllocError>
    ensures { IfOk result (λ r. app_of r ≡ twelve_commands) }
{
    let program = with(eight_commands(alloc)?, settle_command(alloc))?;
    let program = with(program, draw_command(alloc))?;
    let program = with(program, why_command(alloc))?;
    with(program, explore_command(alloc))
}

/// Returns the program with its first eight commands.
fn eight_commands<'a>(alloc: Global) -> Result<Command<'a>, AllocError>
    ensures { IfOk result (λ r. app_of r ≡ eight_commands) }
{
    let program = with(four_commands(alloc)?, show_command(alloc))?;
    let program = with(program, debug_command(alloc))?;
    let program = with(program, play_command(alloc))?;
    with(program, check_command(alloc))
}

/// Returns the program with its first four commands.
fn four_commands<'a>(alloc: Global) -> Result<Command<'a>, AllocError>
    ensures { IfOk result (λ r. app_of r ≡ four_commands) }
{
    let program = with(bare_program(alloc), new_command(alloc))?;
    let program = with(program, run_command(alloc))?;
    let program = with(program, list_command(alloc))?;
    with(program, asm_command(alloc))
}

/// Adds the command to the program, if there was memory for the command.
#[tactic(auto, unfolding(crate::specs::CommandLine::WithMore))]
fn with<'a>(
    program: Command<'a>,
    command: Result<Command<'a>, AllocError>,
) -> Result<Command<'a>, AllocError>
    ensures { IfOk result (λ r. WithMore program.entry command.entry r) }
{
    program.subcommand(command?)
}

/// Returns the program without its commands.
fn bare_program<'a>(alloc: Global) -> Command<'a>
    ensures { app_of result ≡ bare_program }
{
    Command::new(alloc, "cmwq")
        .about("Emulates the concurrency-managed workqueues of the Linux kernel")
        .override_usage(help::USAGE)
        .after_help(help::PROGRAM)
        .after_long_help(help::COMMANDS)
        .version(help::VERSION)
        .subcommand_required(true)
        .arg_required_else_help(true)
}

/// Returns `new`, which writes a scenario to start from.
fn new_command<'a>(alloc: Global) -> Result<Command<'a>, AllocError>
    ensures { IfOk result (IsCommand new_command) }
{
    let file = optional(alloc, "FILE");
    command(alloc, "new", help::NEW).arg(file)
}

/// Returns `run`, which runs a scenario.
fn run_command<'a>(alloc: Global) -> Result<Command<'a>, AllocError>
    ensures { IfOk result (IsCommand run_command) }
{
    on_text(alloc, "run", help::RUN)?
        .arg(settle_flag(alloc))?
        .arg(flag(alloc, "tell"))?
        .arg(flag(alloc, "strict"))
}

/// Returns `list`, which lists a scenario.
fn list_command<'a>(alloc: Global) -> Result<Command<'a>, AllocError>
    ensures { IfOk result (IsCommand list_command) }
{
    on_text(alloc, "list", help::LIST)
}

/// Returns `asm`, which makes an image.
fn asm_command<'a>(alloc: Global) -> Result<Command<'a>, AllocError>
    ensures { IfOk result (IsCommand asm_command) }
{
    on_text(alloc, "asm", help::ASM)?.arg(argument(alloc, "OUT"))
}

/// Returns `show`, which lists an image.
fn show_command<'a>(alloc: Global) -> Result<Command<'a>, AllocError>
    ensures { IfOk result (IsCommand show_command) }
{
    command(alloc, "show", help::SHOW).arg(argument(alloc, "IMAGE"))
}

/// Returns `debug`, which steps through a run, forward and back.
fn debug_command<'a>(alloc: Global) -> Result<Command<'a>, AllocError>
    ensures { IfOk result (IsCommand debug_command) }
{
    on_text(alloc, "debug", help::DEBUG)?.arg(settle_flag(alloc))
}

/// Returns `play`, which runs the actors as threads.
fn play_command<'a>(alloc: Global) -> Result<Command<'a>, AllocError>
    ensures { IfOk result (IsCommand play_command) }
{
    let command = on_text(alloc, "play", help::PLAY)?;
    let capacity = argument(alloc, "N");
    command.arg(capacity.long("capacity"))
}

/// Returns `check`, which prints the first fault of each file.
fn check_command<'a>(alloc: Global) -> Result<Command<'a>, AllocError>
    ensures { IfOk result (IsCommand check_command) }
{
    let files = argument(alloc, "FILE");
    command(alloc, "check", help::CHECK).arg(files.action(ArgAction::Append))
}

/// Returns `settle`, which lists a scenario that runs until its machine is quiet.
fn settle_command<'a>(alloc: Global) -> Result<Command<'a>, AllocError>
    ensures { IfOk result (IsCommand settle_command) }
{
    on_text(alloc, "settle", help::SETTLE)
}

/// Returns `draw`, which draws a run.
fn draw_command<'a>(alloc: Global) -> Result<Command<'a>, AllocError>
    ensures { IfOk result (IsCommand draw_command) }
{
    spanned_command(alloc)?
        .arg(flag(alloc, "fold"))?
        .arg(valued(alloc, "WORKS", "works"))?
        .arg(valued(alloc, "SCALE", "scale"))?
        .arg(valued(alloc, "NAME", "id"))
}

/// Returns `draw` with the options that say which part of the run is drawn.
fn spanned_command<'a>(alloc: Global) -> Result<Command<'a>, AllocError>
    ensures { IfOk result (IsCommand spanned_command) }
{
    on_text(alloc, "draw", help::DRAW)?
        .arg(settle_flag(alloc))?
        .arg(flag(alloc, "svg"))?
        .arg(valued(alloc, "FROM", "from"))?
        .arg(valued(alloc, "TO", "to"))
}

/// Returns `why`, which prints what a work item or a flush waits for.
fn why_command<'a>(alloc: Global) -> Result<Command<'a>, AllocError>
    ensures { IfOk result (IsCommand why_command) }
{
    asking_command(alloc)?
        .arg(flag(alloc, "every"))?
        .arg(valued(alloc, "T", "time"))?
        .arg(settle_flag(alloc))
}

/// Returns `why` with the arguments that name the work item or the flush, and with `--at`.
fn asking_command<'a>(alloc: Global) -> Result<Command<'a>, AllocError>
    ensures { IfOk result (IsCommand asking_command) }
{
    let command = on_text(alloc, "why", help::WHY)?;
    let work = optional(alloc, "WORK");
    command
        .arg(work)?
        .arg(valued(alloc, "F", "flush"))?
        .arg(valued(alloc, "K", "at"))
}

/// Returns `explore`, which searches all interleavings.
fn explore_command<'a>(alloc: Global) -> Result<Command<'a>, AllocError>
    ensures { IfOk result (IsCommand explore_command) }
{
    let command = never_command(alloc)?;
    let before = several(alloc, "BEFORE", "before", 2..=2, &["A", "B"]);
    command
        .arg(before.action(ArgAction::Append))?
        .arg(valued(alloc, "N", "limit"))
}

/// Returns `explore` with the options that state the rule.
fn never_command<'a>(alloc: Global) -> Result<Command<'a>, AllocError>
    ensures { IfOk result (IsCommand never_command) }
{
    let command = on_text(alloc, "explore", help::EXPLORE)?;
    let works = several(alloc, "WORK", "never", 1..=2, &["WORK", "WORK"]);
    command
        .arg(valued(alloc, "ACTOR", "after"))?
        .arg(works)?
        .arg(flag(alloc, "stuck"))
}

/// Returns `times`, which prints how long each request waited and ran.
fn times_command<'a>(alloc: Global) -> Result<Command<'a>, AllocError>
    ensures { IfOk result (IsCommand times_command) }
{
    let command = on_text(alloc, "times", help::TIMES)?;
    let sweep = several(alloc, "SWEEP", "sweep", 2..=2, &["QUEUE", "LOW..HIGH"]);
    command
        .arg(flag(alloc, "json"))?
        .arg(flag(alloc, "whom"))?
        .arg(sweep)
}

/// Returns `trace`, which writes a run for other tools.
fn trace_command<'a>(alloc: Global) -> Result<Command<'a>, AllocError>
    ensures { IfOk result (IsCommand trace_command) }
{
    on_text(alloc, "trace", help::TRACE)?
        .arg(flag(alloc, "json"))?
        .arg(flag(alloc, "lines"))?
        .arg(flag(alloc, "text"))?
        .arg(valued(alloc, "OUT", "dat"))
}

/// Returns a command that takes the text of a scenario. It has this help.
fn on_text<'a>(alloc: Global, name: &'a str, help: &'a str) -> Result<Command<'a>, AllocError>
    ensures { IfOk result (IsCommand (command_on name.entry.now (codes "FILE"))) }
{
    command(alloc, name, help).arg(argument(alloc, "FILE"))
}

/// Returns a command that takes nothing. It has this help. The program's own help names all commands, in groups.
fn command<'a>(alloc: Global, name: &'a str, help: &'a str) -> Command<'a>
    ensures { IsCommand (new_app name.entry.now) result }
{
    Command::new(alloc, name).override_help(help).hide(true)
}

/// Returns an argument that has to be given.
fn argument<'a>(alloc: Global, id: &'a str) -> Arg<'a>
    ensures { IsArgument (required_rule id.entry.now) result }
{
    Arg::new(alloc, id).required(true)
}

/// Returns an argument that may be left out.
fn optional<'a>(alloc: Global, id: &'a str) -> Arg<'a>
    ensures { IsArgument (new_rule id.entry.now) result }
{
    Arg::new(alloc, id).required(false)
}

/// Returns an option without a value.
fn flag<'a>(alloc: Global, name: &'a str) -> Arg<'a>
    ensures { IsArgument (flag_rule name.entry.now) result }
{
    Arg::new(alloc, name).long(name).action(ArgAction::SetTrue)
}

/// Returns the option that continues a run until its machine is quiet.
fn settle_flag<'a>(alloc: Global) -> Arg<'a>
    ensures { IsArgument (flag_rule (codes "settle")) result }
{
    flag(alloc, "settle")
}

/// Returns an option that may be given, with its value.
fn valued<'a>(alloc: Global, id: &'a str, name: &'a str) -> Arg<'a>
    ensures { IsArgument (value_rule id.entry.now name.entry.now) result }
{
    Arg::new(alloc, id).long(name)
}

/// Returns an option that may be given, with so many values each time. Messages show these two names for the values.
fn several<'a>(
    alloc: Global,
    id: &'a str,
    name: &'a str,
    count: RangeInclusive<usize>,
    names: &'a [&'a str; 2],
) -> Arg<'a>
    requires { count.start ≤ count.end }
    ensures { IsArgument (several_rule id.entry.now name.entry.now count.start count.end) result }
{
    Arg::new(alloc, id)
        .long(name)
        .num_args(count)
        .value_names(names)
}
