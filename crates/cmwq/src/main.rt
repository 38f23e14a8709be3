//! The program `cmwq`: words in, status out.
//!
//! Proved: the calls of `main` meet what the called functions require. `main` has no contract of its own.
#![tactic(auto)]

mod meter;

use crate::meter::Meter;
use cmwq_advice::take_explain;
use cmwq_command::{
    Disk, Manner, ProgramSetting, UNDONE, advise, advise_undone, carry_out, reads_input, remark,
};
use cmwq_outcome::{GOOD, Look, fault, tell};
use cmwq_play::{Marked, PlayError, read_whole};
use cmwq_request::request;
use cmwq_request::request::STANDARD_INPUT;
use std::fs::File;
use std::io::IsTerminal;
use std::process::ExitCode;
use std::rt::Files;
use std::sync::Wait;
use std::thread::Threads;
use std::time::Clock;
use std::{env, io};

/// The logic that the program's proofs rest on, as `rt version` names it; the gate compares the two.
const LOGIC: &str = "dac8208d650f15bf";

/// Does what the words of the command line ask, and ends with the exit status.
fn main(rt: HostRuntime) -> ExitCode {
    match words_given(&rt) {
        Ok(Some(words)) => do_words(&rt, &rt, words),
        Ok(None) => end_with(&rt, tell_not_text(&rt)),
        Err(error) => end_with(&rt, Err(error)),
    }
}

/// Does what the words ask, and gives the exit status. Threads are lent by the runtime as one that has them, which is a bound of the function.
fn do_words<R: AllocGlobal + Threads + Wait + Clock + Sync>(
    rt: &HostRuntime,
    threads: &R,
    words: Vec<String>,
) -> ExitCode {
    let mut words = words;
    let look = look_of_verdicts(rt, take_explain(&mut words));
    let _held = held_input(rt, &words);
    match input_read(rt, &words) {
        Ok(input) => do_all(rt, threads, &disk_of(rt, input.as_deref()), look, &words),
        Err(error) => end_with(rt, Err(error)),
    }
}

/// Opens a folder for `debug`, which reads standard input after it opens FILE. If standard input is closed, the folder takes its number in
/// place of FILE, and then reading fails, as it should.
fn held_input<R: Files>(rt: &R, words: &[String]) -> Option<R::File> {
    match words {
        [_, command, ..] if command.as_str() == "debug" => File::open(rt, "/").ok(),
        _ => None,
    }
}

/// Does what the words ask. A fault that was told is followed by what can be done about it, and a run by what should be known of it, where
/// that is asked for or standard error is a terminal.
fn do_all<R: AllocGlobal + Threads + Wait + Clock + Sync>(
    rt: &HostRuntime,
    threads: &R,
    disk: &Disk<'_, HostRuntime>,
    look: Look,
    words: &[String],
) -> ExitCode {
    let outcome = carried_out(rt, threads, disk, look, words);
    let mut errors = Marked::new(rt.stderr());
    let code = fault::end_with(&mut errors, outcome);
    if look != Look::Plain && !errors.failed {
        // Where this can't be told there is nobody left to tell that.
        let _ = match outcome {
            Err(fault) => advise(rt.alloc(), disk, look, words, fault, &mut errors),
            Ok(GOOD) => remark(rt.alloc(), disk, words, &mut errors),
            Ok(UNDONE) => {
                // It is a strict run, of which there are remarks, or an exploration, of which there is advice.
                let remarked = remark(rt.alloc(), disk, words, &mut errors);
                if errors.failed {
                    remarked
                } else {
                    advise_undone(rt.alloc(), disk, words, &mut errors)
                }
            }
            Ok(_) => Ok(()),
        };
    }
    code
}

/// Carries out what the words ask, over the program's own streams.
fn carried_out<R: AllocGlobal + Threads + Wait + Clock + Sync>(
    rt: &HostRuntime,
    threads: &R,
    disk: &Disk<'_, HostRuntime>,
    look: Look,
    words: &[String],
) -> Result<u8, PlayError> {
    let setting = ProgramSetting {
        logic: LOGIC,
        look,
        manner: manner_of_sessions(rt),
    };
    let mut meter = Meter::new(rt);
    let outcome = carry_out(
        threads,
        disk,
        setting,
        words,
        rt.stdin(),
        &mut Marked::new(rt.stdout()),
        &mut Marked::new(rt.stderr()),
        &mut meter,
    );
    meter.clear();
    outcome
}

/// The files of the system, with what standard input has.
fn disk_of<'a>(rt: &'a HostRuntime, input: Option<&'a [u8]>) -> Disk<'a, HostRuntime> {
    Disk { rt, input }
}

/// What standard input has, where the words ask for it as a file, and it can be read. The only error is want of memory.
fn input_read(rt: &HostRuntime, words: &[String]) -> Result<Option<Vec<u8>>, PlayError> {
    let is_named = words.iter().any(|word| word.as_str() == STANDARD_INPUT);
    if !is_named || !reads_input(rt.alloc(), words)? {
        return Ok(None);
    }
    match read_whole(rt.alloc(), &mut Marked::new(rt.stdin())) {
        Ok(text) => Ok(Some(text)),
        Err(PlayError::Read) => Ok(None),
        Err(error) => Err(error),
    }
}

/// Tells the fault that the program ends with, if there is one, and gives the exit status.
fn end_with(rt: &HostRuntime, outcome: Result<u8, PlayError>) -> ExitCode {
    fault::end_with(&mut Marked::new(rt.stderr()), outcome)
}

/// How verdicts look on standard error. A terminal has colours, unless its user wants none (no-color.org).
fn look_of_verdicts(rt: &HostRuntime, is_asked: bool) -> Look {
    match (rt.stderr().is_terminal(), is_asked) {
        (true, _) if wants_no_colours(rt) => Look::Pointed,
        (true, _) => Look::Terminal,
        (false, true) => Look::Pointed,
        (false, false) => Look::Plain,
    }
}

/// How a debugging session is held: with a prompt where a person types the commands and reads the answers.
fn manner_of_sessions(rt: &HostRuntime) -> Manner {
    if rt.stdin().is_terminal() && rt.stdout().is_terminal() {
        Manner::Prompted
    } else {
        Manner::Plain
    }
}

/// Whether `NO_COLOR` is there and isn't empty, or `TERM` is `dumb`.
fn wants_no_colours(rt: &HostRuntime) -> bool {
    let is_dumb = env::var(rt, "TERM").is_ok_and(|name| name.as_str() == "dumb");
    is_dumb || env::var(rt, "NO_COLOR").is_ok_and(|wish| !wish.is_empty())
}

/// The words of the command line, or none where they aren't all text.
fn words_given(rt: &HostRuntime) -> Result<Option<Vec<String>>, PlayError> {
    match env::args(rt) {
        Ok(words) => Ok(Some(words.collect(rt.alloc())?)),
        Err(error) if error.kind() == io::ErrorKind::OutOfMemory => Err(PlayError::NoMemory),
        Err(_) => Ok(None),
    }
}

/// Tells that the words aren't all text, and gives the exit status.
fn tell_not_text(rt: &HostRuntime) -> Result<u8, PlayError> {
    let error = request::not_text(rt.alloc())?;
    let mut output = Marked::new(rt.stdout());
    let mut errors = Marked::new(rt.stderr());
    tell(rt.alloc(), &mut output, &mut errors, error.kind(), &error)
}
