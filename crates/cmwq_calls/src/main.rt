//! The program `cmwq_calls`, for the gate. It makes the library call that its one word names. It prints
//! the result and what the caller holds before and after, and repeats the call if it ran out of memory.
//! The text of a scenario comes from standard input. `gate/refused_calls.py` refuses each call's 1st,
//! 2nd, .. allocation, and compares the output with that of a run with enough memory. If an allocation
//! outside the call fails, the program ends with `no memory` and its status. The word `history` names
//! no call: it issues the scenario's instructions on an engine, and prints the history, one line per
//! entry, `TICKET CALLER INSTRUCTION: REPLY`. If the simple machine replies or shows anything else, a
//! line says so. `gate/lessons.py` compares all that with what each lesson says.
//!
//! Proved: nothing. It is a program of the gate that makes library calls.
#![tactic(auto)]

mod acting;
mod bodies;
mod call_name;
mod comparing;
mod debugging;
mod engines;
mod entries;
mod history;
mod instructions;
mod machines;
mod session;
mod showing;
mod stores;
mod streams;
mod texts;
mod timing;
mod trying;
mod views;

use bodies::{BodyCall, try_body};
use call_name::{CallName, call_of};
use cmwq_core::Core;
use cmwq_outcome::fault;
use cmwq_plain::Plain;
use cmwq_play::{Marked, PlayError, read_whole};
use std::alloc::Global;
use std::io::Read;
use std::process::ExitCode;
use std::sync::Wait;
use std::thread::Threads;
use std::time::Clock;
use std::{env, io};

/// The status where the word names no call.
const USAGE: u8 = 2;

/// Makes a call of the machine of lists, or of the other body, that of vectors. No other function names them: that costs much to prove.
fn try_on_bodies<R: Print>(
    rt: &R,
    alloc: Global,
    call: BodyCall,
    text: &[u8],
) -> Result<(), PlayError> {
    try_body::<Core, Plain, R>(rt, alloc, call, text)
}

/// Makes the call, of the scenario of this text where it takes one.
fn try_named<R: Print + Threads + Wait + Clock + Sync>(
    rt: &R,
    alloc: Global,
    name: &CallName,
    text: &[u8],
) -> Result<(), PlayError> {
    match name {
        CallName::Lists(call) => stores::try_lists(rt, alloc, *call),
        CallName::Timers(call) => stores::try_timers(rt, alloc, *call),
        CallName::Text(call) => texts::try_text(rt, alloc, *call, text),
        CallName::On(call) => try_on_bodies(rt, alloc, *call, text),
        CallName::Stream(call) => streams::try_stream(rt, alloc, *call, text),
        CallName::Debug => session::try_debug(rt, alloc, text),
        CallName::Play => acting::try_play(rt, alloc, text),
    }
}

/// Makes the call that the word names, of the scenario of this text where it takes one, and gives the exit status.
fn try_word<R: Print + Threads + Wait + Clock + Sync>(
    rt: &R,
    alloc: Global,
    word: &str,
    text: &[u8],
) -> Result<u8, PlayError> {
    let Some(name) = call_of(word) else {
        return Ok(USAGE);
    };
    try_named(rt, alloc, &name, text)?;
    Ok(0)
}

/// Does what the one word says with the text that the reader has, and gives the exit status.
fn try_words<R: Print + Threads + Wait + Clock + Sync, I: Read + Drop>(
    rt: &R,
    alloc: Global,
    words: &[String],
    input: I,
) -> Result<u8, PlayError> {
    let Some(word) = words.get(1) else {
        return Ok(USAGE);
    };
    let text = read_whole(alloc, &mut Marked::new(input))?;
    try_word(rt, alloc, word.as_str(), &text)
}

/// The words of the command line, or none where they aren't all text.
fn words_given(rt: &HostRuntime) -> Result<Option<Vec<String>>, PlayError> {
    match env::args(rt) {
        Ok(words) => Ok(Some(words.collect(rt.alloc())?)),
        Err(error) if error.kind() == io::ErrorKind::OutOfMemory => Err(PlayError::NoMemory),
        Err(_) => Ok(None),
    }
}

fn main(rt: HostRuntime) -> ExitCode {
    let outcome = match words_given(&rt) {
        Ok(Some(words)) => try_words(&rt, rt.alloc(), &words, rt.stdin()),
        Ok(None) => Ok(USAGE),
        Err(error) => Err(error),
    };
    fault::end_with(&mut Marked::new(rt.stderr()), outcome)
}
