//! A call, made once, and once more where memory was refused to it.

use crate::showing::say;
use cmwq_play::PlayError;
use std::alloc::Global;

/// A call that takes memory, with what its caller holds.
pub(crate) trait Tried {
    /// What it answers.
    type Answer: Drop;

    /// Shows what the caller holds, which may be nothing but what is lent.
    fn show_held<R: Print>(&mut self, _rt: &R) -> Result<(), PlayError> {
        Ok(())
    }

    /// Makes anew what the call takes by value, if it takes anything.
    fn prepare(&mut self, _alloc: Global) -> Result<(), PlayError> {
        Ok(())
    }

    /// Makes the call.
    fn call(&mut self, alloc: Global) -> Result<Self::Answer, PlayError>;

    /// Shows what it answered, which may be nothing but that it is done.
    fn show_answer<R: Print>(
        &mut self,
        _rt: &R,
        _alloc: Global,
        _answer: Self::Answer,
    ) -> Result<(), PlayError> {
        Ok(())
    }
}

/// Makes the call, and makes it again where it answered `NoMemory`. Prints what the caller holds behind `= held`; behind `= call` what the
/// call writes; and what it came to: behind `= ` its fault, or behind `= ok` what it answered. Where it is made again all that is printed
/// again.
pub(crate) fn try_call<R: Print, T: Tried>(
    rt: &R,
    alloc: Global,
    tried: &mut T,
) -> Result<(), PlayError> {
    if is_refused(rt, alloc, tried)? && is_refused(rt, alloc, tried)? {
        return Err(PlayError::NoMemory);
    }
    say(rt, "= held")?;
    tried.show_held(rt)
}

/// Makes the call, shows all but what the caller holds after it, and answers whether memory was refused to it.
fn is_refused<R: Print, T: Tried>(rt: &R, alloc: Global, tried: &mut T) -> Result<bool, PlayError> {
    tried.prepare(alloc)?;
    say(rt, "= held")?;
    tried.show_held(rt)?;
    say(rt, "= call")?;
    let outcome = tried.call(alloc);
    let is_refused = show_outcome(rt, &outcome)?;
    if let Ok(answer) = outcome {
        tried.show_answer(rt, alloc, answer)?;
    }
    Ok(is_refused)
}

/// Prints what a call came to, and answers whether memory was refused to it.
pub(crate) fn show_outcome<R: Print, T>(
    rt: &R,
    outcome: &Result<T, PlayError>,
) -> Result<bool, PlayError> {
    match outcome {
        Ok(_) => say(rt, "\n= ok")?,
        Err(fault) => say(rt, format_args!("\n= {fault}"))?,
    }
    Ok(matches!(outcome, Err(PlayError::NoMemory)))
}
