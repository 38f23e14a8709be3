//! Tests of what no clause says and no transcript shows. They try the lock under load, callers in threads
//! and checkpoints, and have worked examples of copies, lists, timers and the lock.
//!
//! Proved: nothing. It has tests.
#![tactic(auto)]

#[cfg(test)]
mod at_once;
#[cfg(test)]
mod bodies;
#[cfg(test)]
mod checking;
#[cfg(test)]
mod checkpoints;
#[cfg(test)]
mod examples;
#[cfg(test)]
mod filling;
#[cfg(test)]
mod lists;
#[cfg(test)]
mod load;
#[cfg(test)]
mod lock_history;
#[cfg(test)]
mod machines;
#[cfg(test)]
mod playing;
#[cfg(test)]
mod shared;
#[cfg(test)]
mod streams;
#[cfg(test)]
mod timers;
#[cfg(test)]
mod turns;
