//! What a command line tells the debugger.

use cmwq_debug::Command;

/// What a command line tells the debugger.
#[derive(Clone, Copy)]
pub enum Order {
    /// Nothing: it has no words.
    Nothing,
    /// It isn't a command.
    Bad,
    /// To break on a work that isn't declared, or to tell why it isn't further.
    NoWork,
    /// To tell the commands.
    Help,
    /// To end the session.
    Quit,
    /// To carry out the command.
    Do(Command),
}
