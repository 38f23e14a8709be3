//! How a debugging session is held.

/// How a debugging session is held.
#[derive(Clone, Copy, PartialEq, Eq)]
pub enum Manner {
    /// Each command is answered, and nothing else is said: for scripts.
    Plain,
    /// Before each command a prompt tells where the debugger stands, and behind a move stands what brought it there: for a
    /// person at a terminal.
    Prompted,
}
