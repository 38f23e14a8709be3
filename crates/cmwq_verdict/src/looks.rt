//! How a verdict looks.
ghost use Rattle.cmwq_grammar.specs.Meaning.{fault_at};
ghost use Rattle.cmwq_verdict.specs.Looks.{pointed, pointer, why_words};
ghost use Rattle.std.specs.Prelude.{◌≡◌, ◌++◌, ◌∷◌, OnOk, codes};

use crate::places::{line_start, rest_from};
use crate::reason_names::why_name;
use crate::shown::{Shown, push_shown_as};
use crate::writing::{push_between, push_bytes};
use cmwq_fitting::{TextFault, front_of};
use cmwq_grammar::Why;
use cmwq_scan::next_line;
use cmwq_types::NoMemory;

/// How a verdict looks.
#[derive(Clone, Copy, PartialEq, Eq)]
pub enum Look {
    /// As plain bytes, for files and editors.
    Plain,
    /// With the fault's line and a caret below the column, in plain bytes.
    Pointed,
    /// As a terminal shows it: the reason in red, and the fault's line with a caret below the column.
    Terminal,
}

/// Writes why the text has a fault.
pub(crate) fn push_why(told: &mut Vec<u8>, look: Look, why: Why) -> Result<(), NoMemory>
    ensures { OnOk result (told.new.items ≡ told.old.items ++ why_words look why) }
{
    match look {
        Look::Plain | Look::Pointed => push_bytes(told, why_name(why).as_bytes()),
        Look::Terminal => push_red(told, why_name(why).as_bytes()),
    }
}

/// Writes the word in red.
fn push_red(told: &mut Vec<u8>, word: &[u8]) -> Result<(), NoMemory>
    ensures { OnOk result (told.new.items ≡ told.old.items ++ (27 ∷ codes "[1;31m") ++ word.now ++ 27 ∷ codes "[0m") }
{
    push_between(told, b"\x1b[1;31m", word, b"\x1b[0m")
}

/// Writes what points at a column of the fault's line.
pub(crate) fn push_pointer(
    told: &mut Vec<u8>,
    look: Look,
    text: &[u8],
    fault: TextFault,
    column: usize,
) -> Result<(), NoMemory>
    ensures { OnOk result (told.new.items ≡ told.old.items ++ pointer look text.now (fault_at fault.line fault.why) column) }
{
    if look == Look::Plain || fault.line == 0 {
        return Ok(());
    }
    let start = line_start(text, fault.line - 1);
    match next_line(rest_from(text, start)) {
        Some((line, _)) => push_pointed(told, line, column),
        None => Ok(()),
    }
}

/// Writes the line, and a caret below the column.
fn push_pointed(told: &mut Vec<u8>, line: &[u8], column: usize) -> Result<(), NoMemory>
    ensures { OnOk result (told.new.items ≡ told.old.items ++ pointed line.now column) }
{
    if column > 100 {
        return Ok(());
    }
    push_bytes(told, b"  ")?;
    push_shown_as(told, Shown::Seen, front_of(line, 100))?;
    push_bytes(told, b"\n  ")?;
    let front = front_of(line, column.saturating_sub(1));
    push_shown_as(told, Shown::Blank, front)?;
    push_bytes(told, b"^\n")
}
