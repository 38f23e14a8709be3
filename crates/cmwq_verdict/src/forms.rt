//! How lines are written.
ghost use Rattle.cmwq_grammar.specs.Cutting.{lines_of, words_of};
ghost use Rattle.cmwq_types.specs.Mnemonics.{mnemonic_of};
ghost use Rattle.cmwq_verdict.specs.Forms.{begin_with, call_name, ends_name, form_at, form_of_word, instruction_operands, kernel_form, kernel_words, operands_at, rest_in};
ghost use Rattle.std.specs.Prelude.{◌≡◌, ◌≤◌, IfOk, IfSome, drop, length, option_map, position};

use cmwq_grammar::Next;
use cmwq_language::operand_names;
use cmwq_scan::{is_word, next_line, next_word, worded_part};
use cmwq_types::{Mnemonic, NoMemory, shape_of};
use std::alloc::Global;

/// Lines that declare, as they are written.
const DECLARATIONS: &str = "\
cpus N
workers N
steps N
flushes N
queue NAME max N FLAG..
work NAME QUEUE
body WORK
actor NAME
";

/// Operations of bodies, as they are written.
const OPERATIONS: &str = "\
burn N
sleep N
queue WORK CPU
delay WORK N
mod WORK N
cancel WORK
finish
";

/// A kernel's words that declare queues and works, with the words that stand for them here.
const DECLARERS: &str = "\
alloc_workqueue queue
alloc_ordered_workqueue queue
create_workqueue queue
create_freezable_workqueue queue
create_singlethread_workqueue queue
max_active queue
INIT_WORK work
INIT_DELAYED_WORK work
DECLARE_WORK work
DECLARE_DELAYED_WORK work
";

/// A kernel's calls, with the words that stand for them here, in bodies or actors.
const CALLS: &str = "\
queue_work queue
queue_work_on queue
schedule_work queue
schedule_work_on queue
queue_delayed_work delay
queue_delayed_work_on delay
schedule_delayed_work delay
schedule_delayed_work_on delay
mod_delayed_work mod
mod_delayed_work_on mod
cancel_work cancel
cancel_delayed_work cancel
cancel_work_sync cancel_sync
cancel_delayed_work_sync cancel_sync
flush_work flush
flush_delayed_work flush_delayed
flush_workqueue flush_queue
workqueue_set_max_active set_max
disable_work disable
disable_delayed_work disable
enable_work enable
enable_delayed_work enable
work_pending state
delayed_work_pending state
work_busy state
udelay burn
mdelay burn
msleep sleep
ssleep sleep
return finish
";

/// Returns how the line is written that stands for this word of a kernel, if there is one. It fails only for want of memory.
pub(crate) fn kernel_form(
    alloc: Global,
    next: Next,
    word: &[u8],
) -> Result<Option<Vec<u8>>, NoMemory>
    ensures { IfOk result (λ form. option_map (λ form. form.items) form ≡ kernel_form next word.now) }
{
    match rest_in(kernel_words(next), call_name(word)) {
        Some(here) => form_at(alloc, next, behind(here, 1)),
        None => Ok(None),
    }
}

/// Returns how a line is written that begins with this word. It fails only for want of memory.
pub(crate) fn form_at(alloc: Global, next: Next, word: &[u8]) -> Result<Option<Vec<u8>>, NoMemory>
    ensures { IfOk result (λ form. option_map (λ form. form.items) form ≡ form_at next word.now) }
{
    let Some(operands) = operands_at(next, word) else {
        return Ok(None);
    };
    let mut form = Vec::from_slice(alloc, word)?;
    form.extend_from_slice(operands)?;
    Ok(Some(form))
}

/// Returns the operands of a line that begins with this word, each behind a blank.
fn operands_at(next: Next, word: &[u8]) -> Option<&'static [u8]>
    ensures { option_map (λ operands. operands.now) result ≡ operands_at next word.now }
{
    match next {
        Next::Operation { .. } => rest_in(OPERATIONS.as_bytes(), word),
        Next::Instruction { .. } => match instruction_operands(word) {
            Some(operands) => Some(operands),
            None => rest_in(DECLARATIONS.as_bytes(), word),
        },
        _ => rest_in(DECLARATIONS.as_bytes(), word),
    }
}

/// Returns the operands of the instruction of this word.
fn instruction_operands(word: &[u8]) -> Option<&'static [u8]>
    ensures { option_map (λ operands. operands.now) result ≡ instruction_operands (mnemonic_of word.now) }
{
    match Mnemonic::read(word) {
        Some(mnemonic) => Some(operand_names(shape_of(mnemonic)).as_bytes()),
        None => None,
    }
}

/// Returns the lines with a kernel's words for this place.
fn kernel_words(next: Next) -> &'static [u8]
    ensures { result.now ≡ kernel_words next }
{
    match next {
        Next::Operation { .. } | Next::Instruction { .. } => CALLS.as_bytes(),
        _ => DECLARERS.as_bytes(),
    }
}

/// Returns the name of a call, which a parenthesis or a semicolon may follow.
pub(crate) fn call_name(word: &[u8]) -> &[u8]
    ensures { result.now ≡ call_name word.now }
{
    match name_end(word) {
        Some(n) => word.split_at(n).0,
        None => word,
    }
}

/// Returns where the name of a call ends, if something follows it.
fn name_end(word: &[u8]) -> Option<usize>
    ensures end { result ≡ position ends_name word.now }
    ensures within { IfSome result (λ n. n ≤ length word.now) }
{
    word.iter().position(|byte| ends_name(*byte))
}

fn ends_name(byte: u8) -> bool
    ensures { result ≡ ends_name byte }
{
    byte == b'(' || byte == b';'
}

/// Returns what follows the word in the first of the lines that begins with it.
fn rest_in<'t>(lines: &'t [u8], word: &[u8]) -> Option<&'t [u8]>
    ensures { option_map (λ rest. rest.now) result ≡ rest_in (lines_of lines.now) word.now }
{
    let mut rest = lines;
    while let Some((line, after)) = next_line(rest) {
        if begins_with(line, word) {
            return Some(behind(line, word.len()));
        }
        rest = after;
    }
    None
}

/// Returns whether the line's first word is this one.
fn begins_with(line: &[u8], word: &[u8]) -> bool
    ensures { result ≡ begin_with word.now (words_of line.now) }
{
    match next_word(worded_part(line)) {
        Some((first, _)) => is_word(first, word),
        None => false,
    }
}

/// Returns the bytes behind so many.
#[tactic(auto, using(crate::proofs::PlaceLemmas::none_behind))]
fn behind(bytes: &[u8], count: usize) -> &[u8]
    ensures { result.now ≡ drop count bytes.now }
{
    if bytes.len() > count {
        bytes.split_at(count).1
    } else {
        &[]
    }
}
