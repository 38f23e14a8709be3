//! The lines that declare queues and works: `queue NAME max N FLAG..` and `work NAME QUEUE`.
ghost use Rattle.cmwq_draft.specs.Declarations.{queue_of_line, work_of_line};
ghost use Rattle.cmwq_grammar.specs.Instructions.{queue_names, work_names};
ghost use Rattle.cmwq_grammar.specs.LineReasons.{add_flag, flags_at_line, queue_at_line, work_at_line};
ghost use Rattle.cmwq_scan.specs.Answers.{Tells};
ghost use Rattle.cmwq_scan.specs.Words.{words_left};
ghost use Rattle.cmwq_types.specs.Faults.{fits_flags};
ghost use Rattle.cmwq_types.specs.Scenario.{plain_flags};
ghost use Rattle.std.specs.List.{list_any};
ghost use Rattle.std.specs.Prelude.{◌≡◌, IfOk, false};
ghost use Rattle.std.specs.Str.{bytes_eq};

use crate::draft::Draft;
use cmwq_grammar::Why;
use cmwq_scan::{
    Named, is_word, next_word, take_keyword, take_last_declared, take_new_name, take_number,
};
use cmwq_types::{Fault, Flags, MAX_MAX_ACTIVE, QueueId};
use std::mem;

/// A queue whose `max` and flags may not fit.
#[derive(Drop)]
pub struct QueueLine<'t> {
    pub name: Named<'t>,
    /// Any number of at most ten digits.
    pub max: u64,
    pub flags: Flags,
}

/// A work of a queue that is declared.
#[derive(Drop)]
pub struct WorkLine<'t> {
    pub name: Named<'t>,
    pub queue: QueueId,
}

/// The queue that is behind the word `queue`, or the first reason against these words. Whether its `max` and its flags fit isn't judged.
#[tactic(auto, unfolding(cmwq_grammar::specs::LineReasons::queue_at_line))]
pub fn read_queue_line<'t>(draft: &Draft<'t>, rest: &'t [u8]) -> Result<QueueLine<'t>, Why>
    ensures line { Tells queue_of_line result (queue_at_line draft.now (words_left rest.now)) }
    ensures new { IfOk result (λ queue. list_any (λ other. bytes_eq other queue.name) (queue_names draft.now) ≡ false) }
{
    let (name, rest) = take_new_name(draft.queue_names(), rest)?;
    let rest = take_keyword(b"max", rest)?;
    let (max, rest) = take_number(rest)?;
    let flags = read_flags(rest)?;
    Ok(QueueLine { name, max, flags })
}

/// The flags of a queue; each word is one.
#[tactic(auto, unfolding(cmwq_grammar::specs::LineReasons::flags_at_line))]
fn read_flags(words: &[u8]) -> Result<Flags, Why>
    ensures { Tells (λ flags. flags) result (flags_at_line (words_left words.now) plain_flags) }
{
    let mut flags = Flags::PLAIN;
    let mut rest = words;
    while let Some((word, behind)) = next_word(rest) {
        flags = add_flag(flags, word)?;
        rest = behind;
    }
    Ok(flags)
}

/// The flags, and the one that the word names, which wasn't set.
#[tactic(auto, unfolding(cmwq_grammar::specs::LineReasons::add_flag))]
fn add_flag(flags: Flags, word: &[u8]) -> Result<Flags, Why>
    ensures { Tells (λ flags. flags) result (add_flag flags word.now) }
{
    let mut flags = flags;
    let was_set = if is_word(word, b"highpri") {
        mem::replace(&mut flags.highpri, true)
    } else if is_word(word, b"unbound") {
        mem::replace(&mut flags.unbound, true)
    } else if is_word(word, b"cpu_intensive") {
        mem::replace(&mut flags.cpu_intensive, true)
    } else if is_word(word, b"freezable") {
        mem::replace(&mut flags.freezable, true)
    } else if is_word(word, b"ordered") {
        mem::replace(&mut flags.ordered, true)
    } else if is_word(word, b"mem_reclaim") {
        mem::replace(&mut flags.mem_reclaim, true)
    } else {
        return Err(Why::BadWord);
    };
    if was_set {
        return Err(Why::Fault(Fault::Duplicate));
    }
    Ok(flags)
}

/// Whether the queue's `max` is within its limits, and 1 where the queue is ordered.
pub fn fits_flags(queue: &QueueLine) -> bool
    ensures { result ≡ fits_flags (queue_of_line queue.now) }
{
    let in_range = 1 <= queue.max && queue.max <= u64::from(MAX_MAX_ACTIVE);
    in_range && (!queue.flags.ordered || queue.max == 1)
}

/// The work that is behind the word `work`, or the first reason against these words.
#[tactic(auto, using(cmwq_scan::proofs::LineSteps::line_steps), unfolding(cmwq_grammar::specs::LineReasons::work_at_line))]
pub fn read_work_line<'t>(draft: &Draft<'t>, rest: &'t [u8]) -> Result<WorkLine<'t>, Why>
    ensures line { Tells work_of_line result (work_at_line draft.now (words_left rest.now)) }
    ensures new { IfOk result (λ work. list_any (λ other. bytes_eq other work.name) (work_names draft.now) ≡ false) }
{
    let (name, rest) = take_new_name(draft.work_names(), rest)?;
    let queue = take_last_declared(draft.queue_names(), rest)?;
    let queue = QueueId(queue as u8);
    Ok(WorkLine { name, queue })
}
