//! What is noted of a good text.
ghost use Rattle.cmwq_grammar.specs.Cutting.{lines_of, words_of};
ghost use Rattle.cmwq_remarks.specs.Notes.{AreNotes, bound_works, begins_with_max, cpu_note, intensive_note, is_bound, is_intensive_beside, line_note, line_notes, note_if, note_line, notes_from, place_text, queues_itself, queues_work, steps_note, sync_note, trap_note, works_of};
ghost use Rattle.cmwq_types.specs.Scenario.{queue_named, work_named};
ghost use Rattle.cmwq_remarks.specs.Traps.{is_cpu, wants_cpu};
ghost use Rattle.cmwq_scan.specs.Words.{words_in, words_left};
ghost use Rattle.cmwq_types.specs.declared.limits.TheConstants.{MAX_QUEUES};
ghost use Rattle.std.specs.List.{list_any};
ghost use Rattle.std.specs.Prelude.{◌≡◌, ◌<◌, ◌≤◌, ◌++◌, ◌&&◌, IfOk, OnOk, codes, length, not, option_map};
ghost use Rattle.std.specs.Str.{bytes_eq};

use crate::traps::{cpu_sentence, has_few_steps, is_cpu, steps_sentence, uncounted, wants_cpu};
use cmwq_asm::{AsmError, assemble};
use cmwq_scan::{Token, Tokens, is_word, next_line, next_word, read_tokens, worded_part};
use cmwq_types::{Flags, NoMemory, Op, Scenario};
use itoa::Buffer;
use std::alloc::Global;

/// What is noted of the file's text, a line each: where it cancels a work and waits for it though its body queues it again, and where a
/// queue is CPU-intensive beside other works of CPUs. A kernel does otherwise there (`docs/KERNEL.md`). And which lines do less than they seem to: `quiet`,
/// `until` and `wait` without a count, a CPU that the machine hasn't, and too few `steps`. Of a text that spells no scenario nothing is noted. It fails only
/// for want of memory.
pub fn notes(alloc: Global, file: &str, text: &[u8]) -> Result<Vec<u8>, NoMemory>
    ensures { IfOk result (λ told. AreNotes file.now text.now told.items) }
{
    match assemble(alloc, text) {
        Ok(scenario) => notes_on(alloc, file, text, &scenario),
        Err(AsmError::At { .. }) => Ok(Vec::new(alloc)),
        Err(AsmError::NoMemory) => Err(NoMemory),
    }
}

/// What is noted of the lines of the text, which spells the scenario.
fn notes_on(
    alloc: Global,
    file: &str,
    text: &[u8],
    scenario: &Scenario,
) -> Result<Vec<u8>, NoMemory>
    requires { length scenario.now.queues ≤ MAX_QUEUES }
    ensures { IfOk result (λ told. told.items ≡ notes_from scenario.now file.now 1 (lines_of text.now)) }
{
    let mut told = Vec::new(alloc);
    let mut words = Tokens::new(alloc);
    let mut number = 1;
    let mut rest = text;
    while let Some((line, behind)) = next_line(rest) {
        let place = Place {
            scenario,
            file,
            number,
        };
        read_tokens(&mut words, line)?;
        place.push_notes(alloc, &mut told, line, &words)?;
        number += 1;
        rest = behind;
    }
    Ok(told)
}

/// A line of a file, by its number from 1, and the scenario that the file's text spells.
#[derive(Clone, Copy)]
struct Place<'a> {
    scenario: &'a Scenario,
    file: &'a str,
    number: usize,
}

impl Place<'_> {
    /// Appends what is noted of the line, which has these words.
    fn push_notes(
        &self,
        alloc: Global,
        told: &mut Vec<u8>,
        line: &[u8],
        words: &[Token<'_>],
    ) -> Result<(), NoMemory>
        requires queues { length self.now.scenario.now.queues ≤ MAX_QUEUES }
        requires words { words_in words.now ≡ words_of line.now }
        ensures { OnOk result (told.new.items ≡ told.old.items ++ line_notes self.now.scenario.now self.now.file.now self.now.number (words_of line.now)) }
    {
        self.push_note(told, line)?;
        self.push_trap_note(alloc, told, words)
    }

    /// Appends what is noted of a line of these words that does less than it seems to.
    fn push_trap_note(
        &self,
        alloc: Global,
        told: &mut Vec<u8>,
        words: &[Token<'_>],
    ) -> Result<(), NoMemory>
        ensures { OnOk result (told.new.items ≡ told.old.items ++ trap_note self.now.scenario.now self.now.file.now self.now.number (words_in words.now)) }
    {
        let [word, operands @ ..] = words else {
            return Ok(());
        };
        if is_word(word.bytes(), b"steps") {
            return self.push_steps_note(alloc, told);
        }
        let said = uncounted(alloc, word.bytes(), operands)?;
        self.push_note_if(told, word.bytes(), said)?;
        self.push_cpu_note(alloc, told, word.bytes(), operands)
    }

    /// Appends the note that this is said of the name, if something is.
    fn push_note_if(
        &self,
        told: &mut Vec<u8>,
        name: &[u8],
        said: Option<Vec<u8>>,
    ) -> Result<(), NoMemory>
        ensures { OnOk result (told.new.items ≡ told.old.items ++ note_if self.now.file.now self.now.number name.now (option_map (λ said. said.items) said)) }
    {
        match said {
            Some(sentence) => self.push_line(told, name, &sentence),
            None => Ok(()),
        }
    }

    /// Appends the note that the steps may be too few, if they may.
    fn push_steps_note(&self, alloc: Global, told: &mut Vec<u8>) -> Result<(), NoMemory>
        ensures { OnOk result (told.new.items ≡ told.old.items ++ steps_note self.now.scenario.now self.now.file.now self.now.number) }
    {
        let scenario = self.scenario;
        if !has_few_steps(scenario) {
            return Ok(());
        }
        let sentence = steps_sentence(alloc, scenario.steps)?;
        self.push_line(told, b"steps", &sentence)
    }

    /// Appends the note on a line of this word whose CPU isn't there.
    fn push_cpu_note(
        &self,
        alloc: Global,
        told: &mut Vec<u8>,
        word: &[u8],
        operands: &[Token<'_>],
    ) -> Result<(), NoMemory>
        ensures { OnOk result (told.new.items ≡ told.old.items ++ cpu_note self.now.scenario.now self.now.file.now self.now.number word.now (words_in operands.now)) }
    {
        let [name, cpu, more @ ..] = operands else {
            return Ok(());
        };
        if !self.lacks_cpu(word, cpu.bytes(), more) {
            return Ok(());
        }
        let scenario = self.scenario;
        let sentence = cpu_sentence(alloc, scenario.cpus, word, cpu.bytes())?;
        self.push_line(told, name.bytes(), &sentence)
    }

    /// Returns whether this stands in a CPU's place in a line of this word, and is none that the machine has.
    fn lacks_cpu(&self, word: &[u8], cpu: &[u8], more: &[Token<'_>]) -> bool
        ensures { result ≡ (wants_cpu word.now (words_in more.now) && (not (bytes_eq cpu.now (codes "max")) && not (is_cpu self.now.scenario.now cpu.now))) }
    {
        wants_cpu(word, more) && !is_word(cpu, b"max") && !is_cpu(self.scenario, cpu)
    }

    /// Appends what is noted of a line where a kernel does otherwise.
    fn push_note(&self, told: &mut Vec<u8>, line: &[u8]) -> Result<(), NoMemory>
        requires { length self.now.scenario.now.queues ≤ MAX_QUEUES }
        ensures { OnOk result (told.new.items ≡ told.old.items ++ line_note self.now.scenario.now self.now.file.now self.now.number (words_of line.now)) }
    {
        let Some((word, behind)) = next_word(worded_part(line)) else {
            return Ok(());
        };
        let Some((name, more)) = next_word(behind) else {
            return Ok(());
        };
        if is_word(word, b"cancel_sync") {
            return self.push_sync_note(told, name);
        }
        if is_word(word, b"queue") && begins_with_max(more) {
            return self.push_intensive_note(told, name);
        }
        Ok(())
    }

    /// Appends the note on a work of this name that is cancelled, if it queues itself.
    fn push_sync_note(&self, told: &mut Vec<u8>, name: &[u8]) -> Result<(), NoMemory>
        ensures { OnOk result (told.new.items ≡ told.old.items ++ sync_note self.now.scenario.now self.now.file.now self.now.number name.now (work_named self.now.scenario.now name.now)) }
    {
        match self.scenario.work_named(name) {
            Some(w) if queues_itself(self.scenario, w) => self.push_line(told, name, SYNC),
            _ => Ok(()),
        }
    }

    /// Appends the note on a queue of this name, if it is CPU-intensive beside other works of CPUs.
    fn push_intensive_note(&self, told: &mut Vec<u8>, name: &[u8]) -> Result<(), NoMemory>
        requires { length self.now.scenario.now.queues ≤ MAX_QUEUES }
        ensures { OnOk result (told.new.items ≡ told.old.items ++ intensive_note self.now.scenario.now self.now.file.now self.now.number name.now (queue_named self.now.scenario.now name.now)) }
    {
        match self.scenario.queue_named(name) {
            Some(queue) if is_intensive_beside(self.scenario, queue as u8) => {
                self.push_line(told, name, INTENSIVE)
            }
            _ => Ok(()),
        }
    }

    /// Appends a note's line.
    fn push_line(&self, told: &mut Vec<u8>, name: &[u8], sentence: &[u8]) -> Result<(), NoMemory>
        ensures { OnOk result (told.new.items ≡ told.old.items ++ note_line self.now.file.now self.now.number name.now sentence.now) }
    {
        self.push_place(told)?;
        told.extend_from_slice(name)?;
        told.extend_from_slice(b": ")?;
        told.extend_from_slice(sentence)?;
        told.extend_from_slice(b"\n")?;
        Ok(())
    }

    /// Appends what a note's line begins with.
    fn push_place(&self, told: &mut Vec<u8>) -> Result<(), NoMemory>
        ensures { OnOk result (told.new.items ≡ told.old.items ++ place_text self.now.file.now self.now.number) }
    {
        told.extend_from_slice(self.file.as_bytes())?;
        told.extend_from_slice(b":")?;
        told.extend_from_slice(Buffer::new().format(self.number).as_bytes())?;
        told.extend_from_slice(b": note: ")?;
        Ok(())
    }
}

const SYNC: &[u8] =
    b"cancel_sync lets it queue itself again, and a kernel's doesn't; disable, flush and enable do as a kernel's";

const INTENSIVE: &[u8] =
    b"other work items start beside its own, but burn only after these sleep or finish; a kernel time-slices the CPU";

/// Whether the next word is `max`.
fn begins_with_max(rest: &[u8]) -> bool
    ensures { result ≡ begins_with_max (words_left rest.now) }
{
    match next_word(rest) {
        Some((word, _)) => is_word(word, b"max"),
        None => false,
    }
}

/// Whether the work's body queues the work itself.
fn queues_itself(scenario: &Scenario, w: usize) -> bool
    ensures { result ≡ queues_itself scenario.now w }
{
    match scenario.works.get(w) {
        Some(work) => has_queue_of(w, &work.body),
        None => false,
    }
}

/// Whether one of the operations queues this work.
fn has_queue_of(w: usize, body: &[Op]) -> bool
    ensures { result ≡ list_any (queues_work w) body.now }
{
    body.iter().any(|op| queues_work(w, *op))
}

/// Whether the operation queues this work.
fn queues_work(w: usize, op: Op) -> bool
    ensures { result ≡ queues_work w op }
{
    match op {
        Op::Queue(other, _) => other.0 as usize == w,
        Op::Delay(other, _) | Op::Mod(other, _) => other.0 as usize == w,
        _ => false,
    }
}

/// Whether the queue is CPU-intensive, has works, and its works aren't the only ones that go to the pools of CPUs.
fn is_intensive_beside(scenario: &Scenario, queue: u8) -> bool
    ensures { result ≡ is_intensive_beside scenario.now queue }
{
    let flags = scenario.flags_of(queue);
    flags.cpu_intensive
        && is_bound(flags)
        && 1 <= works_of(scenario, queue)
        && 2 <= bound_works(scenario)
}

/// Whether works of a queue of these flags go to the pools of CPUs.
fn is_bound(flags: Flags) -> bool
    ensures { result ≡ is_bound flags }
{
    !(flags.unbound || flags.ordered)
}

/// How many works go to the pools of CPUs.
fn bound_works(scenario: &Scenario) -> usize
    ensures { result ≡ bound_works scenario.now }
{
    let mut count = 0;
    for w in 0..scenario.works.len() {
        if is_bound(scenario.flags_of(scenario.queue_of(w))) {
            count += 1;
        }
    }
    count
}

/// How many works the queue has.
fn works_of(scenario: &Scenario, queue: u8) -> usize
    ensures { result ≡ works_of scenario.now queue }
{
    let mut count = 0;
    for w in 0..scenario.works.len() {
        if scenario.queue_of(w) == queue {
            count += 1;
        }
    }
    count
}
