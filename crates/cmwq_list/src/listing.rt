//! The listing of a scenario: its canonical text.
ghost use Rattle.cmwq_grammar.specs.Grammar.{Spells};
ghost use Rattle.cmwq_types.specs.Faults.{IsValid};
ghost use Rattle.cmwq_types.specs.Listing.{Flagged, actor_line, actor_lines, body_lines, flag_words, instr_words, line_text, listing, op_line, operand_words, queue_line, times_words, word_if, work_line, written_text};
ghost use Rattle.cmwq_types.specs.Name.{is_name};
ghost use Rattle.cmwq_types.specs.Values.{IsActor, IsInstr, IsLine, IsOp, IsQueueDecl, IsScenario};
ghost use Rattle.std.specs.Fmt.{decimal};
ghost use Rattle.std.specs.List.{All, AllByRecursion, flat_map, join_with_byte};
ghost use Rattle.std.specs.Prelude.{◌≡◌, ◌++◌, ◌∷◌, ◌<◌, ◌^◌, [], IfOk, IsTrue, OnOk, length, map, ◌≤◌};

use crate::line_end::LineEnd;
use crate::lines::{push_line, push_others, push_words};
use cmwq_grammar::laws::listing_spells_its_scenario;
use cmwq_types::{
    Actor, Fields, Flags, Instr, Line, NoMemory, Op, QueueDecl, Scenario, Shape, WorkDecl,
    fields_of, shape_of, word_of,
};
use itoa::Buffer;
use std::alloc::Global;

/// The listing of the scenario, as bytes: its lines in order, each with one space between words and a line
/// feed at its end, with no comment and no blank line. The format is this project's own.
///
/// The listing of a valid scenario is a text that spells it. A scenario that isn't valid is listed too, and a
/// work or queue of a number that isn't declared then has no name there. It fails only for want of memory.
pub fn list(alloc: Global, scenario: &Scenario) -> Result<Vec<u8>, NoMemory>
    ensures listing { IfOk result (λ text. text.items ≡ listing scenario.now) }
    ensures spells { IfOk result (λ text. IsValid scenario.now → Spells text.items scenario.now) }
{
    listing_spells_its_scenario();
    listing_of(alloc, scenario)
}

/// The listing; and the contents are those of a scenario.
fn listing_of(alloc: Global, scenario: &Scenario) -> Result<Vec<u8>, NoMemory>
    ensures listing { IfOk result (λ text. text.items ≡ listing scenario.now) }
    ensures scenario { OnOk result (IsScenario scenario.now) }
{
    let Scenario {
        cpus,
        workers,
        steps,
        flushes,
        ..
    } = *scenario;
    let mut text = Vec::new(alloc);
    push_numbered(&mut text, b"cpus", u32::from(cpus))?;
    push_numbered(&mut text, b"workers", u32::from(workers))?;
    push_numbered(&mut text, b"steps", steps)?;
    push_numbered(&mut text, b"flushes", u32::from(flushes))?;
    push_queues(&mut text, &scenario.queues)?;
    push_works(&mut text, scenario)?;
    push_bodies(&mut text, scenario)?;
    push_actors(&mut text, scenario)?;
    Ok(text)
}

/// Writes a line of a word and a number.
fn push_numbered(text: &mut Vec<u8>, word: &[u8], n: u32) -> Result<(), NoMemory>
    ensures { OnOk result (text.new.items ≡ text.old.items ++ line_text (word.now ∷ decimal n ∷ [])) }
{
    let mut digits = Buffer::new();
    push_line(text, word, &[digits.format(n).as_bytes()])
}

fn push_queues(text: &mut Vec<u8>, queues: &[QueueDecl]) -> Result<(), NoMemory>
    ensures text { OnOk result (text.new.items ≡ text.old.items ++ flat_map written_text (map queue_line queues.now)) }
    ensures queues { OnOk result (All IsQueueDecl queues.now) }
{
    for queue in queues {
        push_queue(text, *queue)?;
    }
    Ok(())
}

fn push_queue(text: &mut Vec<u8>, queue: QueueDecl) -> Result<(), NoMemory>
    ensures text { OnOk result (text.new.items ≡ text.old.items ++ written_text (queue_line queue)) }
    ensures queue { OnOk result (IsQueueDecl queue) }
{
    let mut digits = Buffer::new();
    let words: &[&[u8]] = &[
        queue.name.as_bytes(),
        b"max",
        digits.format(queue.max).as_bytes(),
    ];
    push_flagged(text, b"queue", words, queue.flags)
}

/// Writes a line of the words and then the flags that are set.
fn push_flagged(
    text: &mut Vec<u8>,
    first: &[u8],
    others: &[&[u8]],
    flags: Flags,
) -> Result<(), NoMemory>
    ensures { OnOk result (text.new.items ≡ text.old.items
        ++ written_text (Flagged (first.now ∷ map (λ word. word.now) others.now) (flag_words flags))) }
{
    push_words(text, first, others)?;
    push_flags(text, flags)?;
    text.push(b'\n')?;
    Ok(())
}

/// Writes the flags that are set, each behind a space.
fn push_flags(text: &mut Vec<u8>, flags: Flags) -> Result<(), NoMemory>
    ensures { OnOk result (text.new.items ≡ text.old.items ++ flat_map (λ word. 32 ∷ word) (flag_words flags)) }
{
    push_word_if(text, flags.highpri, b"highpri")?;
    push_word_if(text, flags.unbound, b"unbound")?;
    push_word_if(text, flags.cpu_intensive, b"cpu_intensive")?;
    push_word_if(text, flags.freezable, b"freezable")?;
    push_word_if(text, flags.ordered, b"ordered")?;
    push_word_if(text, flags.mem_reclaim, b"mem_reclaim")?;
    Ok(())
}

/// Writes the word behind a space, where the test holds.
fn push_word_if(text: &mut Vec<u8>, holds: bool, word: &[u8]) -> Result<(), NoMemory>
    ensures { OnOk result (text.new.items ≡ text.old.items ++ flat_map (λ word. 32 ∷ word) (word_if holds word.now)) }
{
    if holds {
        push_others(text, &[word])?;
    }
    Ok(())
}

fn push_works(text: &mut Vec<u8>, scenario: &Scenario) -> Result<(), NoMemory>
    ensures text { OnOk result (text.new.items ≡ text.old.items ++ flat_map written_text (map (work_line scenario.now) scenario.now.works)) }
    ensures names { OnOk result (All (λ work. IsTrue (is_name work.name)) scenario.now.works) }
    ensures queues { OnOk result (All (λ work. work.queue.0 < 2 ^ 8) scenario.now.works) }
{
    for work in &scenario.works {
        let queue = scenario.queue_name_bytes(work.queue.0 as usize);
        push_line(text, b"work", &[work.name.as_bytes(), queue])?;
    }
    Ok(())
}

fn push_bodies(text: &mut Vec<u8>, scenario: &Scenario) -> Result<(), NoMemory>
    ensures text { OnOk result (text.new.items ≡ text.old.items ++ flat_map written_text (flat_map (body_lines scenario.now) scenario.now.works)) }
    ensures bodies { OnOk result (All (λ work. AllByRecursion IsOp work.body) scenario.now.works) }
{
    for work in &scenario.works {
        push_line(text, b"body", &[work.name.as_bytes()])?;
        push_ops(text, scenario, &work.body)?;
    }
    Ok(())
}

fn push_ops(text: &mut Vec<u8>, scenario: &Scenario, body: &[Op]) -> Result<(), NoMemory>
    ensures text { OnOk result (text.new.items ≡ text.old.items ++ flat_map written_text (map (op_line scenario.now) body.now)) }
    ensures ops { OnOk result (All IsOp body.now) }
{
    for op in body {
        push_op(text, scenario, *op)?;
    }
    Ok(())
}

fn push_op(text: &mut Vec<u8>, scenario: &Scenario, op: Op) -> Result<(), NoMemory>
    ensures text { OnOk result (text.new.items ≡ text.old.items ++ written_text (op_line scenario.now op)) }
    ensures op { IsOp op }
{
    let mut end = LineEnd::new();
    put_op(&mut end, scenario, op);
    text.extend_from_slice(end.as_bytes())?;
    Ok(())
}

/// Puts the operation's words before a line feed.
fn put_op(text: &mut LineEnd, scenario: &Scenario, op: Op)
    requires { text.old ≡ 10 ∷ [] }
    ensures text { text.new ≡ written_text (op_line scenario.now op) }
    ensures op { IsOp op }
{
    let word = op.word();
    put_operands(text, scenario, word.shape(), op.fields());
    text.put(word.as_bytes());
}

fn push_actors(text: &mut Vec<u8>, scenario: &Scenario) -> Result<(), NoMemory>
    ensures text { OnOk result (text.new.items ≡ text.old.items ++ flat_map written_text (flat_map (actor_lines scenario.now) scenario.now.actors)) }
    ensures actors { OnOk result (All IsActor scenario.now.actors) }
{
    for actor in &scenario.actors {
        push_line(text, b"actor", &[actor.name.as_bytes()])?;
        push_lines(text, scenario, &actor.lines)?;
    }
    Ok(())
}

fn push_lines(text: &mut Vec<u8>, scenario: &Scenario, lines: &[Line]) -> Result<(), NoMemory>
    ensures text { OnOk result (text.new.items ≡ text.old.items ++ flat_map written_text (map (actor_line scenario.now) lines.now)) }
    ensures lines { OnOk result (All IsLine lines.now) }
{
    for line in lines {
        push_actor_line(text, scenario, *line)?;
    }
    Ok(())
}

fn push_actor_line(text: &mut Vec<u8>, scenario: &Scenario, line: Line) -> Result<(), NoMemory>
    ensures text { OnOk result (text.new.items ≡ text.old.items ++ written_text (actor_line scenario.now line)) }
    ensures line { IsLine line }
{
    let mut end = LineEnd::new();
    put_times(&mut end, line.times);
    put_instr(&mut end, scenario, line.instr);
    text.extend_from_slice(end.as_bytes())?;
    Ok(())
}

/// Puts the instruction's words before what is there.
fn put_instr(text: &mut LineEnd, scenario: &Scenario, instr: Instr)
    requires { length text.old ≤ 14 }
    ensures text { text.new ≡ join_with_byte 32 (instr_words scenario.now instr) ++ text.old }
    ensures instr { IsInstr instr }
{
    let word = word_of(instr);
    put_operands(text, scenario, shape_of(word), fields_of(instr));
    text.put(word.as_bytes());
}

/// Puts a space and each operand before what is there.
fn put_operands(text: &mut LineEnd, scenario: &Scenario, shape: Shape, fields: Fields)
    requires { length text.old ≤ 14 }
    ensures text { text.new ≡ flat_map (λ word. 32 ∷ word) (operand_words scenario.now shape fields) ++ text.old }
    ensures short { length text.new ≤ 52 }
{
    let Fields { cpu, id, number } = fields;
    match shape {
        Shape::Alone => {}
        Shape::Ticks | Shape::Time => text.put_number(number),
        Shape::Work => text.put_word(scenario.work_name_bytes(id as usize)),
        Shape::WorkTicks => {
            text.put_number(number);
            text.put_word(scenario.work_name_bytes(id as usize));
        }
        Shape::WorkCpu => {
            text.put_number(u32::from(cpu));
            text.put_word(scenario.work_name_bytes(id as usize));
        }
        Shape::WorkCpuTicks => {
            text.put_number(number);
            text.put_number(u32::from(cpu));
            text.put_word(scenario.work_name_bytes(id as usize));
        }
        Shape::Queue => text.put_word(scenario.queue_name_bytes(id as usize)),
        Shape::QueueNumber => {
            text.put_number(number);
            text.put_word(scenario.queue_name_bytes(id as usize));
        }
        Shape::Pool => text.put_number(u32::from(cpu)),
        Shape::Flush => text.put_number(u32::from(id)),
    }
}

/// Puts `* N` behind a space, unless the line stands once.
fn put_times(text: &mut LineEnd, times: u32)
    requires { length text.old ≤ 1 }
    ensures text { text.new ≡ flat_map (λ word. 32 ∷ word) (times_words times) ++ text.old }
    ensures short { length text.new ≤ 14 }
{
    if times != 1 {
        text.put_number(times);
        text.put_word(b"*");
    }
}
