//! Writing an image.
ghost use Rattle.cmwq_image.specs.Image.{actor_image, flag_bits, head_image, image, in_order, instr_word, line_image, name_field, number, op_image, op_word, queue_image, word_image, work_image, worth};
ghost use Rattle.cmwq_image.specs.Limits.{BodiesFit, LinesFit};
ghost use Rattle.cmwq_types.specs.Values.{IsActor, IsScenario, IsInstr, IsLine, IsOp, IsQueueDecl, IsWorkDecl};
ghost use Rattle.cmwq_types.specs.Faults.{IsValid};
ghost use Rattle.cmwq_types.specs.Name.{is_name};
ghost use Rattle.cmwq_types.specs.declared.limits.TheConstants.{MAX_ACTORS, MAX_LINES, MAX_OPS, MAX_QUEUES, MAX_WORKS};
ghost use Rattle.cmwq_image.specs.declared.version.TheConstants.{VERSION};
ghost use Rattle.std.specs.Int.{w8, w16, w32};
ghost use Rattle.std.specs.List.{All, flat_map};
ghost use Rattle.std.specs.Prelude.{◌≡◌, ◌∷◌, ◌++◌, ◌≤◌, ◌<◌, ◌^◌, [], IfOk, IsTrue, OnOk, length};

use crate::tags::{op_tag, tag_of};
use crate::version::VERSION;
use crate::word::Word;
use cmwq_types::{
    Actor, Fields, Flags, Instr, Line, Name, NoMemory, Op, QueueDecl, Scenario, WorkDecl,
    fields_of, word_of,
};
use std::alloc::Global;

/// The image of a valid scenario, at most 923,058 bytes: a head, then each queue, each work with its operations and
/// each actor with its lines, in order, numbers with their highest byte first. The format is this project's own,
/// version 4, and is drawn in `docs/FORMATS.md`. The only error is want of memory.
pub fn write(alloc: Global, scenario: &Scenario) -> Result<Vec<u8>, NoMemory>
    requires { IsValid scenario.now }
    ensures image { IfOk result (λ bytes. bytes.items ≡ image VERSION scenario.now) }
    ensures contents { OnOk result (IsScenario scenario.now) }
{
    let mut bytes = Vec::new(alloc);
    push_head(&mut bytes, scenario)?;
    push_queues(&mut bytes, &scenario.queues)?;
    push_works(&mut bytes, &scenario.works)?;
    push_actors(&mut bytes, &scenario.actors)?;
    Ok(bytes)
}

fn push_byte(bytes: &mut Vec<u8>, n: u8) -> Result<(), NoMemory>
    ensures { OnOk result (bytes.new.items ≡ bytes.old.items ++ number w8 n) }
{
    bytes.extend_from_slice(&n.to_be_bytes())?;
    Ok(())
}

fn push_short(bytes: &mut Vec<u8>, n: u16) -> Result<(), NoMemory>
    ensures { OnOk result (bytes.new.items ≡ bytes.old.items ++ number w16 n) }
{
    bytes.extend_from_slice(&n.to_be_bytes())?;
    Ok(())
}

fn push_long(bytes: &mut Vec<u8>, n: u32) -> Result<(), NoMemory>
    ensures { OnOk result (bytes.new.items ≡ bytes.old.items ++ number w32 n) }
{
    bytes.extend_from_slice(&n.to_be_bytes())?;
    Ok(())
}

/// Writes the length of the name, its bytes, and zeros.
fn push_name(bytes: &mut Vec<u8>, name: &Name) -> Result<(), NoMemory>
    ensures image { OnOk result (bytes.new.items ≡ bytes.old.items ++ name_field name.now) }
    ensures name { OnOk result (IsTrue (is_name name.now)) }
{
    let text = name.as_bytes();
    let mut field = [0u8; 16];
    field[0] = text.len() as u8;
    field[1..text.len() + 1].copy_from_slice(text);
    bytes.extend_from_slice(&field)?;
    Ok(())
}

/// Writes the magic bytes, the version, the scenario's numbers, and how many queues, works and actors it has.
fn push_head(bytes: &mut Vec<u8>, scenario: &Scenario) -> Result<(), NoMemory>
    requires queues { length scenario.now.queues ≤ MAX_QUEUES }
    requires works { length scenario.now.works ≤ MAX_WORKS }
    requires actors { length scenario.now.actors ≤ MAX_ACTORS }
    ensures image { OnOk result (bytes.new.items ≡ bytes.old.items ++ head_image VERSION scenario.now) }
    ensures cpus { OnOk result (scenario.now.cpus < 2 ^ 8) }
    ensures workers { OnOk result (scenario.now.workers < 2 ^ 8) }
    ensures steps { OnOk result (scenario.now.steps < 2 ^ 32) }
    ensures flushes { OnOk result (scenario.now.flushes < 2 ^ 16) }
{
    bytes.extend_from_slice(b"CMWQ")?;
    push_short(bytes, VERSION)?;
    push_numbers(bytes, scenario)?;
    push_counts(bytes, scenario)?;
    Ok(())
}

fn push_numbers(bytes: &mut Vec<u8>, scenario: &Scenario) -> Result<(), NoMemory>
    ensures image { OnOk result (bytes.new.items ≡ bytes.old.items ++ in_order (number w8 scenario.now.cpus ∷ number w8 scenario.now.workers
        ∷ number w32 scenario.now.steps ∷ number w16 scenario.now.flushes ∷ [])) }
    ensures cpus { OnOk result (scenario.now.cpus < 2 ^ 8) }
    ensures workers { OnOk result (scenario.now.workers < 2 ^ 8) }
    ensures steps { OnOk result (scenario.now.steps < 2 ^ 32) }
    ensures flushes { OnOk result (scenario.now.flushes < 2 ^ 16) }
{
    push_byte(bytes, scenario.cpus)?;
    push_byte(bytes, scenario.workers)?;
    push_long(bytes, scenario.steps)?;
    push_short(bytes, scenario.flushes)
}

/// Writes how many queues, works and actors there are.
fn push_counts(bytes: &mut Vec<u8>, scenario: &Scenario) -> Result<(), NoMemory>
    requires queues { length scenario.now.queues ≤ MAX_QUEUES }
    requires works { length scenario.now.works ≤ MAX_WORKS }
    requires actors { length scenario.now.actors ≤ MAX_ACTORS }
    ensures { OnOk result (bytes.new.items ≡ bytes.old.items ++ in_order (number w8 (length scenario.now.queues)
        ∷ number w16 (length scenario.now.works) ∷ number w8 (length scenario.now.actors) ∷ [])) }
{
    push_byte(bytes, scenario.queues.len() as u8)?;
    push_short(bytes, scenario.works.len() as u16)?;
    push_byte(bytes, scenario.actors.len() as u8)
}

fn push_queues(bytes: &mut Vec<u8>, queues: &[QueueDecl]) -> Result<(), NoMemory>
    ensures image { OnOk result (bytes.new.items ≡ bytes.old.items ++ flat_map queue_image queues.now) }
    ensures queues { OnOk result (All IsQueueDecl queues.now) }
{
    for queue in queues {
        push_queue(bytes, queue)?;
    }
    Ok(())
}

fn push_queue(bytes: &mut Vec<u8>, queue: &QueueDecl) -> Result<(), NoMemory>
    ensures image { OnOk result (bytes.new.items ≡ bytes.old.items ++ queue_image queue.now) }
    ensures queue { OnOk result (IsQueueDecl queue.now) }
{
    push_name(bytes, &queue.name)?;
    push_short(bytes, queue.max)?;
    push_byte(bytes, flag_bits(queue.flags))?;
    push_byte(bytes, 0)
}

/// The flags as bits.
fn flag_bits(flags: Flags) -> u8
    ensures { result ≡ flag_bits flags }
{
    worth(flags.highpri, 1)
        + worth(flags.unbound, 2)
        + worth(flags.cpu_intensive, 4)
        + worth(flags.freezable, 8)
        + worth(flags.ordered, 16)
        + worth(flags.mem_reclaim, 32)
}

fn worth(flag: bool, bit: u8) -> u8
    ensures { result ≡ worth flag bit }
{
    if flag { bit } else { 0 }
}

fn push_works(bytes: &mut Vec<u8>, works: &[WorkDecl]) -> Result<(), NoMemory>
    requires { BodiesFit works.now }
    ensures image { OnOk result (bytes.new.items ≡ bytes.old.items ++ flat_map work_image works.now) }
    ensures works { OnOk result (All IsWorkDecl works.now) }
{
    for work in works {
        push_work(bytes, work)?;
    }
    Ok(())
}

fn push_work(bytes: &mut Vec<u8>, work: &WorkDecl) -> Result<(), NoMemory>
    requires { length work.now.body ≤ MAX_OPS }
    ensures image { OnOk result (bytes.new.items ≡ bytes.old.items ++ work_image work.now) }
    ensures work { OnOk result (IsWorkDecl work.now) }
{
    push_name(bytes, &work.name)?;
    push_byte(bytes, work.queue.0)?;
    push_byte(bytes, work.body.len() as u8)?;
    push_ops(bytes, &work.body)
}

fn push_ops(bytes: &mut Vec<u8>, body: &[Op]) -> Result<(), NoMemory>
    ensures image { OnOk result (bytes.new.items ≡ bytes.old.items ++ flat_map op_image body.now) }
    ensures body { OnOk result (All IsOp body.now) }
{
    for op in body {
        push_word(bytes, op_word(*op))?;
    }
    Ok(())
}

fn push_actors(bytes: &mut Vec<u8>, actors: &[Actor]) -> Result<(), NoMemory>
    requires { LinesFit actors.now }
    ensures image { OnOk result (bytes.new.items ≡ bytes.old.items ++ flat_map actor_image actors.now) }
    ensures actors { OnOk result (All IsActor actors.now) }
{
    for actor in actors {
        push_actor(bytes, actor)?;
    }
    Ok(())
}

fn push_actor(bytes: &mut Vec<u8>, actor: &Actor) -> Result<(), NoMemory>
    requires { length actor.now.lines ≤ MAX_LINES }
    ensures image { OnOk result (bytes.new.items ≡ bytes.old.items ++ actor_image actor.now) }
    ensures actor { OnOk result (IsActor actor.now) }
{
    push_name(bytes, &actor.name)?;
    push_short(bytes, actor.lines.len() as u16)?;
    push_lines(bytes, &actor.lines)
}

fn push_lines(bytes: &mut Vec<u8>, lines: &[Line]) -> Result<(), NoMemory>
    ensures image { OnOk result (bytes.new.items ≡ bytes.old.items ++ flat_map line_image lines.now) }
    ensures lines { OnOk result (All IsLine lines.now) }
{
    for line in lines {
        push_line(bytes, *line)?;
    }
    Ok(())
}

fn push_line(bytes: &mut Vec<u8>, line: Line) -> Result<(), NoMemory>
    ensures image { OnOk result (bytes.new.items ≡ bytes.old.items ++ line_image line) }
    ensures line { IsLine line }
{
    push_word(bytes, instr_word(line.instr))?;
    push_long(bytes, line.times)
}

fn push_word(bytes: &mut Vec<u8>, word: Word) -> Result<(), NoMemory>
    ensures { OnOk result (bytes.new.items ≡ bytes.old.items ++ word_image word) }
{
    push_byte(bytes, word.tag)?;
    push_byte(bytes, word.cpu)?;
    push_short(bytes, word.a)?;
    push_long(bytes, word.n)
}

/// The word of an operation.
fn op_word(op: Op) -> Word
    ensures image { result ≡ op_word op }
    ensures op { IsOp op }
{
    let Fields { cpu, id, number } = op.fields();
    Word::new(op_tag(op.word()), cpu, id, number)
}

/// The word of an instruction.
fn instr_word(instr: Instr) -> Word
    ensures image { result ≡ instr_word instr }
    ensures instr { IsInstr instr }
{
    let Fields { cpu, id, number } = fields_of(instr);
    Word::new(tag_of(word_of(instr)), cpu, id, number)
}
