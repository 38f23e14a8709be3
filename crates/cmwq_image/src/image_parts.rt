//! The parts of an image: its head, queues, works and actors.
ghost use Rattle.cmwq_image.specs.Image.{all_flags};
ghost use Rattle.cmwq_image.specs.ImageFault.{GivesRead, read_actor, flags_of, read_head, read_instr, is_set, read_line, many, read_op, read_queue, read_work};
ghost use Rattle.cmwq_types.specs.declared.limits.TheConstants.{MAX_ACTORS, MAX_LINES, MAX_OPS, MAX_QUEUES, MAX_WORKS};
ghost use Rattle.std.specs.Prelude.{◌≡◌, ◌+◌, ◌*◌, ◌≤◌, ◌<◌, IfOk, OnOk};

use crate::error::ImageError;
use crate::fields_left::FieldsLeft;
use crate::head::Head;
use crate::tags::{instr_room, op_room};
use crate::version::SECOND_VERSION;
use cmwq_types::{
    Actor, Fields, Flags, Instr, Line, MAX_ACTORS, MAX_LINES, MAX_OPS, MAX_QUEUES, MAX_WORKS, Op,
    QueueDecl, QueueId, WorkDecl, instr_of,
};
use std::alloc::Global;

impl<'a> FieldsLeft<'a> {
    /// What stands behind the version, up to the queues.
    #[tactic(auto, unfolding(crate::specs::ImageFault::read_head))]
    pub(crate) fn head(&mut self) -> Result<Head, ImageError>
        requires { self.old.at + 12 ≤ u32.MAX }
        ensures read { GivesRead (λ head. (head, self.new)) result (read_head self.old) }
        ensures queues { IfOk result (λ head. head.queues ≤ MAX_QUEUES) }
        ensures works { IfOk result (λ head. head.works ≤ MAX_WORKS) }
        ensures actors { IfOk result (λ head. head.actors ≤ MAX_ACTORS) }
        ensures ahead { OnOk result (self.new.at ≡ self.old.at + 12) }
    {
        let cpus = self.byte(0, u8::MAX)?;
        let workers = self.byte(0, u8::MAX)?;
        let steps = self.long(0, u32::MAX)?;
        let flushes = self.short(0, u16::MAX)?;
        let queues = self.byte(0, MAX_QUEUES as u8)?;
        let works = self.short(0, MAX_WORKS as u16)?;
        let actors = self.byte(0, MAX_ACTORS as u8)?;
        Ok(Head {
            cpus,
            workers,
            steps,
            flushes,
            queues,
            works,
            actors,
        })
    }

    /// So many queues, with flags of the version.
    pub(crate) fn queues(
        &mut self,
        alloc: Global,
        version: u16,
        count: u8,
    ) -> Result<Vec<QueueDecl>, ImageError>
        requires { self.old.at + 20 * count ≤ u32.MAX }
        ensures read { GivesRead (λ queues. (queues.items, self.new)) result (many (read_queue version) count self.old) }
        ensures ahead { OnOk result (self.new.at ≤ self.old.at + 20 * count) }
    {
        let mut queues = Vec::new(alloc);
        for _ in 0..count {
            queues.push(self.queue(version)?)?;
        }
        Ok(queues)
    }

    #[tactic(auto, unfolding(crate::specs::ImageFault::read_queue))]
    fn queue(&mut self, version: u16) -> Result<QueueDecl, ImageError>
        requires { self.old.at + 20 ≤ u32.MAX }
        ensures read { GivesRead (λ queue. (queue, self.new)) result (read_queue version self.old) }
        ensures ahead { OnOk result (self.new.at ≡ self.old.at + 20) }
    {
        let name = self.name()?;
        let max = self.short(0, u16::MAX)?;
        let bits = self.byte(0, all_flags(version))?;
        self.byte(0, 0)?;
        let flags = flags_of(bits);
        Ok(QueueDecl { name, max, flags })
    }

    /// So many works, with operations of the version.
    pub(crate) fn works(
        &mut self,
        alloc: Global,
        version: u16,
        count: u16,
    ) -> Result<Vec<WorkDecl>, ImageError>
        requires { self.old.at + 530 * count ≤ u32.MAX }
        ensures read { GivesRead (λ works. (works.items, self.new)) result (many (read_work version) count self.old) }
        ensures ahead { OnOk result (self.new.at ≤ self.old.at + 530 * count) }
    {
        let mut works = Vec::new(alloc);
        for _ in 0..count {
            works.push(self.work(alloc, version)?)?;
        }
        Ok(works)
    }

    #[tactic(auto, unfolding(crate::specs::ImageFault::read_work))]
    fn work(&mut self, alloc: Global, version: u16) -> Result<WorkDecl, ImageError>
        requires { self.old.at + 530 ≤ u32.MAX }
        ensures read { GivesRead (λ work. (work, self.new)) result (read_work version self.old) }
        ensures ahead { OnOk result (self.new.at ≤ self.old.at + 530) }
    {
        let name = self.name()?;
        let queue = QueueId(self.byte(0, u8::MAX)?);
        let count = self.byte(1, MAX_OPS as u8)?;
        let body = self.ops(alloc, version, count)?;
        Ok(WorkDecl { name, queue, body })
    }

    /// So many operations.
    fn ops(&mut self, alloc: Global, version: u16, count: u8) -> Result<Vec<Op>, ImageError>
        requires { self.old.at + 8 * count ≤ u32.MAX }
        ensures read { GivesRead (λ ops. (ops.items, self.new)) result (many (read_op version) count self.old) }
        ensures ahead { OnOk result (self.new.at ≤ self.old.at + 8 * count) }
    {
        let mut ops = Vec::new(alloc);
        for _ in 0..count {
            ops.push(self.op(version)?)?;
        }
        Ok(ops)
    }

    #[tactic(auto, unfolding(crate::specs::ImageFault::read_op))]
    fn op(&mut self, version: u16) -> Result<Op, ImageError>
        requires { self.old.at + 8 ≤ u32.MAX }
        ensures read { GivesRead (λ op. (op, self.new)) result (read_op version self.old) }
        ensures ahead { OnOk result (self.new.at ≡ self.old.at + 8) }
    {
        let word = self.op_tag(version)?;
        let room = op_room(word);
        let cpu = self.byte(0, room.cpu)?;
        let a = self.short(0, room.a)?;
        let n = self.long(0, room.n)?;
        Ok(word.with(Fields::new(cpu, a, n)))
    }

    /// So many actors, with instructions of the version.
    pub(crate) fn actors(
        &mut self,
        alloc: Global,
        version: u16,
        count: u8,
    ) -> Result<Vec<Actor>, ImageError>
        requires { self.old.at + 49170 * count ≤ u32.MAX }
        ensures read { GivesRead (λ actors. (actors.items, self.new)) result (many (read_actor version) count self.old) }
        ensures ahead { OnOk result (self.new.at ≤ self.old.at + 49170 * count) }
    {
        let mut actors = Vec::new(alloc);
        for _ in 0..count {
            actors.push(self.actor(alloc, version)?)?;
        }
        Ok(actors)
    }

    #[tactic(auto, unfolding(crate::specs::ImageFault::read_actor))]
    fn actor(&mut self, alloc: Global, version: u16) -> Result<Actor, ImageError>
        requires { self.old.at + 49170 ≤ u32.MAX }
        ensures read { GivesRead (λ actor. (actor, self.new)) result (read_actor version self.old) }
        ensures ahead { OnOk result (self.new.at ≤ self.old.at + 49170) }
    {
        let name = self.name()?;
        let count = self.short(0, MAX_LINES as u16)?;
        let lines = self.lines(alloc, version, count)?;
        Ok(Actor { name, lines })
    }

    /// So many lines.
    fn lines(&mut self, alloc: Global, version: u16, count: u16) -> Result<Vec<Line>, ImageError>
        requires { self.old.at + 12 * count ≤ u32.MAX }
        ensures read { GivesRead (λ lines. (lines.items, self.new)) result (many (read_line version) count self.old) }
        ensures ahead { OnOk result (self.new.at ≤ self.old.at + 12 * count) }
    {
        let mut lines = Vec::new(alloc);
        for _ in 0..count {
            lines.push(self.line(version)?)?;
        }
        Ok(lines)
    }

    #[tactic(auto, unfolding(crate::specs::ImageFault::read_line))]
    fn line(&mut self, version: u16) -> Result<Line, ImageError>
        requires { self.old.at + 12 ≤ u32.MAX }
        ensures read { GivesRead (λ line. (line, self.new)) result (read_line version self.old) }
        ensures ahead { OnOk result (self.new.at ≡ self.old.at + 12) }
    {
        let instr = self.instr(version)?;
        let times = self.long(0, u32::MAX)?;
        Ok(Line { instr, times })
    }

    #[tactic(auto, unfolding(crate::specs::ImageFault::read_instr))]
    fn instr(&mut self, version: u16) -> Result<Instr, ImageError>
        requires { self.old.at + 8 ≤ u32.MAX }
        ensures read { GivesRead (λ instr. (instr, self.new)) result (read_instr version self.old) }
        ensures ahead { OnOk result (self.new.at ≡ self.old.at + 8) }
    {
        let word = self.instr_tag(version)?;
        let room = instr_room(word);
        let cpu = self.byte(0, room.cpu)?;
        let a = self.short(0, room.a)?;
        let n = self.long(0, room.n)?;
        Ok(instr_of(word, cmwq_types::Fields::new(cpu, a, n)))
    }
}

/// The flags that these bits stand for.
fn flags_of(bits: u8) -> Flags
    ensures { result ≡ flags_of bits }
{
    Flags {
        highpri: is_set(bits, 1),
        unbound: is_set(bits, 2),
        cpu_intensive: is_set(bits, 4),
        freezable: is_set(bits, 8),
        ordered: is_set(bits, 16),
        mem_reclaim: is_set(bits, 32),
    }
}

/// The byte in which each flag is set that the version has.
fn all_flags(version: u16) -> u8
    ensures { result ≡ all_flags version }
{
    if version <= SECOND_VERSION { 31 } else { 63 }
}

/// Whether the bit that is worth so much is set.
fn is_set(bits: u8, bit: u8) -> bool
    requires { 0 < bit }
    ensures { result ≡ is_set bits bit }
{
    bits / bit % 2 == 1
}
