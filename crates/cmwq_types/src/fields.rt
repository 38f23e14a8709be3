//! An instruction as its word and three fields. Code that needs only the form of an instruction or operation goes by the shape of its word.
ghost use Rattle.cmwq_types.specs.Fields.{fields, fields_of, greatest_id, instr_of, shape_of, word_of};
ghost use Rattle.cmwq_types.specs.Values.{IsInstr};
ghost use Rattle.std.specs.Prelude.{◌≡◌, ◌≤◌};

use crate::instr::{Instr, QueueId, WorkId};
use crate::mnemonic::Mnemonic;

/// The operands that follow the word of an instruction or operation.
#[derive(Clone, Copy, PartialEq, Eq)]
pub enum Shape {
    /// Nothing.
    Alone,
    /// How many ticks.
    Ticks,
    /// A work.
    Work,
    /// A work and a CPU.
    WorkCpu,
    /// A work and how many ticks.
    WorkTicks,
    /// A work, a CPU and how many ticks.
    WorkCpuTicks,
    /// A queue.
    Queue,
    /// A queue and a number.
    QueueNumber,
    /// A pool.
    Pool,
    /// A flush.
    Flush,
    /// A time.
    Time,
}

/// The operands of an instruction: each field that its shape doesn't have is 0.
#[derive(Clone, Copy, PartialEq, Eq)]
pub struct Fields {
    /// A CPU or a pool.
    pub cpu: u8,
    /// A work, a queue or a flush.
    pub id: u16,
    /// How many ticks, a time, or a queue's `max_active`.
    pub number: u32,
}

impl Fields {
    /// These operands.
    pub fn new(cpu: u8, id: u16, number: u32) -> Fields
        ensures { result ≡ fields cpu id number }
    {
        Fields { cpu, id, number }
    }
}

/// What stands behind the word.
pub fn shape_of(mnemonic: Mnemonic) -> Shape
    ensures { result ≡ shape_of mnemonic }
{
    match mnemonic {
        Mnemonic::Queue => Shape::WorkCpu,
        Mnemonic::Delay | Mnemonic::Mod => Shape::WorkCpuTicks,
        Mnemonic::Cancel
        | Mnemonic::CancelSync
        | Mnemonic::Flush
        | Mnemonic::FlushDelayed
        | Mnemonic::State
        | Mnemonic::Disable
        | Mnemonic::Enable => Shape::Work,
        Mnemonic::FlushQueue => Shape::Queue,
        Mnemonic::SetMax => Shape::QueueNumber,
        Mnemonic::Freeze
        | Mnemonic::Thaw
        | Mnemonic::Fire
        | Mnemonic::Tick
        | Mnemonic::Next
        | Mnemonic::Busy
        | Mnemonic::Pressure
        | Mnemonic::Relief
        | Mnemonic::Quiet => Shape::Alone,
        Mnemonic::Step => Shape::Pool,
        Mnemonic::Ask | Mnemonic::Wait => Shape::Flush,
        Mnemonic::Until => Shape::Time,
    }
}

/// The instruction's word.
pub fn word_of(instr: Instr) -> Mnemonic
    ensures { result ≡ word_of instr }
{
    match instr {
        Instr::Queue(..) => Mnemonic::Queue,
        Instr::Delay(..) => Mnemonic::Delay,
        Instr::Mod(..) => Mnemonic::Mod,
        Instr::Cancel(_) => Mnemonic::Cancel,
        Instr::CancelSync(_) => Mnemonic::CancelSync,
        Instr::Flush(_) => Mnemonic::Flush,
        Instr::FlushDelayed(_) => Mnemonic::FlushDelayed,
        Instr::FlushQueue(_) => Mnemonic::FlushQueue,
        Instr::SetMax(..) => Mnemonic::SetMax,
        Instr::Freeze => Mnemonic::Freeze,
        Instr::Thaw => Mnemonic::Thaw,
        Instr::Fire => Mnemonic::Fire,
        Instr::Step(_) => Mnemonic::Step,
        Instr::Tick => Mnemonic::Tick,
        Instr::Next => Mnemonic::Next,
        Instr::Ask(_) => Mnemonic::Ask,
        Instr::Busy => Mnemonic::Busy,
        Instr::State(_) => Mnemonic::State,
        Instr::Disable(_) => Mnemonic::Disable,
        Instr::Enable(_) => Mnemonic::Enable,
        Instr::Pressure => Mnemonic::Pressure,
        Instr::Relief => Mnemonic::Relief,
        Instr::Until(_) => Mnemonic::Until,
        Instr::Wait(_) => Mnemonic::Wait,
        Instr::Quiet => Mnemonic::Quiet,
    }
}

/// The instruction's operands.
pub fn fields_of(instr: Instr) -> Fields
    ensures fields { result ≡ fields_of instr }
    ensures instr { IsInstr instr }
{
    match instr {
        Instr::Queue(work, cpu) => Fields::new(cpu, work.0, 0),
        Instr::Delay(work, cpu, ticks) | Instr::Mod(work, cpu, ticks) => Fields::new(
            cpu, work.0, ticks,
        ),
        Instr::Cancel(work)
        | Instr::CancelSync(work)
        | Instr::Flush(work)
        | Instr::FlushDelayed(work)
        | Instr::State(work)
        | Instr::Disable(work)
        | Instr::Enable(work) => Fields::new(0, work.0, 0),
        Instr::FlushQueue(queue) => Fields::new(0, u16::from(queue.0), 0),
        Instr::SetMax(queue, max) => Fields::new(0, u16::from(queue.0), max),
        Instr::Freeze
        | Instr::Thaw
        | Instr::Fire
        | Instr::Tick
        | Instr::Next
        | Instr::Busy
        | Instr::Pressure
        | Instr::Relief
        | Instr::Quiet => Fields::new(0, 0, 0),
        Instr::Step(pool) => Fields::new(pool, 0, 0),
        Instr::Ask(flush) | Instr::Wait(flush) => Fields::new(0, flush, 0),
        Instr::Until(time) => Fields::new(0, 0, time),
    }
}

/// The instruction of this word and these operands.
///
/// A field that the word's shape doesn't have is left out. The number of a queue has one byte.
pub fn instr_of(mnemonic: Mnemonic, fields: Fields) -> Instr
    requires { fields.id ≤ greatest_id (shape_of mnemonic) }
    ensures { result ≡ instr_of mnemonic fields }
{
    match mnemonic {
        Mnemonic::Queue => Instr::Queue(WorkId(fields.id), fields.cpu),
        Mnemonic::Delay => Instr::Delay(WorkId(fields.id), fields.cpu, fields.number),
        Mnemonic::Mod => Instr::Mod(WorkId(fields.id), fields.cpu, fields.number),
        Mnemonic::Cancel => Instr::Cancel(WorkId(fields.id)),
        Mnemonic::CancelSync => Instr::CancelSync(WorkId(fields.id)),
        Mnemonic::Flush => Instr::Flush(WorkId(fields.id)),
        Mnemonic::FlushDelayed => Instr::FlushDelayed(WorkId(fields.id)),
        Mnemonic::FlushQueue => Instr::FlushQueue(QueueId(fields.id as u8)),
        Mnemonic::SetMax => Instr::SetMax(QueueId(fields.id as u8), fields.number),
        Mnemonic::Freeze => Instr::Freeze,
        Mnemonic::Thaw => Instr::Thaw,
        Mnemonic::Fire => Instr::Fire,
        Mnemonic::Step => Instr::Step(fields.cpu),
        Mnemonic::Tick => Instr::Tick,
        Mnemonic::Next => Instr::Next,
        Mnemonic::Ask => Instr::Ask(fields.id),
        Mnemonic::Busy => Instr::Busy,
        Mnemonic::State => Instr::State(WorkId(fields.id)),
        Mnemonic::Disable => Instr::Disable(WorkId(fields.id)),
        Mnemonic::Enable => Instr::Enable(WorkId(fields.id)),
        Mnemonic::Pressure => Instr::Pressure,
        Mnemonic::Relief => Instr::Relief,
        Mnemonic::Until => Instr::Until(fields.number),
        Mnemonic::Wait => Instr::Wait(fields.id),
        Mnemonic::Quiet => Instr::Quiet,
    }
}
