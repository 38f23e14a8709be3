//! The parts of a scenario by their numbers.
ghost use Rattle.cmwq_types.specs.Scenario.{flags_at, is_unbound, local_cpu, op_at, pool_count, queue_at, queue_of, target, work_at};
ghost use Rattle.cmwq_types.specs.Setting.{IsSetting};
ghost use Rattle.cmwq_types.specs.declared.limits.TheConstants.{MAX_NAME};
ghost use Rattle.cmwq_types.specs.declared.scenario.Op.TheVariants as op;
ghost use Rattle.std.specs.Prelude.{◌≡◌, ◌<◌, ◌≤◌, length, slice_index_or};

use crate::scenario::{Flags, Op, Scenario};

impl Scenario {
    /// The flags of the queue of this number, from 0. Where there is no such queue, no flag is set.
    pub fn flags_of(&self, queue: u8) -> Flags
        ensures { result ≡ flags_at self.now queue }
    {
        match self.queues.get(queue as usize) {
            Some(declared) => declared.flags,
            None => Flags::PLAIN,
        }
    }

    /// The number of the queue that the work of this number is declared on, both from 0. Where there
    /// is no such work, it is 0.
    pub fn queue_of(&self, work: usize) -> u8
        ensures { result ≡ queue_of self.now work }
    {
        match self.works.get(work) {
            Some(declared) => declared.queue.0,
            None => 0,
        }
    }

    /// The name of the work of this number, from 0, and no text where there is no such work.
    pub fn work_name(&self, work: usize) -> &str
        ensures { result.now ≡ (work_at self.now work).name }
    {
        match self.works.get(work) {
            Some(work) => work.name.as_str(),
            None => "",
        }
    }

    /// The name of the queue of this number, from 0, and no text where there is no such queue.
    pub fn queue_name(&self, queue: usize) -> &str
        ensures { result.now ≡ (queue_at self.now queue).name }
    {
        match self.queues.get(queue) {
            Some(queue) => queue.name.as_str(),
            None => "",
        }
    }

    /// The bytes of the name of the work of this number, from 0, at most 15, and none where there is no such work.
    pub fn work_name_bytes(&self, work: usize) -> &[u8]
        ensures name { result.now ≡ (work_at self.now work).name }
        ensures short { length result.now ≤ MAX_NAME }
    {
        match self.works.get(work) {
            Some(work) => work.name.as_bytes(),
            None => &[],
        }
    }

    /// The bytes of the name of the queue of this number, from 0, at most 15, and none where there is no such queue.
    pub fn queue_name_bytes(&self, queue: usize) -> &[u8]
        ensures name { result.now ≡ (queue_at self.now queue).name }
        ensures short { length result.now ≤ MAX_NAME }
    {
        match self.queues.get(queue) {
            Some(queue) => queue.name.as_bytes(),
            None => &[],
        }
    }

    /// The operation at the place `pc`, from 0, of the work's body. Past the body's end, and where
    /// there is no such work, it is the finish.
    pub fn op_of(&self, work: usize, pc: u8) -> Op
        ensures { result ≡ op_at self.now work pc }
    {
        match self.works.get(work) {
            Some(declared) => op_in(&declared.body, pc),
            None => Op::Finish,
        }
    }

    /// How many worker pools there are: a normal and a high one for each CPU, by rising number, and
    /// then two unbound ones.
    pub fn pool_count(&self) -> u8
        requires { IsSetting self.now }
        ensures { result ≡ pool_count self.now }
    {
        2 * self.cpus + 2
    }

    /// Whether the worker pool is one of the two unbound ones.
    pub fn is_unbound(&self, pool: u8) -> bool
        requires { IsSetting self.now }
        ensures { result ≡ is_unbound self.now pool }
    {
        2 * self.cpus <= pool
    }

    /// The CPU, from 0, on which a body that runs in the worker pool sets timers and places works: the
    /// pool's own, and CPU 0 in an unbound pool, which is this project's own choice.
    pub fn local_cpu(&self, pool: u8) -> u8
        requires { IsSetting self.now }
        ensures local { result ≡ local_cpu self.now pool }
        ensures in_range { result < self.now.cpus }
    {
        if self.is_unbound(pool) { 0 } else { pool / 2 }
    }

    /// The number of the worker pool to which the queue's works go from the CPU: one of the two
    /// unbound pools where the queue is `unbound` or `ordered`, else one of the CPU's two; of these
    /// the high one where the queue is `highpri`.
    pub fn target_of(&self, queue: u8, cpu: u8) -> u8
        requires setting { IsSetting self.now }
        requires cpu { cpu < self.now.cpus }
        ensures target { result ≡ target self.now queue cpu }
        ensures in_range { result < pool_count self.now }
    {
        let flags = self.flags_of(queue);
        let normal = if flags.unbound || flags.ordered {
            2 * self.cpus
        } else {
            2 * cpu
        };
        if flags.highpri { normal + 1 } else { normal }
    }
}

fn op_in(body: &[Op], pc: u8) -> Op
    ensures { result ≡ slice_index_or body.now pc op.Finish }
{
    body.get(pc as usize).copied().unwrap_or(Op::Finish)
}
