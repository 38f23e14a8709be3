//! Parts of a state as bytes, one behind another: a small number takes one byte.
ghost use Rattle.cmwq_stored.specs.Packed.{burn_numbers, bytes_of, clock_bytes, eight_bytes, flush_numbers, four_bytes, idle_numbers, list_bytes, machine_bytes, mode_numbers, one_number, packed, pending_numbers, place_numbers, run_numbers, running_numbers, sign_numbers, target_numbers, truth, two_bytes, work_bytes};
ghost use Rattle.std.specs.Prelude.{◌≡◌, ◌++◌, ◌<◌, ◌^◌, OnOk};
ghost use Rattle.std.specs.List.{flat_map};

use cmwq_table::{FlushTarget, IdleWorker, Pending, Running, View};
use cmwq_types::{Mode, NoMemory, Place, WorkId};

/// What can be put behind other bytes.
pub(crate) trait Pack: Copy {
    ghost use Rattle.std.specs.Prelude.{List, ℕ};

    /// It as numbers.
    ghost numbers: { Self → List ℕ };

    /// Puts its numbers behind those bytes. The only error is want of memory.
    fn pack(self, bytes: &mut Vec<u8>) -> Result<(), NoMemory>
        ensures { OnOk result (bytes.new.items ≡ bytes.old.items ++ packed (numbers self)) };
}

/// Puts what holds for the whole machine.
#[tactic(auto, unfolding(crate::specs::Packed::machine_bytes))]
pub(crate) fn pack_machine(bytes: &mut Vec<u8>, view: &View) -> Result<(), NoMemory>
    ensures { OnOk result (bytes.new.items ≡ bytes.old.items ++ machine_bytes view.now) }
{
    pack_clock(bytes, view)?;
    pack_list(bytes, &view.max)?;
    pack_list(bytes, &view.made)?;
    pack_list(bytes, &view.flushes)
}

/// Puts how far it has come.
#[tactic(auto, unfolding(crate::specs::Packed::clock_bytes))]
fn pack_clock(bytes: &mut Vec<u8>, view: &View) -> Result<(), NoMemory>
    ensures { OnOk result (bytes.new.items ≡ bytes.old.items ++ clock_bytes view.now) }
{
    pack_number(bytes, view.time)?;
    pack_number(bytes, view.next)?;
    pack_number(bytes, u64::from(view.spent))?;
    pack_signs(bytes, view)
}

/// Puts what is set for the whole machine.
fn pack_signs(bytes: &mut Vec<u8>, view: &View) -> Result<(), NoMemory>
    ensures { OnOk result (bytes.new.items ≡ bytes.old.items ++ packed (sign_numbers view.now)) }
{
    view.frozen.pack(bytes)?;
    view.pressed.pack(bytes)
}

/// Puts what holds for its works and workers.
#[tactic(auto, unfolding(crate::specs::Packed::work_bytes))]
pub(crate) fn pack_works(bytes: &mut Vec<u8>, view: &View) -> Result<(), NoMemory>
    ensures { OnOk result (bytes.new.items ≡ bytes.old.items ++ work_bytes view.now) }
{
    pack_list(bytes, &view.pending)?;
    pack_list(bytes, &view.running)?;
    pack_list(bytes, &view.depth)?;
    pack_list(bytes, &view.idle)
}

/// Puts how many they are, and then each.
#[tactic(auto, unfolding(crate::specs::Packed::list_bytes))]
pub(crate) fn pack_list<T: Pack>(bytes: &mut Vec<u8>, items: &[T]) -> Result<(), NoMemory>
    ensures { OnOk result (bytes.new.items ≡ bytes.old.items ++ list_bytes T.numbers items.now) }
{
    pack_number(bytes, items.len() as u64)?;
    pack_all(bytes, items)
}

/// Puts each of them.
fn pack_all<T: Pack>(bytes: &mut Vec<u8>, items: &[T]) -> Result<(), NoMemory>
    ensures { OnOk result (bytes.new.items ≡ bytes.old.items ++ packed (flat_map T.numbers items.now)) }
{
    for item in items {
        item.pack(bytes)?;
    }
    Ok(())
}

/// Puts a number: below 254 one byte; below 65,536 two behind a 254; else eight behind a 255.
#[tactic(auto, unfolding(crate::specs::Packed::bytes_of))]
fn pack_number(bytes: &mut Vec<u8>, number: u64) -> Result<(), NoMemory>
    ensures { OnOk result (bytes.new.items ≡ bytes.old.items ++ bytes_of number) }
{
    if number < 254 {
        Ok(bytes.push(number as u8)?)
    } else if number < 65_536 {
        bytes.push(254)?;
        pack_two(bytes, number)
    } else {
        bytes.push(255)?;
        pack_eight(bytes, number)
    }
}

/// Puts two bytes, the lower one first.
fn pack_two(bytes: &mut Vec<u8>, number: u64) -> Result<(), NoMemory>
    requires { number < 65536 }
    ensures { OnOk result (bytes.new.items ≡ bytes.old.items ++ two_bytes number) }
{
    bytes.push((number % 256) as u8)?;
    bytes.push((number / 256) as u8)?;
    Ok(())
}

/// Puts four bytes, the lowest first.
fn pack_four(bytes: &mut Vec<u8>, number: u64) -> Result<(), NoMemory>
    requires { number < 4294967296 }
    ensures { OnOk result (bytes.new.items ≡ bytes.old.items ++ four_bytes number) }
{
    pack_two(bytes, number % 65_536)?;
    pack_two(bytes, number / 65_536)
}

/// Puts eight bytes, the lowest first.
fn pack_eight(bytes: &mut Vec<u8>, number: u64) -> Result<(), NoMemory>
    ensures { OnOk result (bytes.new.items ≡ bytes.old.items ++ eight_bytes number) }
{
    pack_four(bytes, number % 4_294_967_296)?;
    pack_four(bytes, number / 4_294_967_296)
}

impl Pack for u8 {
    ghost numbers = { one_number };

    fn pack(self, bytes: &mut Vec<u8>) -> Result<(), NoMemory> {
        pack_number(bytes, u64::from(self))
    }
}

impl Pack for u16 {
    ghost numbers = { one_number };

    fn pack(self, bytes: &mut Vec<u8>) -> Result<(), NoMemory> {
        pack_number(bytes, u64::from(self))
    }
}

impl Pack for bool {
    ghost numbers = { truth };

    fn pack(self, bytes: &mut Vec<u8>) -> Result<(), NoMemory> {
        pack_number(bytes, if self { 1 } else { 0 })
    }
}

/// A flush that an actor waits for, or none.
impl Pack for Option<u16> {
    ghost numbers = { flush_numbers };

    fn pack(self, bytes: &mut Vec<u8>) -> Result<(), NoMemory> {
        match self {
            None => pack_number(bytes, 0),
            Some(flush) => pack_number(bytes, u64::from(flush) + 1),
        }
    }
}

impl Pack for Place {
    ghost numbers = { place_numbers };

    fn pack(self, bytes: &mut Vec<u8>) -> Result<(), NoMemory> {
        match self {
            Place::Timer { due, cpu } => {
                pack_number(bytes, 0)?;
                pack_number(bytes, due)?;
                pack_number(bytes, u64::from(cpu))
            }
            Place::Inactive(pool) => {
                pack_number(bytes, 1)?;
                pack_number(bytes, u64::from(pool))
            }
            Place::Listed(pool) => {
                pack_number(bytes, 2)?;
                pack_number(bytes, u64::from(pool))
            }
            Place::Deferred(pool) => {
                pack_number(bytes, 3)?;
                pack_number(bytes, u64::from(pool))
            }
        }
    }
}

impl Pack for Mode {
    ghost numbers = { mode_numbers };

    fn pack(self, bytes: &mut Vec<u8>) -> Result<(), NoMemory> {
        match self {
            Mode::Runnable => pack_number(bytes, 0),
            Mode::Asleep(until) => {
                pack_number(bytes, 1)?;
                pack_number(bytes, until)
            }
        }
    }
}

impl Pack for (WorkId, Pending) {
    ghost numbers = { pending_numbers };

    fn pack(self, bytes: &mut Vec<u8>) -> Result<(), NoMemory> {
        let (work, pending) = self;
        pack_number(bytes, u64::from(work.0))?;
        pack_number(bytes, pending.born)?;
        pack_number(bytes, pending.stamp)?;
        pending.place.pack(bytes)
    }
}

/// How long a work has still to burn, and whether it sleeps.
impl Pack for (u32, Mode) {
    ghost numbers = { burn_numbers };

    fn pack(self, bytes: &mut Vec<u8>) -> Result<(), NoMemory> {
        let (left, mode) = self;
        pack_number(bytes, u64::from(left))?;
        mode.pack(bytes)
    }
}

/// Where a work runs.
impl Pack for Running {
    ghost numbers = { run_numbers };

    fn pack(self, bytes: &mut Vec<u8>) -> Result<(), NoMemory> {
        pack_number(bytes, u64::from(self.pool))?;
        pack_number(bytes, u64::from(self.worker))?;
        pack_number(bytes, u64::from(self.pc))?;
        (self.left, self.mode).pack(bytes)
    }
}

impl Pack for (WorkId, Running) {
    ghost numbers = { running_numbers };

    fn pack(self, bytes: &mut Vec<u8>) -> Result<(), NoMemory> {
        let (work, running) = self;
        pack_number(bytes, u64::from(work.0))?;
        pack_number(bytes, running.born)?;
        pack_number(bytes, running.stamp)?;
        running.pack(bytes)
    }
}

impl Pack for IdleWorker {
    ghost numbers = { idle_numbers };

    fn pack(self, bytes: &mut Vec<u8>) -> Result<(), NoMemory> {
        pack_number(bytes, u64::from(self.pool))?;
        pack_number(bytes, u64::from(self.worker))?;
        pack_number(bytes, self.stamp)
    }
}

impl Pack for FlushTarget {
    ghost numbers = { target_numbers };

    fn pack(self, bytes: &mut Vec<u8>) -> Result<(), NoMemory> {
        match self {
            FlushTarget::Instance { work, born } => {
                pack_number(bytes, 0)?;
                pack_number(bytes, u64::from(work.0))?;
                pack_number(bytes, born)
            }
            FlushTarget::Queue { queue, bound } => {
                pack_number(bytes, 1)?;
                pack_number(bytes, u64::from(queue.0))?;
                pack_number(bytes, bound)
            }
            FlushTarget::Nothing => pack_number(bytes, 2),
        }
    }
}
