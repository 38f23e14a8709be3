//! The lines of a scenario's replies.
ghost use Rattle.cmwq_lines.specs.Putting.{Puts, ended, repeated, spaced};
ghost use Rattle.cmwq_table.specs.Events.{already_text, asked_name, changed_text, event_text, found_text, is_silent, place_text, refusal_text, reply_line, reply_words, run_text, timed_object, was_text, work_name, worker_text};
ghost use Rattle.cmwq_types.specs.declared.instr.Instr.{Instr};
ghost use Rattle.std.specs.Fmt.{decimal};
ghost use Rattle.std.specs.Prelude.{◌≡◌, ◌+◌, ◌≤◌, ◌++◌, [], IfOk, OnOk, false, true, codes, length, map};

use crate::block::{Block, make_room};
use crate::numbered::Numbered;
use crate::short::{Short, put_text};
use cmwq_table::{Happened, is_silent};
use cmwq_types::{
    Event, Instr, Mode, NoMemory, Place, RESCUER, Refusal, Reply, Scenario, WorkDecl, WorkId,
    WorkRun,
};
use std::alloc::Global;
use std::marker::Model;

/// No line that is put together from parts has as many bytes, with the room of one part more.
const ROOM: usize = 192;

/// How many numbers keep their text.
const NUMBERS: u64 = 64;

/// Writes the lines of a scenario's replies. Contracts see the scenario.
///
/// The texts of the names are made once, and those of a time and of a number of ticks only where they are others than before.
#[derive(Drop)]
pub struct ReplyLines<'s> {
    scenario: &'s Scenario,
    /// The time of the last line.
    time: Numbered,
    /// A blank and the name of each work.
    names: Vec<Short>,
    /// Numbers of ticks and of flushes, each at the place of its last bits.
    numbers: Vec<Numbered>,
}

impl<'s> Model for ReplyLines<'s> {
    ghost use Rattle.cmwq_types.specs.Contents.{ScenarioContents};

    ghost Value = { ScenarioContents };

    ghost use Rattle.cmwq_lines.specs.Parts.{HasParts};

    ghost view = { λ lines. lines.scenario.now };

    ghost invariant = { λ lines. HasParts lines.scenario.now lines.names.items lines.numbers.items };
}

impl<'s> ReplyLines<'s> {
    /// Makes the parts of the scenario's lines. It fails only for want of memory.
    pub fn new(alloc: Global, scenario: &'s Scenario) -> Result<ReplyLines<'s>, NoMemory>
        ensures { IfOk result (λ lines. lines ≡ scenario.now) }
    {
        Ok(ReplyLines {
            scenario,
            time: Numbered::new(0),
            names: spaced_names(alloc, &scenario.works)?,
            numbers: first_numbers(alloc)?,
        })
    }

    /// Writes the line of a reply at a time to an instruction behind what the block has: nothing where the reply has no line.
    ///
    /// It fails only for want of memory. What the block has then is lost.
    #[inline(never)]
    pub fn push(
        &mut self,
        block: &mut Block,
        time: u64,
        instr: Instr,
        reply: &Reply,
    ) -> Result<(), NoMemory>
        ensures same { self.new ≡ self.old }
        ensures line { OnOk result (block.new ≡ block.old ++ reply_line self.old time instr reply.now) }
    {
        if is_silent(*reply) {
            return Ok(());
        }
        let Block { bytes, len } = block;
        make_room(bytes, *len, ROOM)?;
        *len = self.put_line(bytes.as_mut_slice(), *len, time, instr, reply);
        Ok(())
    }

    /// Writes the line of what happened to a work at a time behind what the block has, where that has room for it, and answers whether it did.
    #[inline(always)]
    pub fn push_event(&mut self, block: &mut Block, time: u64, happened: Happened) -> bool
        ensures same { self.new ≡ self.old }
        ensures line { result ≡ true → (asked : Instr) → block.new ≡ block.old ++ reply_line self.old time asked (Reply.Event happened.work happened.event) }
        ensures none { result ≡ false → block.new ≡ block.old }
    {
        let Block { bytes, len } = block;
        if bytes.len() - *len < ROOM {
            return false;
        }
        let Happened { work, event } = happened;
        *len = self.put_event_line(bytes.as_mut_slice(), *len, time, work, event);
        true
    }

    /// Writes the line of a reply at a time to an instruction so many times behind what the block has. It is put together once.
    ///
    /// It fails only for want of memory. What the block has then is lost.
    #[inline(always)]
    pub fn push_times(
        &mut self,
        block: &mut Block,
        time: u64,
        instr: Instr,
        reply: &Reply,
        times: u32,
    ) -> Result<(), NoMemory>
        ensures same { self.new ≡ self.old }
        ensures lines { OnOk result (block.new ≡ block.old ++ repeated (reply_line self.old time instr reply.now) times) }
    {
        if times == 0 {
            return Ok(());
        }
        let start = block.len();
        self.push(block, time, instr, reply)?;
        if times == 1 {
            return Ok(());
        }
        block.repeat_end(start, times - 1)
    }

    /// Puts the line of an event, and answers where it ends.
    #[inline(always)]
    fn put_event_line(
        &mut self,
        block: &mut [u8],
        at: usize,
        time: u64,
        work: WorkId,
        event: Event,
    ) -> usize
        requires { at + 192 ≤ length block.old }
        ensures same { self.new ≡ self.old }
        ensures line { (asked : Instr) → Puts block.old at block.new result (reply_line self.old time asked (Reply.Event work event)) }
    {
        let at = self.put_time(block, at, time);
        self.put_work_event(block, at, work, event)
    }

    /// Puts the line of a reply that has one, and answers where it ends.
    #[inline(always)]
    fn put_line(
        &mut self,
        block: &mut [u8],
        at: usize,
        time: u64,
        instr: Instr,
        reply: &Reply,
    ) -> usize
        requires room { at + 192 ≤ length block.old }
        requires told { is_silent reply.now ≡ false }
        ensures same { self.new ≡ self.old }
        ensures line { Puts block.old at block.new result (reply_line self.old time instr reply.now) }
    {
        let at = self.put_time(block, at, time);
        self.put_words(block, at, instr, reply)
    }

    /// Puts the time.
    #[inline(always)]
    fn put_time(&mut self, block: &mut [u8], at: usize, time: u64) -> usize
        requires { at + 24 ≤ length block.old }
        ensures same { self.new ≡ self.old }
        ensures time { Puts block.old at block.new result (decimal time) }
        ensures short { length (decimal time) ≤ 24 }
    {
        self.time.set(time);
        self.time.put(block, at)
    }

    /// Puts what the line says behind the time, and answers where it ends.
    #[inline(always)]
    fn put_words(&mut self, block: &mut [u8], at: usize, instr: Instr, reply: &Reply) -> usize
        requires { at + 168 ≤ length block.old }
        ensures same { self.new ≡ self.old }
        ensures words { Puts block.old at block.new result (spaced (ended (reply_words self.old instr reply.now))) }
    {
        match *reply {
            Reply::Queued | Reply::Done => put_text(block, at, *b" \n"),
            Reply::Already => put_text(block, at, *b" already\n"),
            Reply::Changed => put_text(block, at, *b" changed\n"),
            Reply::Cancelled => put_text(block, at, *b" cancelled\n"),
            Reply::NotPending => put_text(block, at, *b" not pending\n"),
            Reply::Yes => put_text(block, at, *b" yes\n"),
            Reply::No => put_text(block, at, *b" no\n"),
            Reply::Flush(flush) => {
                let at = put_text(block, at, *b" flush ");
                self.put_number(block, at, u64::from(flush))
            }
            Reply::Sync { was, flush } => {
                let at = put_was(block, at, was);
                self.put_number(block, at, u64::from(flush))
            }
            Reply::Found(state) => {
                let at = self.put_asked(block, at, instr);
                let at = self.put_place(block, at, state.place);
                self.put_run(block, at, state.run)
            }
            Reply::Event { work, event } => self.put_work_event(block, at, work, event),
            Reply::Refused(why) => put_refusal(block, at, why),
        }
    }

    /// Puts a blank and the name of the work that the instruction asks for.
    fn put_asked(&self, block: &mut [u8], at: usize, instr: Instr) -> usize
        requires { at + 24 ≤ length block.old }
        ensures name { Puts block.old at block.new result (spaced (asked_name self.now instr)) }
        ensures short { length (spaced (asked_name self.now instr)) ≤ 24 }
    {
        match instr {
            Instr::State(work) => self.put_name(block, at, work),
            _ => put_text(block, at, *b" "),
        }
    }

    /// Puts a blank and where a work waits.
    fn put_place(&mut self, block: &mut [u8], at: usize, place: Option<Place>) -> usize
        requires { at + 34 ≤ length block.old }
        ensures same { self.new ≡ self.old }
        ensures words { Puts block.old at block.new result (spaced (place_text place)) }
        ensures short { length (spaced (place_text place)) ≤ 34 }
    {
        let Some(place) = place else {
            return put_text(block, at, *b" idle");
        };
        match place {
            Place::Timer { due, .. } => {
                let at = put_text(block, at, *b" timer ");
                self.put_decimal(block, at, due)
            }
            Place::Inactive(pool) => {
                let at = put_text(block, at, *b" inactive ");
                self.put_decimal(block, at, u64::from(pool))
            }
            Place::Listed(pool) => {
                let at = put_text(block, at, *b" listed ");
                self.put_decimal(block, at, u64::from(pool))
            }
            Place::Deferred(pool) => {
                let at = put_text(block, at, *b" deferred ");
                self.put_decimal(block, at, u64::from(pool))
            }
        }
    }

    /// Puts a blank, where a work runs, and a line feed.
    fn put_run(&mut self, block: &mut [u8], at: usize, run: Option<WorkRun>) -> usize
        requires { at + 90 ≤ length block.old }
        ensures same { self.new ≡ self.old }
        ensures words { Puts block.old at block.new result (spaced (ended (run_text run))) }
    {
        let Some(run) = run else {
            return put_text(block, at, *b" still\n");
        };
        match run.mode {
            Mode::Runnable => {
                let at = put_text(block, at, *b" runs ");
                let at = self.put_worker(block, at, run);
                put_text(block, at, *b"\n")
            }
            Mode::Asleep(until) => {
                let at = put_text(block, at, *b" asleep ");
                let at = self.put_worker(block, at, run);
                let at = put_text(block, at, *b" ");
                self.put_number(block, at, until)
            }
        }
    }

    /// Puts a pool, and the worker that works for it.
    fn put_worker(&mut self, block: &mut [u8], at: usize, run: WorkRun) -> usize
        requires { at + 49 ≤ length block.old }
        ensures same { self.new ≡ self.old }
        ensures words { Puts block.old at block.new result (worker_text run) }
        ensures short { length (worker_text run) ≤ 49 }
    {
        let at = self.put_decimal(block, at, u64::from(run.pool));
        let at = put_text(block, at, *b"/");
        if run.worker == RESCUER {
            return put_text(block, at, *b"rescuer");
        }
        self.put_decimal(block, at, u64::from(run.worker))
    }

    /// Puts what an event's line says behind the time.
    #[inline(always)]
    fn put_work_event(&mut self, block: &mut [u8], at: usize, work: WorkId, event: Event) -> usize
        requires { at + 152 ≤ length block.old }
        ensures same { self.new ≡ self.old }
        ensures words { (asked : Instr) → Puts block.old at block.new result (spaced (ended (reply_words self.old asked (Reply.Event work event)))) }
    {
        let at = self.put_name(block, at, work);
        self.put_event(block, at, event)
    }

    /// Puts what an event's line says behind the name of its work.
    #[inline(always)]
    fn put_event(&mut self, block: &mut [u8], at: usize, event: Event) -> usize
        requires { at + 128 ≤ length block.old }
        ensures same { self.new ≡ self.old }
        ensures words { Puts block.old at block.new result (spaced (ended (event_text self.old event))) }
    {
        match event {
            Event::Starts => put_text(block, at, *b" starts\n"),
            Event::Burns(ticks) => {
                let at = put_text(block, at, *b" burns ");
                self.put_number(block, at, u64::from(ticks))
            }
            Event::Sleeps(ticks) => {
                let at = put_text(block, at, *b" sleeps ");
                self.put_number(block, at, u64::from(ticks))
            }
            Event::Wakes => put_text(block, at, *b" wakes\n"),
            Event::Finishes => put_text(block, at, *b" finishes\n"),
            Event::FinishesAndStarts => put_text(block, at, *b" finishes and starts\n"),
            Event::Defers => put_text(block, at, *b" defers\n"),
            Event::Fires => put_text(block, at, *b" fires\n"),
            Event::Queues { other, already } => {
                let at = put_text(block, at, *b" queues");
                let at = self.put_name(block, at, other);
                put_already(block, at, already)
            }
            Event::QueuesDisabled { other } => {
                let at = put_text(block, at, *b" queues");
                let at = self.put_name(block, at, other);
                put_text(block, at, *b" disabled\n")
            }
            Event::StartsOnRescuer => put_text(block, at, *b" starts on rescuer\n"),
            Event::Delays {
                other,
                ticks,
                already,
            } => {
                let at = self.put_timed(block, at, *b" delays", other, ticks);
                put_already(block, at, already)
            }
            Event::DelaysDisabled { other, ticks } => {
                let at = self.put_timed(block, at, *b" delays", other, ticks);
                put_text(block, at, *b" disabled\n")
            }
            Event::Mods {
                other,
                ticks,
                changed,
            } => {
                let at = self.put_timed(block, at, *b" mods", other, ticks);
                put_changed(block, at, changed)
            }
            Event::ModsDisabled { other, ticks } => {
                let at = self.put_timed(block, at, *b" mods", other, ticks);
                put_text(block, at, *b" disabled\n")
            }
            Event::Cancels { other, was } => {
                let at = put_text(block, at, *b" cancels");
                let at = self.put_name(block, at, other);
                put_found(block, at, was)
            }
        }
    }

    /// Puts what a body does to a work, the work's name, and after how many ticks.
    fn put_timed<const N: usize>(
        &mut self,
        block: &mut [u8],
        at: usize,
        verb: [u8; N],
        other: WorkId,
        ticks: u32,
    ) -> usize
        requires { at + N + 49 ≤ length block.old }
        ensures same { self.new ≡ self.old }
        ensures words { Puts block.old at block.new result (verb.entry ++ timed_object self.old other ticks []) }
        ensures short { length (timed_object self.old other ticks []) ≤ 49 }
    {
        let at = put_text(block, at, verb);
        let at = self.put_name(block, at, other);
        let at = put_text(block, at, *b" ");
        self.put_decimal(block, at, u64::from(ticks))
    }

    /// Puts a blank and the work's name, which is empty where no work has the number.
    #[inline(always)]
    fn put_name(&self, block: &mut [u8], at: usize, work: WorkId) -> usize
        requires { at + 24 ≤ length block.old }
        ensures name { Puts block.old at block.new result (spaced (work_name self.now work)) }
        ensures short { length (spaced (work_name self.now work)) ≤ 24 }
    {
        match self.names.get(work.0 as usize) {
            Some(name) => name.put(block, at),
            None => put_text(block, at, *b" "),
        }
    }

    /// Puts the number and a line feed.
    #[inline(always)]
    fn put_number(&mut self, block: &mut [u8], at: usize, number: u64) -> usize
        requires { at + 25 ≤ length block.old }
        ensures same { self.new ≡ self.old }
        ensures number { Puts block.old at block.new result (ended (decimal number)) }
    {
        let at = self.put_decimal(block, at, number);
        put_text(block, at, *b"\n")
    }

    /// Puts the number.
    #[inline(always)]
    fn put_decimal(&mut self, block: &mut [u8], at: usize, number: u64) -> usize
        requires { at + 24 ≤ length block.old }
        ensures same { self.new ≡ self.old }
        ensures number { Puts block.old at block.new result (decimal number) }
        ensures short { length (decimal number) ≤ 24 }
    {
        let numbered = &mut self.numbers[(number % NUMBERS) as usize];
        numbered.set(number);
        numbered.put(block, at)
    }
}

/// Puts whether the work was taken off, up to the number of the flush.
#[inline(always)]
fn put_was(block: &mut [u8], at: usize, was: bool) -> usize
    requires { at + 24 ≤ length block.old }
    ensures words { Puts block.old at block.new result (spaced (was_text was ++ codes " flush ")) }
    ensures short { length (was_text was) ≤ 11 }
{
    if was {
        put_text(block, at, *b" cancelled flush ")
    } else {
        put_text(block, at, *b" not pending flush ")
    }
}

/// Puts the end of a line that says which work was queued.
#[inline(always)]
fn put_already(block: &mut [u8], at: usize, already: bool) -> usize
    requires { at + 24 ≤ length block.old }
    ensures { Puts block.old at block.new result (ended (already_text already)) }
{
    if already {
        put_text(block, at, *b" already\n")
    } else {
        put_text(block, at, *b"\n")
    }
}

/// Puts the end of a line that says which work was queued anew.
#[inline(always)]
fn put_changed(block: &mut [u8], at: usize, changed: bool) -> usize
    requires { at + 24 ≤ length block.old }
    ensures { Puts block.old at block.new result (ended (changed_text changed)) }
{
    if changed {
        put_text(block, at, *b" changed\n")
    } else {
        put_text(block, at, *b"\n")
    }
}

/// Puts the end of a line that says which work a body cancels.
#[inline(always)]
fn put_found(block: &mut [u8], at: usize, was: bool) -> usize
    requires { at + 24 ≤ length block.old }
    ensures { Puts block.old at block.new result (ended (found_text was)) }
{
    if was {
        put_text(block, at, *b"\n")
    } else {
        put_text(block, at, *b" not pending\n")
    }
}

/// Puts what the line of a refusal says behind the time.
#[inline(always)]
fn put_refusal(block: &mut [u8], at: usize, why: Refusal) -> usize
    requires { at + 48 ≤ length block.old }
    ensures { Puts block.old at block.new result (spaced (ended (codes "refused " ++ refusal_text why))) }
{
    let at = put_text(block, at, *b" refused ");
    match why {
        Refusal::NoSuchWork => put_text(block, at, *b"NoSuchWork\n"),
        Refusal::NoSuchQueue => put_text(block, at, *b"NoSuchQueue\n"),
        Refusal::NoSuchCpu => put_text(block, at, *b"NoSuchCpu\n"),
        Refusal::NoSuchPool => put_text(block, at, *b"NoSuchPool\n"),
        Refusal::NoSuchFlush => put_text(block, at, *b"NoSuchFlush\n"),
        Refusal::BadCount => put_text(block, at, *b"BadCount\n"),
        Refusal::Spent => put_text(block, at, *b"Spent\n"),
        Refusal::TooManyFlushes => put_text(block, at, *b"TooManyFlushes\n"),
        Refusal::Ordered => put_text(block, at, *b"Ordered\n"),
        Refusal::AlreadyFrozen => put_text(block, at, *b"AlreadyFrozen\n"),
        Refusal::NotFrozen => put_text(block, at, *b"NotFrozen\n"),
        Refusal::NothingToDo => put_text(block, at, *b"NothingToDo\n"),
        Refusal::Unsettled(_) => put_text(block, at, *b"Unsettled\n"),
        Refusal::Disabled => put_text(block, at, *b"Disabled\n"),
        Refusal::TooDeep => put_text(block, at, *b"TooDeep\n"),
        Refusal::NotDisabled => put_text(block, at, *b"NotDisabled\n"),
        Refusal::AlreadyPressed => put_text(block, at, *b"AlreadyPressed\n"),
        Refusal::NotPressed => put_text(block, at, *b"NotPressed\n"),
    }
}

/// A blank and the name of each work.
fn spaced_names(alloc: Global, works: &[WorkDecl]) -> Result<Vec<Short>, NoMemory>
    ensures { IfOk result (λ names. names.items ≡ map (λ work. spaced work.name) works.now) }
{
    let mut names = Vec::with_capacity(alloc, works.len())?;
    for work in works {
        names.push(Short::blank_and(work.name.as_bytes()))?;
    }
    Ok(names)
}

/// The numbers below `NUMBERS` with their texts.
fn first_numbers(alloc: Global) -> Result<Vec<Numbered>, NoMemory>
    ensures { IfOk result (λ numbers. length numbers.items ≡ NUMBERS) }
{
    let mut numbers = Vec::with_capacity(alloc, NUMBERS as usize)?;
    for number in 0..NUMBERS {
        numbers.push(Numbered::new(number))?;
    }
    Ok(numbers)
}
