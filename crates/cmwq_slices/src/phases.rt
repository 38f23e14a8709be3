//! Phases of instances: those that are open along a run, and those that have ended.
ghost use Rattle.cmwq_slices.specs.Slices.{AreDone, Follows, ended_from, ended_phase, goes_on, no_phases, phase_doing, phase_then, phases_after, phases_ended, phases_from, slice_to, slices_to};
ghost use Rattle.cmwq_table.specs.Ready.{holding};
ghost use Rattle.cmwq_table.specs.State.{State};
ghost use Rattle.cmwq_types.specs.declared.limits.TheConstants.{MAX_WORKS};
ghost use Rattle.std.specs.Prelude.{◌≡◌, ◌<◌, ◌≤◌, ◌++◌, IfOk, OnOk, length, true};

use crate::doing::{Doing, Half, pending_doing};
use crate::heads::Heads;
use cmwq_picture::Sign;
use cmwq_table::Reads;
use cmwq_types::{NoMemory, WorkId};
use std::alloc::Global;
use std::marker::Model;

/// A phase that goes on: what an instance does, tick after tick.
#[derive(Clone, Copy, PartialEq, Eq)]
pub struct OpenPhase {
    /// The instance, and what it does.
    pub doing: Doing,
    /// The time at which it began, in ticks.
    pub since: u64,
}

/// A phase from its begin to its end.
#[derive(Clone, Copy, PartialEq, Eq)]
pub struct PhaseSlice {
    /// Whose instance it was.
    pub work: WorkId,
    /// Which of the work's instances.
    pub half: Half,
    /// What it did.
    pub sign: Sign,
    /// The time of its first tick.
    pub since: u64,
    /// The time behind its last tick.
    pub until: u64,
}

/// The open phases of a work's instances.
#[derive(Clone, Copy, PartialEq, Eq)]
pub struct WorkPhases {
    /// Of the one that runs.
    pub running: Option<OpenPhase>,
    /// Of the one that is pending.
    pub pending: Option<OpenPhase>,
}

/// The open phases of all works, by number.
#[derive(Drop)]
pub struct Phases(Vec<WorkPhases>);

impl Model for Phases {
    ghost use Rattle.cmwq_slices.specs.declared.phases.WorkPhases.{WorkPhases};
    ghost use Rattle.std.specs.Prelude.{List};

    ghost Value = { List WorkPhases };

    ghost view = { λ phases. phases.0.items };
}

impl Phases {
    ghost use Rattle.cmwq_types.specs.declared.limits.TheConstants.{MAX_WORKS};

    /// No phase of so many works is open.
    pub fn none(alloc: Global, works: usize) -> Result<Phases, NoMemory>
        ensures { IfOk result (λ phases. phases ≡ no_phases works) }
    {
        let none = WorkPhases {
            running: None,
            pending: None,
        };
        Ok(Phases(vec![in alloc; none; works]?))
    }

    /// Follows an instruction that led from a state of this time, in ticks, to the machine's. Where it let the tick at that time pass, a phase
    /// goes on where the same instance of a work does the same in it; any other has ended, and what is done instead begins. Answers the
    /// phases that have ended, by works, and of a work that of the running instance first.
    ///
    /// It is told whether it `is_steady`: whether in the state before each phase is what its work's instance does, as it is behind a tick.
    /// Then all go on, and no work is looked at.
    pub fn follow<R: Reads>(
        &mut self,
        alloc: Global,
        time: u64,
        machine: &R,
        is_steady: bool,
    ) -> Result<Vec<PhaseSlice>, NoMemory>
        requires { length self.old ≡ length (R.loaded machine.now).works }
        ensures ended { IfOk result (λ ended. (s : State) → Follows (R.loaded machine.now) s time is_steady self.old (R.state machine.now)
            → ended.items ≡ phases_ended (R.loaded machine.now) s (R.state machine.now).time self.old) }
        ensures phases { OnOk result ((s : State) → Follows (R.loaded machine.now) s time is_steady self.old (R.state machine.now)
            → self.new ≡ phases_after (R.loaded machine.now) s (R.state machine.now).time self.old) }
        ensures done { OnOk result ((s : State) → Follows (R.loaded machine.now) s time is_steady self.old (R.state machine.now)
            → s.time < (R.state machine.now).time → AreDone (R.loaded machine.now) (R.state machine.now) 0 self.new) }
    {
        let works = machine.scenario().works.len();
        let mut ended = Vec::new(alloc);
        if machine.time() <= time {
            return Ok(ended);
        }
        if is_steady {
            return Ok(ended);
        }
        let heads = Heads::new(alloc, machine)?;
        pass(&mut self.0, works, time, machine, &heads, &mut ended)?;
        Ok(ended)
    }

    /// Pushes what the open phases come to where they end at this time.
    pub fn push_slices(&self, time: u64, slices: &mut Vec<PhaseSlice>) -> Result<(), NoMemory>
        requires { length self.now ≤ MAX_WORKS }
        ensures { OnOk result (slices.new.items ≡ slices.old.items ++ slices_to time 0 self.now) }
    {
        push_all(&self.0, time, slices)
    }
}

/// What both instances of a work do.
#[derive(Clone, Copy)]
struct BothDoing {
    running: Option<Doing>,
    pending: Option<Doing>,
}

/// Lets the tick at this time pass, in which the works, of which there are so many, do what they do now, and pushes the phases that have
/// ended.
fn pass<R: Reads>(
    all: &mut [WorkPhases],
    works: usize,
    time: u64,
    machine: &R,
    heads: &Heads<'_, R>,
    ended: &mut Vec<PhaseSlice>,
) -> Result<(), NoMemory>
    requires works { works ≡ length all.old }
    requires few { works ≤ MAX_WORKS }
    requires heads { heads.now ≡ holding (R.loaded machine.now) (R.state machine.now) }
    ensures ended { OnOk result (ended.new.items ≡ ended.old.items ++ ended_from time (R.loaded machine.now) (R.state machine.now) 0 all.old) }
    ensures phases { OnOk result (all.new ≡ phases_from time (R.loaded machine.now) (R.state machine.now) 0 all.old) }
{
    for w in 0..works {
        let now = BothDoing {
            running: heads.run_doing(w),
            pending: pending_doing(machine.pending_of(w)),
        };
        let phases = all[w];
        if are_done(phases, now) {
            continue;
        }
        push_ended(time, w, phases, now, ended)?;
        all[w] = then(time, phases, now);
    }
    Ok(())
}

/// Whether the phases of a work are just what its instances do.
fn are_done(phases: WorkPhases, now: BothDoing) -> bool
    ensures { result ≡ true → (phase_doing phases.running ≡ now.running) × (phase_doing phases.pending ≡ now.pending) }
{
    is_done(phases.running, now.running) && is_done(phases.pending, now.pending)
}

/// Whether this is what is done in the phase, or no phase is open and nothing is done.
fn is_done(phase: Option<OpenPhase>, now: Option<Doing>) -> bool
    ensures { result ≡ true → phase_doing phase ≡ now }
{
    match (phase, now) {
        (Some(phase), Some(now)) => phase.doing == now,
        (None, None) => true,
        _ => false,
    }
}

/// The phases of a work once its instances do this.
fn then(time: u64, phases: WorkPhases, now: BothDoing) -> WorkPhases
    ensures { result ≡ record { running = phase_then time phases.running now.running; pending = phase_then time phases.pending now.pending } }
{
    WorkPhases {
        running: phase_then(time, phases.running, now.running),
        pending: phase_then(time, phases.pending, now.pending),
    }
}

/// Pushes those phases of a work that end because its instances do this.
fn push_ended(
    time: u64,
    w: usize,
    phases: WorkPhases,
    now: BothDoing,
    ended: &mut Vec<PhaseSlice>,
) -> Result<(), NoMemory>
    requires { w < MAX_WORKS }
    ensures { OnOk result (ended.new.items ≡ ended.old.items ++ (ended_phase time w Half.Running phases.running now.running
        ++ ended_phase time w Half.Pending phases.pending now.pending)) }
{
    if !goes_on(phases.running, now.running) {
        push_slice(time, w, Half::Running, phases.running, ended)?;
    }
    if !goes_on(phases.pending, now.pending) {
        push_slice(time, w, Half::Pending, phases.pending, ended)?;
    }
    Ok(())
}

/// Pushes what the phase comes to that ends at this time, if there is one.
fn push_slice(
    time: u64,
    w: usize,
    half: Half,
    phase: Option<OpenPhase>,
    slices: &mut Vec<PhaseSlice>,
) -> Result<(), NoMemory>
    requires { w < MAX_WORKS }
    ensures { OnOk result (slices.new.items ≡ slices.old.items ++ slice_to time w half phase) }
{
    if let Some(phase) = phase {
        slices.push(PhaseSlice {
            work: WorkId(w as u16),
            half,
            sign: phase.doing.sign,
            since: phase.since,
            until: time,
        })?;
    }
    Ok(())
}

fn push_all(all: &[WorkPhases], time: u64, slices: &mut Vec<PhaseSlice>) -> Result<(), NoMemory>
    requires { length all.now ≤ MAX_WORKS }
    ensures { OnOk result (slices.new.items ≡ slices.old.items ++ slices_to time 0 all.now) }
{
    for (w, phases) in all.iter().enumerate() {
        push_slice(time, w, Half::Running, phases.running, slices)?;
        push_slice(time, w, Half::Pending, phases.pending, slices)?;
    }
    Ok(())
}

/// The phase once this is done in a tick at this time: the one that there was, where it goes on, or another one.
fn phase_then(time: u64, phase: Option<OpenPhase>, now: Option<Doing>) -> Option<OpenPhase>
    ensures { result ≡ phase_then time phase now }
{
    if goes_on(phase, now) {
        return phase;
    }
    now.map(|doing| OpenPhase { doing, since: time })
}

/// Whether the same instance does the same.
fn goes_on(phase: Option<OpenPhase>, now: Option<Doing>) -> bool
    ensures { result ≡ goes_on phase now }
{
    match (phase, now) {
        (Some(phase), Some(now)) => phase.doing == now,
        _ => false,
    }
}
