//! A list of instructions that is carried out on a machine, forwards and back, with checkpoints on the way.
ghost use Rattle.cmwq_debug.specs.Checkpoints.{AreRising};
ghost use Rattle.cmwq_debug.specs.Debugging.{event_end, last_carried, next_event, run_end, session_of, stop};
ghost use Rattle.cmwq_debug.specs.Replaying.{HasAdvanced, HasGoneTo, HasReached, HasTurned, IsThere, at_start, next_reply};
ghost use Rattle.cmwq_debug.specs.declared.checkpoints.TheConstants.{MAX_CHECKPOINTS};
ghost use Rattle.cmwq_types.specs.Faults.{IsValid};
ghost use Rattle.cmwq_types.specs.declared.limits.TheConstants.{MAX_HISTORY};
ghost use Rattle.std.specs.List.{All};
ghost use Rattle.std.specs.Prelude.{◌≡◌, ◌<◌, ◌≤◌, IfOk, IfSome, OnErr, OnOk, length};

use crate::breaks::{Break, MAX_BREAKS, said_by, sights};
use crate::checkpoints::{Checkpoint, Checkpoints};
use cmwq_table::{Machine, is_silent};
use cmwq_types::{Instr, NoMemory, Reply, Scenario};
use std::alloc::Global;
use std::marker::Model;
use std::sync::Arc;

/// A scenario and a list of instructions, of which so many as the position says were carried out on a machine, and checkpoints on the way.
#[derive(Drop)]
pub(crate) struct Replay<M: Machine> {
    scenario: Arc<Scenario>,
    instrs: Vec<Instr>,
    machine: M,
    position: usize,
    checkpoints: Checkpoints<M>,
}

impl<M: Machine> Model for Replay<M> {
    ghost use Rattle.cmwq_debug.specs.Checkpoints.{spread_of};
    ghost use Rattle.cmwq_debug.specs.Replaying.{Course, IsReplayed, course_of};

    ghost Value = { Course };

    ghost view = { λ r. course_of r.scenario.value r.instrs.items r.position (spread_of r.checkpoints) };

    ghost invariant = { λ r. IsReplayed M.loaded M.state (course_of r.scenario.value r.instrs.items r.position (spread_of r.checkpoints)) r.machine r.checkpoints.checkpoints };
}

impl<M: Machine> Replay<M> {
    /// A replay at the start, with no checkpoint. The only error is want of memory.
    pub(crate) fn begin(
        alloc: Global,
        scenario: Arc<Scenario>,
        instrs: Vec<Instr>,
    ) -> Result<Replay<M>, NoMemory>
        requires valid { IsValid scenario.value }
        requires short { length instrs.items ≤ MAX_HISTORY }
        ensures { IfOk result (λ replay. replay ≡ at_start scenario.value instrs.items) }
    {
        let machine = M::begin(alloc, Arc::clone(&scenario)?)?;
        Ok(Replay {
            scenario,
            instrs,
            machine,
            position: 0,
            checkpoints: Checkpoints::new(alloc),
        })
    }

    /// The scenario.
    pub(crate) fn scenario(&self) -> &Scenario
        ensures { result.now ≡ self.now.scenario }
    {
        &self.scenario
    }

    /// How many instructions were carried out.
    pub(crate) fn position(&self) -> usize
        ensures position { result ≡ self.now.position }
        ensures within { result ≤ length self.now.instrs }
        ensures short { length self.now.instrs ≤ MAX_HISTORY }
    {
        self.position
    }

    /// How many instructions the list has.
    pub(crate) fn end(&self) -> usize
        ensures { result ≡ length self.now.instrs }
    {
        self.instrs.len()
    }

    /// The machine at the position.
    pub(crate) fn machine(&self) -> &M
        ensures { IsThere M.loaded M.state self.now.scenario self.now.instrs self.now.position result.now }
    {
        &self.machine
    }

    /// The checkpoints, by position.
    pub(crate) fn checkpoints(&self) -> &[Checkpoint<M>]
        ensures rising { AreRising result.now }
        ensures few { length result.now ≤ MAX_CHECKPOINTS }
        ensures some { All (λ c. 0 < c.at) result.now }
        ensures there { All (λ c. IsThere M.loaded M.state self.now.scenario self.now.instrs c.at c.machine) result.now }
    {
        self.checkpoints.held()
    }

    /// Comes to the position. Going back it begins at the nearest checkpoint that isn't above it, or at the start, and so it does forward where
    /// that is nearer. The only error is want of memory, for a way back.
    pub(crate) fn reach(&mut self, alloc: Global, to: usize) -> Result<(), NoMemory>
        requires { to ≤ length self.old.instrs }
        ensures ok { OnOk result (HasReached self.old to self.new) }
        ensures err { OnErr result (self.new ≡ self.old) }
    {
        if to < self.position {
            self.go_back(alloc, to)?;
        } else {
            self.skip(to);
        }
        self.go_forward(to);
        Ok(())
    }

    /// Goes back to the nearest checkpoint that isn't above the position, or to the start.
    fn go_back(&mut self, alloc: Global, to: usize) -> Result<(), NoMemory>
        requires { to ≤ length self.old.instrs }
        ensures ok { OnOk result (HasTurned self.old to self.new) }
        ensures err { OnErr result (self.new ≡ self.old) }
    {
        let (machine, position) = match self.checkpoints.nearest(to as u32) {
            Some(checkpoint) => (checkpoint.machine.copy()?, checkpoint.at as usize),
            None => (M::begin(alloc, Arc::clone(&self.scenario)?)?, 0),
        };
        self.machine = machine;
        self.position = position;
        Ok(())
    }

    /// Goes forward to the nearest checkpoint that isn't above the position, if it lies ahead and there is memory for its copy.
    fn skip(&mut self, to: usize)
        requires forward { self.old.position ≤ to }
        requires within { to ≤ length self.old.instrs }
        ensures turned { HasTurned self.old to self.new }
        ensures ahead { self.old.position ≤ self.new.position }
    {
        let Some(checkpoint) = self.checkpoints.nearest(to as u32) else {
            return;
        };
        let at = checkpoint.at as usize;
        if at <= self.position {
            return;
        }
        if let Ok(machine) = checkpoint.machine.copy() {
            self.machine = machine;
            self.position = at;
        }
    }

    /// Carries out instructions up to the position.
    fn go_forward(&mut self, to: usize)
        requires forward { self.old.position ≤ to }
        requires within { to ≤ length self.old.instrs }
        ensures { HasGoneTo self.old to self.new }
    {
        for _step in self.position..to {
            self.advance();
        }
    }

    /// Carries out instructions up to the first after which a break matches, and answers its number; or to the end.
    pub(crate) fn run_on(&mut self, breaks: &[Option<Break>; MAX_BREAKS]) -> Option<usize>
        ensures gone { HasGoneTo self.old (run_end (session_of self.old.scenario self.old.instrs self.old.position breaks.now) (stop (session_of self.old.scenario self.old.instrs self.old.position breaks.now))).0 self.new }
        ensures by { result ≡ (run_end (session_of self.old.scenario self.old.instrs self.old.position breaks.now) (stop (session_of self.old.scenario self.old.instrs self.old.position breaks.now))).1 }
        ensures in_range { IfSome result (λ i. i < length breaks.now) }
    {
        for _step in self.position..self.instrs.len() {
            let before = sights(breaks, &self.machine);
            let reply = self.advance();
            let by = said_by(breaks, &before, &self.machine, reply);
            if by.is_some() {
                return by;
            }
        }
        None
    }

    /// Carries out instructions up to the first for which a run prints a line, or to the end.
    pub(crate) fn run_to_event(&mut self)
        ensures { HasGoneTo self.old (event_end self.old.instrs (next_event self.old.scenario self.old.instrs self.old.position)) self.new }
    {
        for _step in self.position..self.end() {
            if !is_silent(self.advance()) {
                return;
            }
        }
    }

    /// The instruction that was carried out last, and its reply; none at the start. It is carried out once more: the replay goes back by
    /// one and comes again. The only error is want of memory, for the way back.
    pub(crate) fn last(&mut self, alloc: Global) -> Result<Option<(Instr, Reply)>, NoMemory>
        ensures scenario { self.new.scenario ≡ self.old.scenario }
        ensures instrs { self.new.instrs ≡ self.old.instrs }
        ensures position { self.new.position ≡ self.old.position }
        ensures last { IfOk result (λ last. last ≡ last_carried self.old.scenario self.old.instrs self.old.position) }
    {
        let position = self.position();
        if position == 0 {
            return Ok(None);
        }
        self.reach(alloc, position - 1)?;
        let instr = self.instrs[position - 1];
        Ok(Some((instr, self.advance())))
    }

    /// Carries out the next instruction, and answers its reply.
    #[inline(always)]
    fn advance(&mut self) -> Reply
        requires { self.old.position < length self.old.instrs }
        ensures advanced { HasAdvanced self.old self.new }
        ensures reply { result ≡ next_reply self.old }
    {
        let Replay {
            instrs,
            machine,
            position,
            checkpoints,
            ..
        } = self;
        let reply = machine.exec(instrs[*position]);
        *position += 1;
        checkpoints.enter(machine, *position as u32);
        reply
    }
}
