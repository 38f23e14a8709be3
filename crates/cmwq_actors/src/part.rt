//! One actor's part: its instructions, issued one after the other.
ghost use Rattle.std.specs.Prelude.{◌≡◌, ◌≤◌, ◌^◌, [], IfErr, IfOk, Some, length};
ghost use Rattle.cmwq_types.specs.Scenario.{expand_lines};
ghost use Rattle.cmwq_types.specs.declared.limits.TheConstants.{MAX_HISTORY};
ghost use Rattle.cmwq_lock.specs.Tokens.{pass_view};
ghost use Rattle.cmwq_lock.specs.Views.{SameKnowledge, caller_of, knowledge_of, loaded_of, mine_of, seen_of};
ghost use Rattle.cmwq_engine.specs.Issuing.{entry_of};
ghost use Rattle.cmwq_engine.specs.Shared.{HasEntered, HasFoundFull, HasHadTurn, IfFull, IfNoTicket, IfTurn, IsPassOf, setting_of};
ghost use Rattle.cmwq_actors.specs.Ending.{HasEnded};
ghost use Rattle.cmwq_actors.specs.Playing.{HasPassedEach, HasPlayed, issued_with};

use crate::begin::AllStarted;
use crate::ending::Ending;
use crate::gate::Gate;
use cmwq_engine::{Engine, IssueError, Receipt, Shared};
use cmwq_lock::{Kept, Pass};
use cmwq_runs::Instructions;
use cmwq_table::Machine;
use cmwq_types::{Instr, Line};
use std::sync::{OnceLock, Wait};
use std::thread::Threads;
use std::time::Clock;

/// What all actors share.
#[derive(Drop)]
pub(crate) struct ActorStage<'a, R, M: Machine, G>
where
    Engine<M>: Kept,
{
    pub(crate) rt: &'a R,
    pub(crate) gate: &'a G,
    pub(crate) shared: Shared<M>,
    /// What shows that all threads were started, once it is known; `None` where one couldn't be.
    pub(crate) begin: OnceLock<Option<AllStarted>>,
}

/// An actor's pass, and how the actor ended; not at all where it wasn't let begin.
#[derive(Drop)]
pub(crate) struct Played<M: Machine>
where
    Engine<M>: Kept,
{
    pub(crate) pass: Pass<Engine<M>>,
    pub(crate) ending: Option<Ending>,
}

impl<'a, R: Threads + Wait + Clock, M: Machine, G: Gate> ActorStage<'a, R, M, G> {
    /// An actor's part, once it may begin.
    pub(crate) fn play(&self, actor: u8, lines: &[Line], pass: Pass<Engine<M>>) -> Played<M>
        requires small { (setting_of self.now.shared).capacity ≤ MAX_HISTORY }
        requires pass { IsPassOf self.now.shared pass }
        requires caller { caller_of (pass_view pass) ≡ actor }
        requires fresh { mine_of (pass_view pass) ≡ [] }
        ensures token { IsPassOf self.now.shared result.pass }
        ensures played { HasPlayed (G.has_passed self.now.gate.now) (setting_of self.now.shared).capacity actor
            (expand_lines lines.now) result.ending (knowledge_of (pass_view result.pass)) }
        ensures exhausted { result.ending ≡ Some Ending.Exhausted → loaded_of (pass_view result.pass) ≡ 2 ^ 62 }
    {
        match self.begin.wait(self.rt) {
            Some(started) => {
                let (pass, ending) = self.play_lines(started, actor, lines, pass);
                Played {
                    pass,
                    ending: Some(ending),
                }
            }
            None => Played { pass, ending: None },
        }
    }

    /// Issues the lines' instructions up to the first that can't be issued. All threads were started.
    fn play_lines(
        &self,
        _started: &AllStarted,
        actor: u8,
        lines: &[Line],
        pass: Pass<Engine<M>>,
    ) -> (Pass<Engine<M>>, Ending)
        requires small { (setting_of self.now.shared).capacity ≤ MAX_HISTORY }
        requires pass { IsPassOf self.now.shared pass }
        requires caller { caller_of (pass_view pass) ≡ actor }
        requires fresh { mine_of (pass_view pass) ≡ [] }
        ensures token { IsPassOf self.now.shared result.0 }
        ensures caller { caller_of (pass_view result.0) ≡ actor }
        ensures gate { HasPassedEach (G.has_passed self.now.gate.now) actor (length (mine_of (pass_view result.0))) }
        ensures ended { HasEnded (setting_of self.now.shared).capacity (seen_of (pass_view result.0))
            (issued_with (pass_view result.0)) (expand_lines lines.now) result.1 }
        // The last load of the pass gave 2^62.
        ensures exhausted { result.1 ≡ Ending.Exhausted → loaded_of (pass_view result.0) ≡ 2 ^ 62 }
    {
        let mut pass = pass;
        let mut calls = 0u32;
        for instr in Instructions::of(lines) {
            self.gate.before(self.rt, actor, calls);
            let (back, outcome) = self.issue(actor, calls, pass, instr);
            pass = back;
            match outcome {
                Ok(_receipt) => calls += 1,
                Err(why) => return (pass, Ending::from(why)),
            }
        }
        (pass, Ending::Done)
    }

    /// Issues an actor's next instruction, before which it has passed the gate.
    fn issue(
        &self,
        actor: u8,
        call: u32,
        pass: Pass<Engine<M>>,
        instr: Instr,
    ) -> (Pass<Engine<M>>, Result<Receipt, IssueError>)
        requires pass { IsPassOf self.now.shared pass }
        requires caller { caller_of (pass_view pass) ≡ actor }
        requires next { call ≡ length (mine_of (pass_view pass)) }
        requires gate { G.has_passed self.now.gate.now actor call }
        ensures token { IsPassOf self.now.shared result.0 }
        ensures caller { caller_of (pass_view result.0) ≡ actor }
        ensures turn { IfTurn result.1
            (HasHadTurn (setting_of self.now.shared) (pass_view pass) (pass_view result.0)) }
        ensures entered { IfOk result.1 (λ receipt.
            let new = entry_of receipt actor instr in
            HasEntered (setting_of self.now.shared) (pass_view pass) (pass_view result.0) new receipt.place) }
        ensures full { IfErr result.1 (λ why. IfFull why
            (HasFoundFull (setting_of self.now.shared) (pass_view pass) (pass_view result.0))) }
        ensures exhausted { IfErr result.1 (λ why. IfNoTicket why
            (loaded_of (pass_view result.0) ≡ 2 ^ 62)) }
        ensures same { IfErr result.1 (λ why. IfNoTicket why
            (SameKnowledge (pass_view pass) (pass_view result.0))) }
    {
        let _ = (actor, call);
        self.shared.issue(self.rt, pass, instr)
    }
}
