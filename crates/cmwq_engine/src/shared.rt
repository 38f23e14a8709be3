//! The shared engine: one machine with its history, on which callers take turns.
ghost use Rattle.std.specs.Prelude.{◌≡◌, ◌+◌, ◌-◌, ◌^◌, ◌<◌, ◌≤◌, [], ◌∷◌, ◌++◌, All, IfErr, IfOk};
ghost use Rattle.cmwq_types.specs.Faults.{IsValid};
ghost use Rattle.cmwq_types.specs.declared.limits.TheConstants.{MAX_HISTORY, MAX_PASSES};
ghost use Rattle.cmwq_lock.specs.Log.{BeginsWith, OneBegins, longer};
ghost use Rattle.cmwq_lock.specs.Rule.{opening_view};
ghost use Rattle.cmwq_lock.specs.Tokens.{opener_view, pass_view, drawn_view, IfRaced, IfExhausted as IfNoneLeft};
ghost use Rattle.cmwq_lock.specs.Views.{loaded, lost, waiting, looked, given, fresh, taken_back, having_seen, caller_of, ticket_of, loaded_of, next_of, out_of, seen_of, mine_of, records_of, knowledge_of, SameKnowledge};
ghost use Rattle.cmwq_engine.specs.Engine.{IsSound, Refuses};
ghost use Rattle.cmwq_engine.specs.Issuing.{entry_of};
ghost use Rattle.cmwq_engine.specs.Shared.{HasEntered, HasFoundFull, HasHadTurn, HasNothingNew, IfFull, IfNoTicket, IfTurn, IsDrawnOf, IsLastHistory, IsOpenerOf, IsPassOf, setting_of};

use crate::engine::Engine;
use crate::history::Full;
use crate::kept::Receipt;
use cmwq_lock::{Drawn, Kept, NotDrawn, NotDrawnWhy, NotYet, Opener, Pass, TicketLock, TooMany};
use cmwq_table::{LoadError, Machine};
use cmwq_types::{Instr, NoMemory, Scenario};
use std::alloc::Global;
use std::marker::Model;
use std::sync::{Arc, Wait};
use thiserror::Error;

/// The reason why an instruction was not issued.
#[derive(Clone, Copy, Debug, PartialEq, Eq, Error)]
pub enum IssueError {
    /// The history has no room for one more entry.
    #[error("full")]
    Full,
    /// All 2^62 tickets are drawn.
    #[error("tickets")]
    Exhausted,
}

/// `left` passes are not retired. The shared engine and its opener come back.
#[derive(Drop)]
pub struct StillOut<M: Machine>
where
    Engine<M>: Kept,
{
    pub shared: Shared<M>,
    pub opener: Opener<Engine<M>>,
    pub left: u32,
}

/// An engine behind a ticket lock. Callers issue instructions in the order of the tickets that they draw. Each call has as
/// condition that its token is this one's.
#[derive(Drop)]
pub struct Shared<M: Machine> {
    lock: TicketLock<Engine<M>>,
}

impl<M: Machine> Model for Shared<M> {
    ghost use Rattle.cmwq_engine.specs.Shared.{EngineLock};

    ghost Value = { EngineLock };

    ghost view = { λ shared. shared.lock };
}

impl<M: Machine> Shared<M> {
    /// An engine in the scenario's start state, with room for so many entries, at most 1,048,576, and its opener, with no pass
    /// out. No other call takes memory.
    ///
    /// Answers `Fault` exactly where the scenario has one, and else may answer `NoMemory`.
    pub fn open(
        alloc: Global,
        scenario: &Scenario,
        capacity: u32,
    ) -> Result<(Shared<M>, Opener<Engine<M>>), LoadError>
        requires { capacity ≤ MAX_HISTORY }
        ensures valid { IfOk result (λ _. IsValid scenario.now) }
        ensures refused { IfErr result (λ e. Refuses scenario.now e) }
        ensures setting { IfOk result
            (λ r. setting_of r.0 ≡ record { scenario = scenario.now; capacity = capacity }) }
        ensures token { IfOk result (λ r. IsOpenerOf r.0 r.1) }
        ensures view { IfOk result (λ r. opener_view r.1 ≡ opening_view (setting_of r.0)) }
    {
        let engine = Engine::open(alloc, scenario, capacity)?;
        Shared::over(alloc, engine).map_err(|_| LoadError::NoMemory)
    }

    /// An engine in the start state of a scenario that is known to be valid, with room for so many entries, at most 1,048,576,
    /// and its opener, with no pass out. The scenario isn't judged again. No other call takes memory.
    pub fn begin(
        alloc: Global,
        scenario: Arc<Scenario>,
        capacity: u32,
    ) -> Result<(Shared<M>, Opener<Engine<M>>), NoMemory>
        requires valid { IsValid scenario.value }
        requires few { capacity ≤ MAX_HISTORY }
        ensures setting { IfOk result
            (λ r. setting_of r.0 ≡ record { scenario = scenario.value; capacity = capacity }) }
        ensures token { IfOk result (λ r. IsOpenerOf r.0 r.1) }
        ensures view { IfOk result (λ r. opener_view r.1 ≡ opening_view (setting_of r.0)) }
    {
        let engine = Engine::begin(alloc, scenario, capacity)?;
        Shared::over(alloc, engine)
    }

    /// The engine behind a lock, and its opener.
    fn over(alloc: Global, engine: Engine<M>) -> Result<(Shared<M>, Opener<Engine<M>>), NoMemory>
        requires sound { IsSound engine }
        requires empty { engine.history ≡ [] }
        ensures setting { IfOk result (λ r. setting_of r.0 ≡ engine.setting) }
        ensures token { IfOk result (λ r. IsOpenerOf r.0 r.1) }
        ensures view { IfOk result (λ r. opener_view r.1 ≡ opening_view (setting_of r.0)) }
    {
        match TicketLock::open(alloc, engine) {
            Ok((lock, opener)) => Ok((Shared { lock }, opener)),
            Err(_) => Err(NoMemory),
        }
    }

    /// One more pass, with the next caller's number, no issue of its own, and all that the opener has seen. Numbers rise from 0
    /// to 2^32 - 1 and are never used again.
    ///
    /// `TooMany` where 64 passes are out; the opener is then as before.
    pub fn pass(&self, opener: &mut Opener<Engine<M>>) -> Result<Pass<Engine<M>>, TooMany>
        requires opener { IsOpenerOf self.now opener.old }
        requires room { next_of (opener_view opener.old) < 2 ^ 32 }
        ensures opener { IsOpenerOf self.now opener.new }
        ensures token { IfOk result (λ p. IsPassOf self.now p) }
        ensures fresh { IfOk result (λ p. pass_view p ≡ fresh (opener_view opener.old)) }
        ensures given { IfOk result
            (λ _. opener_view opener.new ≡ given (opener_view opener.old)) }
        ensures number { IfOk result
            (λ p. caller_of (pass_view p) ≡ next_of (opener_view opener.old)) }
        ensures seen { IfOk result
            (λ p. seen_of (pass_view p) ≡ seen_of (opener_view opener.old)) }
        ensures mine { IfOk result (λ p. mine_of (pass_view p) ≡ []) }
        ensures one_more { IfOk result
            (λ _. out_of (opener_view opener.new) ≡ out_of (opener_view opener.old) + 1) }
        ensures next { IfOk result
            (λ _. next_of (opener_view opener.new) ≡ next_of (opener_view opener.old) + 1) }
        ensures few { IfOk result (λ _. out_of (opener_view opener.old) < MAX_PASSES) }
        ensures many { IfErr result (λ _. out_of (opener_view opener.old) ≡ MAX_PASSES) }
        ensures same { IfErr result (λ _. opener.new ≡ opener.old) }
    {
        self.lock.pass(opener)
    }

    /// Draws a ticket, 0 to 2^62 - 1, by one load and one exchange. It does not wait and does not try again.
    ///
    /// `NotDrawn` gives the pass back: `Raced` where others drew between the two, `Exhausted` where no ticket is left.
    pub fn draw(&self, pass: Pass<Engine<M>>) -> Result<Drawn<Engine<M>>, NotDrawn<Engine<M>>>
        requires { IsPassOf self.now pass }
        ensures token { IfOk result (λ d. IsDrawnOf self.now d) }
        ensures knowledge { IfOk result (λ d. SameKnowledge (pass_view pass) (drawn_view d)) }
        ensures drawn { IfOk result
            (λ d. drawn_view d ≡ waiting (pass_view pass) (ticket_of (drawn_view d))) }
        ensures later { IfOk result
            (λ d. All (λ e. e.ticket < ticket_of (drawn_view d)) (seen_of (drawn_view d))) }
        ensures range { IfOk result (λ d. ticket_of (drawn_view d) < 2 ^ 62) }
        ensures token_back { IfErr result (λ e. IsPassOf self.now e.pass) }
        ensures knowledge_back { IfErr result
            (λ e. SameKnowledge (pass_view pass) (pass_view e.pass)) }
        // One load more, and one lost exchange after it.
        ensures raced { IfErr result (λ e. IfRaced e.why
            (λ l f. pass_view e.pass ≡ lost (loaded (pass_view pass) l) f)) }
        ensures rose { IfErr result (λ e. IfRaced e.why (λ l f. l < f)) }
        // One load more, which gave 2^62.
        ensures exhausted { IfErr result (λ e. IfNoneLeft e.why
            (pass_view e.pass ≡ loaded (pass_view pass) (2 ^ 62))) }
    {
        self.lock.draw(pass)
    }

    /// Looks once whether the turn of the ticket has come, and if it has, carries the instruction out and enters it. It does not
    /// wait. The answer is the pass, and the receipt.
    ///
    /// `Full` where the history has no room; the turn is spent. `NotYet` where `served` is below the ticket; it gives the ticket
    /// and the instruction back.
    pub fn try_issue(
        &self,
        drawn: Drawn<Engine<M>>,
        instr: Instr,
    ) -> Result<(Pass<Engine<M>>, Result<Receipt, Full>), NotYet<Engine<M>, Instr>>
        requires { IsDrawnOf self.now drawn }
        ensures token { IfOk result (λ r. IsPassOf self.now r.0) }
        ensures caller { IfOk result
            (λ r. caller_of (pass_view r.0) ≡ caller_of (drawn_view drawn)) }
        ensures turn { IfOk result
            (λ r. HasHadTurn (setting_of self.now) (drawn_view drawn) (pass_view r.0)) }
        ensures entered { IfOk result (λ r. IfOk r.1 (λ receipt.
            let new = entry_of receipt (caller_of (drawn_view drawn)) instr in
            HasEntered (setting_of self.now) (drawn_view drawn) (pass_view r.0) new receipt.place)) }
        ensures ticket { IfOk result (λ r. IfOk r.1 (λ receipt.
            receipt.ticket ≡ ticket_of (drawn_view drawn))) }
        ensures full { IfOk result (λ r. IfErr r.1 (λ _.
            HasFoundFull (setting_of self.now) (drawn_view drawn) (pass_view r.0))) }
        // A turn that finds the history full leaves no entry: those there are of earlier turns.
        ensures none_new { IfOk result (λ r. IfErr r.1 (λ _.
            All (λ e. e.ticket < ticket_of (drawn_view drawn)) (seen_of (pass_view r.0)))) }
        ensures token_back { IfErr result (λ e. IsDrawnOf self.now e.drawn) }
        ensures knowledge_back { IfErr result
            (λ e. SameKnowledge (drawn_view drawn) (drawn_view e.drawn)) }
        ensures looked { IfErr result
            (λ e. drawn_view e.drawn ≡ looked (drawn_view drawn) e.served) }
        ensures not_yet { IfErr result (λ e. e.served < e.ticket) }
        ensures ticket_back { IfErr result (λ e. e.ticket ≡ ticket_of (drawn_view drawn)) }
        ensures ticket_kept { IfErr result
            (λ e. ticket_of (drawn_view e.drawn) ≡ ticket_of (drawn_view drawn)) }
        ensures instr_back { IfErr result (λ e. e.call ≡ instr) }
    {
        let (pass, _, outcome) = self.lock.try_take(drawn, instr)?;
        Ok((pass, outcome))
    }

    /// Draws a ticket, again where others draw faster, looks until its turn has come, carries the instruction out and enters it.
    /// It may wait forever.
    ///
    /// `Full` where the history has no room, `Exhausted` where no ticket is left.
    pub fn issue(
        &self,
        rt: &impl Wait,
        pass: Pass<Engine<M>>,
        instr: Instr,
    ) -> (Pass<Engine<M>>, Result<Receipt, IssueError>)
        requires { IsPassOf self.now pass }
        ensures token { IsPassOf self.now result.0 }
        ensures caller { caller_of (pass_view result.0) ≡ caller_of (pass_view pass) }
        ensures seen { BeginsWith (seen_of (pass_view result.0)) (seen_of (pass_view pass)) }
        ensures turn { IfTurn result.1
            (HasHadTurn (setting_of self.now) (pass_view pass) (pass_view result.0)) }
        ensures entered { IfOk result.1 (λ receipt.
            let new = entry_of receipt (caller_of (pass_view pass)) instr in
            HasEntered (setting_of self.now) (pass_view pass) (pass_view result.0) new receipt.place) }
        ensures full { IfErr result.1 (λ why. IfFull why
            (HasFoundFull (setting_of self.now) (pass_view pass) (pass_view result.0))) }
        ensures none_new { IfErr result.1 (λ why. IfFull why
            (HasNothingNew (pass_view pass) (pass_view result.0))) }
        // The last load of `drawn` gave 2^62.
        ensures exhausted { IfErr result.1 (λ why. IfNoTicket why
            (loaded_of (pass_view result.0) ≡ 2 ^ 62)) }
        ensures same { IfErr result.1 (λ why. IfNoTicket why
            (SameKnowledge (pass_view pass) (pass_view result.0))) }
    {
        let mut pass = pass;
        for _ in rt.forever() {
            match self.lock.draw(pass) {
                Ok(drawn) => return self.issue_drawn(rt, drawn, instr),
                Err(
                    NotDrawn {
                        pass: back,
                        why: NotDrawnWhy::Exhausted,
                    },
                ) => return (back, Err(IssueError::Exhausted)),
                Err(
                    NotDrawn {
                        pass: back,
                        why: NotDrawnWhy::Raced {
                            loaded: _,
                            found: _,
                        },
                    },
                ) => pass = back,
            }
        }
        unreachable!()
    }

    // Waits for the turn of the ticket, carries the instruction out and enters it.
    fn issue_drawn(
        &self,
        rt: &impl Wait,
        drawn: Drawn<Engine<M>>,
        instr: Instr,
    ) -> (Pass<Engine<M>>, Result<Receipt, IssueError>)
        requires { IsDrawnOf self.now drawn }
        ensures token { IsPassOf self.now result.0 }
        ensures caller { caller_of (pass_view result.0) ≡ caller_of (drawn_view drawn) }
        ensures turn { HasHadTurn (setting_of self.now) (drawn_view drawn) (pass_view result.0) }
        ensures entered { IfOk result.1 (λ receipt.
            let new = entry_of receipt (caller_of (drawn_view drawn)) instr in
            HasEntered (setting_of self.now) (drawn_view drawn) (pass_view result.0) new receipt.place) }
        ensures full { IfErr result.1 (λ why. why ≡ IssueError.Full
            × HasFoundFull (setting_of self.now) (drawn_view drawn) (pass_view result.0)) }
        ensures none_new { IfErr result.1 (λ _.
            All (λ e. e.ticket < ticket_of (drawn_view drawn)) (seen_of (pass_view result.0))) }
    {
        let (pass, _, outcome) = self.lock.take(rt, drawn, instr);
        match outcome {
            Ok(receipt) => (pass, Ok(receipt)),
            Err(Full) => (pass, Err(IssueError::Full)),
        }
    }

    /// Two callers tell each other what they have seen: of the two histories one begins with the other, and both passes have then
    /// seen the longer. Each comes back in its place, with its caller, its own entries and its tries as before. It takes no memory
    /// and does not wait.
    pub fn meet(
        &self,
        first: Pass<Engine<M>>,
        second: Pass<Engine<M>>,
    ) -> (Pass<Engine<M>>, Pass<Engine<M>>)
        requires first { IsPassOf self.now first }
        requires second { IsPassOf self.now second }
        ensures first_token { IsPassOf self.now result.0 }
        ensures second_token { IsPassOf self.now result.1 }
        ensures one_history { OneBegins (seen_of (pass_view first)) (seen_of (pass_view second)) }
        ensures seen { let history = longer (seen_of (pass_view first)) (seen_of (pass_view second)) in
            (seen_of (pass_view result.0) ≡ history) × (seen_of (pass_view result.1) ≡ history) }
        ensures begins { BeginsWith (seen_of (pass_view result.0)) (seen_of (pass_view first))
            × BeginsWith (seen_of (pass_view result.1)) (seen_of (pass_view second)) }
        ensures callers { (caller_of (pass_view result.0) ≡ caller_of (pass_view first))
            × (caller_of (pass_view result.1) ≡ caller_of (pass_view second)) }
        ensures mine { (mine_of (pass_view result.0) ≡ mine_of (pass_view first))
            × (mine_of (pass_view result.1) ≡ mine_of (pass_view second)) }
        ensures views { let history = longer (seen_of (pass_view first)) (seen_of (pass_view second)) in
            (pass_view result.0 ≡ having_seen (pass_view first) history)
            × (pass_view result.1 ≡ having_seen (pass_view second) history) }
    {
        self.lock.meet(first, second)
    }

    /// Takes a pass back, and records what it knew. Its caller's number is not used again.
    pub fn retire(&self, opener: &mut Opener<Engine<M>>, pass: Pass<Engine<M>>)
        requires opener { IsOpenerOf self.now opener.old }
        requires pass { IsPassOf self.now pass }
        ensures opener { IsOpenerOf self.now opener.new }
        ensures view { opener_view opener.new ≡ taken_back (opener_view opener.old) (pass_view pass) }
        ensures next { next_of (opener_view opener.new) ≡ next_of (opener_view opener.old) }
        ensures recorded { records_of (opener_view opener.new)
            ≡ records_of (opener_view opener.old) ++ knowledge_of (pass_view pass) ∷ [] }
        ensures seen { seen_of (opener_view opener.new)
            ≡ longer (seen_of (opener_view opener.old)) (seen_of (pass_view pass)) }
        ensures one_fewer { out_of (opener_view opener.new) ≡ out_of (opener_view opener.old) - 1 }
    {
        self.lock.retire(opener, pass);
    }

    /// Takes the lock apart and gives the engine back.
    ///
    /// `StillOut` where passes are not retired, with their number; all is then as before.
    pub fn close(self, opener: Opener<Engine<M>>) -> Result<Engine<M>, StillOut<M>>
        requires { IsOpenerOf self opener }
        ensures none_out { IfOk result (λ _. out_of (opener_view opener) ≡ 0) }
        ensures sound { IfOk result (λ engine. IsSound engine) }
        ensures setting { IfOk result (λ engine. engine.setting ≡ setting_of self) }
        ensures last { IfOk result
            (λ engine. IsLastHistory (records_of (opener_view opener)) engine.history) }
        ensures some_out { IfErr result (λ e. 0 < e.left) }
        ensures left { IfErr result (λ e. e.left ≡ out_of (opener_view opener)) }
        ensures shared_back { IfErr result (λ e. e.shared ≡ self) }
        ensures opener_back { IfErr result (λ e. e.opener ≡ opener) }
    {
        let Shared { lock } = self;
        match lock.close(opener) {
            Ok(engine) => Ok(engine),
            Err(cmwq_lock::StillOut { lock, opener, left }) => Err(StillOut {
                shared: Shared { lock },
                opener,
                left,
            }),
        }
    }
}
