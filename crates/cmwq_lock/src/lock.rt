//! The lock, as callers use it. A clause speaks of what a token knows, its view, in the words of `specs/Views.antt`.
ghost use Rattle.std.specs.Prelude.{◌≡◌, ◌+◌, ◌-◌, ◌^◌, ◌<◌, [], ◌∷◌, ◌++◌, All, IfOk, IfErr};
ghost use Rattle.cmwq_types.specs.declared.limits.TheConstants.{MAX_PASSES};
ghost use Rattle.cmwq_lock.specs.Log.{BeginsWith, OneBegins, longer};
ghost use Rattle.cmwq_lock.specs.Views.{loaded, lost, waiting, looked, came_out, given, fresh, taken_back, having_seen, caller_of, ticket_of, next_of, out_of, seen_of, mine_of, records_of, knowledge_of, HasOrigin, SameKnowledge};
ghost use Rattle.cmwq_lock.specs.Promises.{IsTurn, IsLastLog};
ghost use Rattle.cmwq_lock.specs.Steps.{HasTurn};
ghost use Rattle.cmwq_lock.specs.Rule.{opening_view};
ghost use Rattle.cmwq_lock.specs.Seats.{IsSeatOf};

use crate::fault::{NotDrawn, NotDrawnWhy, NotYet, StillOut, TooMany};
use crate::kept::{Call, Kept};
use crate::steps::{self, LockSeat, TicketRule};
use crate::tokens::{Drawn, Opener, Pass};
use crate::views::{Held, SeatView};
use atomic_table::{Refused, Table};
use cmwq_types::{MAX_PASSES, MAX_TICKETS, NoMemory};
use crossbeam_utils::Backoff;
use std::alloc::Global;
use std::snapshot::Snapshot;
use std::sync::Wait;

/// A value that callers take turns at, in the order of the tickets that they draw. Each call has as condition that its token is
/// this lock's.
#[derive(Drop)]
pub struct TicketLock<T: Kept> {
    pub(crate) table: Table<
        Option<Held<T>>,
        SeatView<T::Origin, T::Entry>,
        Snapshot<T>,
        TicketRule<T>,
        Global,
    >,
    ghost two_words: { table.shared.table_id.words ≡ 2 },
    ghost one_slot: { table.shared.table_id.slots ≡ 1 },
}

impl<T: Kept + Drop> TicketLock<T> {
    ghost use Rattle.cmwq_lock.specs.Tokens.{opener_view, pass_view, drawn_view, lock_origin, IsOpenerOf, IsPassOf, IsDrawnOf, IfRaced, IfExhausted};

    /// A lock round a value whose log is empty, and its opener, with no pass out. No other call of the lock takes memory.
    ///
    /// `NoMemory` where the allocator gives none; the value is then dropped.
    pub fn open(alloc: Global, value: T) -> Result<(TicketLock<T>, Opener<T>), NoMemory>
        requires sound { T.sound value }
        requires empty { T.log value ≡ [] }
        ensures origin { IfOk result (λ r. lock_origin T.Kept r.0 ≡ T.origin value) }
        ensures token { IfOk result (λ r. IsOpenerOf T.Kept r.0 r.1) }
        ensures view { IfOk result (λ r. opener_view r.1 ≡ opening_view (T.origin value)) }
    {
        let about = Snapshot::of(&value);
        let mut slots = Vec::with_capacity(alloc, 1)?;
        slots.push_reserved(Some(Held { value, turns: 0 }));
        match Table::new(alloc, &[0, 0], slots, &about) {
            Ok((table, seat)) => Ok((
                TicketLock { table },
                Opener {
                    seat,
                    next: 0,
                    out: 0,
                },
            )),
            Err(Refused { slots: _ }) => Err(NoMemory),
        }
    }

    /// One more pass, with the next caller's number, no call of its own, and all that the opener has seen. Numbers rise from 0
    /// to 2^32 - 1 and are never used again.
    ///
    /// `TooMany` where 64 passes are out; the opener is then as before.
    pub fn pass(&self, opener: &mut Opener<T>) -> Result<Pass<T>, TooMany>
        requires lock { IsOpenerOf T.Kept self.now opener.old }
        requires room { next_of (opener_view opener.old) < 2 ^ 32 }
        ensures lock { IsOpenerOf T.Kept self.now opener.new }
        ensures token { IfOk result (λ p. IsPassOf T.Kept self.now p) }
        ensures fresh { IfOk result (λ p. pass_view p ≡ fresh (opener_view opener.old)) }
        ensures given { IfOk result
            (λ _. opener_view opener.new ≡ given (opener_view opener.old)) }
        ensures number { IfOk result
            (λ p. caller_of (pass_view p) ≡ next_of (opener_view opener.old)) }
        ensures seen { IfOk result
            (λ p. seen_of (pass_view p) ≡ seen_of (opener_view opener.old)) }
        ensures mine { IfOk result (λ p. mine_of (pass_view p) ≡ []) }
        ensures next { IfOk result
            (λ _. next_of (opener_view opener.new) ≡ next_of (opener_view opener.old) + 1) }
        ensures one_more { IfOk result
            (λ _. out_of (opener_view opener.new) ≡ out_of (opener_view opener.old) + 1) }
        ensures few { IfOk result (λ _. out_of (opener_view opener.old) < MAX_PASSES) }
        ensures many { IfErr result (λ _. out_of (opener_view opener.old) ≡ MAX_PASSES) }
        ensures same { IfErr result (λ _. opener.new ≡ opener.old) }
    {
        if opener.out >= MAX_PASSES {
            return Err(TooMany);
        }
        let caller = opener.next as u32;
        let seat = steps::give(&self.table.shared, &mut opener.seat);
        opener.next += 1;
        opener.out += 1;
        Ok(Pass { seat, caller })
    }

    /// Draws a ticket, 0 to 2^62 - 1, by one load and one exchange. It does not wait and does not try again.
    ///
    /// `NotDrawn` gives the pass back: `Raced` where others drew between the two, `Exhausted` where no ticket is left.
    pub fn draw(&self, pass: Pass<T>) -> Result<Drawn<T>, NotDrawn<T>>
        requires { IsPassOf T.Kept self.now pass }
        ensures token { IfOk result (λ d. IsDrawnOf T.Kept self.now d) }
        ensures knowledge { IfOk result (λ d. SameKnowledge (pass_view pass) (drawn_view d)) }
        ensures drawn { IfOk result
            (λ d. drawn_view d ≡ waiting (pass_view pass) (ticket_of (drawn_view d))) }
        ensures later { IfOk result
            (λ d. All (λ e. T.ticket e < ticket_of (drawn_view d)) (seen_of (drawn_view d))) }
        ensures range { IfOk result (λ d. ticket_of (drawn_view d) < 2 ^ 62) }
        ensures token_back { IfErr result (λ e. IsPassOf T.Kept self.now e.pass) }
        ensures knowledge_back { IfErr result
            (λ e. SameKnowledge (pass_view pass) (pass_view e.pass)) }
        // One load more, and one lost exchange after it.
        ensures raced { IfErr result (λ e. IfRaced e.why
            (λ l f. pass_view e.pass ≡ lost (loaded (pass_view pass) l) f)) }
        ensures rose { IfErr result (λ e. IfRaced e.why (λ l f. l < f)) }
        // One load more, which gave 2^62.
        ensures exhausted { IfErr result (λ e. IfExhausted e.why
            (pass_view e.pass ≡ loaded (pass_view pass) (2 ^ 62))) }
    {
        let Pass { mut seat, caller } = pass;
        let loaded = steps::load(&self.table.shared, &mut seat);
        if loaded >= MAX_TICKETS {
            return Err(NotDrawn {
                pass: Pass { seat, caller },
                why: NotDrawnWhy::Exhausted,
            });
        }
        let found = steps::exchange(&self.table.shared, &mut seat, loaded);
        if found != loaded {
            return Err(NotDrawn {
                pass: Pass { seat, caller },
                why: NotDrawnWhy::Raced { loaded, found },
            });
        }
        Ok(Drawn {
            seat,
            caller,
            ticket: loaded,
        })
    }

    /// Looks once whether the turn of the ticket has come, and carries the call out if it has. It does not wait.
    /// The answer is the pass, the ticket that was spent, and what the call gave.
    ///
    /// `NotYet` where `served` is below the ticket; it gives the ticket and the call back.
    pub fn try_take<C: Call<T>>(
        &self,
        drawn: Drawn<T>,
        call: C,
    ) -> Result<(Pass<T>, u64, C::Out), NotYet<T, C>>
        requires { IsDrawnOf T.Kept self.now drawn }
        ensures token { IfOk result (λ r. IsPassOf T.Kept self.now r.0) }
        ensures caller { IfOk result
            (λ r. caller_of (pass_view r.0) ≡ caller_of (drawn_view drawn)) }
        ensures ticket { IfOk result (λ r. r.1 ≡ ticket_of (drawn_view drawn)) }
        ensures seen { IfOk result
            (λ r. BeginsWith (seen_of (pass_view r.0)) (seen_of (drawn_view drawn))) }
        ensures turn { IfOk result (λ r.
            let o = lock_origin T.Kept self.now in let v = drawn_view drawn in
            IsTurn T.Kept o v (pass_view r.0) (λ before after.
            C.tells o call before after (ticket_of v) (caller_of v) r.2)) }
        ensures token_back { IfErr result (λ e. IsDrawnOf T.Kept self.now e.drawn) }
        ensures knowledge_back { IfErr result
            (λ e. SameKnowledge (drawn_view drawn) (drawn_view e.drawn)) }
        ensures looked { IfErr result
            (λ e. drawn_view e.drawn ≡ looked (drawn_view drawn) e.served) }
        ensures not_yet { IfErr result (λ e. e.served < e.ticket) }
        ensures ticket_back { IfErr result (λ e. e.ticket ≡ ticket_of (drawn_view drawn)) }
        ensures ticket_kept { IfErr result
            (λ e. ticket_of (drawn_view e.drawn) ≡ ticket_of (drawn_view drawn)) }
        ensures call_back { IfErr result (λ e. e.call ≡ call) }
    {
        let Drawn {
            mut seat,
            caller,
            ticket,
        } = drawn;
        let served = steps::look(&self.table.shared, &mut seat);
        if served != ticket {
            let drawn = Drawn {
                seat,
                caller,
                ticket,
            };
            return Err(NotYet {
                drawn,
                ticket,
                served,
                call,
            });
        }
        Ok(self.turn(seat, ticket, caller, call))
    }

    /// Looks until the turn of the ticket has come, with a pause after each look, and carries the call out. The answer is as
    /// that of `try_take`. It may wait forever.
    pub fn take<C: Call<T>>(
        &self,
        rt: &impl Wait,
        drawn: Drawn<T>,
        call: C,
    ) -> (Pass<T>, u64, C::Out)
        requires { IsDrawnOf T.Kept self.now drawn }
        ensures token { IsPassOf T.Kept self.now result.0 }
        ensures caller { caller_of (pass_view result.0) ≡ caller_of (drawn_view drawn) }
        ensures ticket { result.1 ≡ ticket_of (drawn_view drawn) }
        ensures seen { BeginsWith (seen_of (pass_view result.0)) (seen_of (drawn_view drawn)) }
        ensures turn { let o = lock_origin T.Kept self.now in let v = drawn_view drawn in
            IsTurn T.Kept o v (pass_view result.0) (λ before after.
            C.tells o call before after (ticket_of v) (caller_of v) result.2) }
    {
        let Drawn {
            mut seat,
            caller,
            ticket,
        } = drawn;
        let backoff = Backoff::new();
        for _ in rt.forever() {
            if steps::look(&self.table.shared, &mut seat) == ticket {
                break;
            }
            backoff.snooze();
        }
        self.turn(seat, ticket, caller, call)
    }

    // Carries a call out in the turn that the seat has, and ends the turn.
    fn turn<C: Call<T>>(
        &self,
        mut seat: LockSeat<T>,
        ticket: u64,
        caller: u32,
        call: C,
    ) -> (Pass<T>, u64, C::Out)
        requires place { IsSeatOf self.now.table.shared seat }
        requires begun { HasTurn T.Kept seat.me ticket caller }
        requires small { ticket < 2 ^ 62 }
        requires origin { HasOrigin seat.me.0 (lock_origin T.Kept self.now) }
        ensures token { IsPassOf T.Kept self.now result.0 }
        ensures caller { caller_of (pass_view result.0) ≡ caller }
        ensures ticket { result.1 ≡ ticket }
        ensures turn { let o = lock_origin T.Kept self.now in
            IsTurn T.Kept o seat.me.0 (pass_view result.0) (λ before after.
            C.tells o call before after ticket caller result.2) }
    {
        let words = &self.table.shared;
        let Held { mut value, turns } = steps::take_value(words, &mut seat);
        let out = call.apply(&mut value, ticket, caller);
        let held = Held {
            value,
            turns: turns + 1,
        };
        steps::put_value(words, &mut seat, held);
        steps::end(words, &mut seat);
        (Pass { seat, caller }, ticket, out)
    }

    /// Two callers tell each other what they have seen: of the two logs one begins with the other, and both passes have then seen
    /// the longer. Each comes back in its place, with its caller, the entries of its own calls and its tries as before. It takes no
    /// memory and does not wait.
    pub fn meet(&self, first: Pass<T>, second: Pass<T>) -> (Pass<T>, Pass<T>)
        requires first { IsPassOf T.Kept self.now first }
        requires second { IsPassOf T.Kept self.now second }
        ensures first_token { IsPassOf T.Kept self.now result.0 }
        ensures second_token { IsPassOf T.Kept self.now result.1 }
        ensures one_history { OneBegins (seen_of (pass_view first)) (seen_of (pass_view second)) }
        ensures seen { let log = longer (seen_of (pass_view first)) (seen_of (pass_view second)) in
            (seen_of (pass_view result.0) ≡ log) × (seen_of (pass_view result.1) ≡ log) }
        ensures begins { BeginsWith (seen_of (pass_view result.0)) (seen_of (pass_view first))
            × BeginsWith (seen_of (pass_view result.1)) (seen_of (pass_view second)) }
        ensures callers { (caller_of (pass_view result.0) ≡ caller_of (pass_view first))
            × (caller_of (pass_view result.1) ≡ caller_of (pass_view second)) }
        ensures mine { (mine_of (pass_view result.0) ≡ mine_of (pass_view first))
            × (mine_of (pass_view result.1) ≡ mine_of (pass_view second)) }
        ensures views { let log = longer (seen_of (pass_view first)) (seen_of (pass_view second)) in
            (pass_view result.0 ≡ having_seen (pass_view first) log)
            × (pass_view result.1 ≡ having_seen (pass_view second) log) }
    {
        let words = &self.table.shared;
        let Pass { mut seat, caller } = first;
        let Pass {
            seat: second_seat,
            caller: second_caller,
        } = second;
        steps::join(words, &mut seat, second_seat);
        steps::compare(words, &mut seat);
        let second_seat = steps::part(words, &mut seat);
        let second = Pass {
            seat: second_seat,
            caller: second_caller,
        };
        (Pass { seat, caller }, second)
    }

    /// Takes a pass back, and records what it knew. Its caller's number is not used again.
    pub fn retire(&self, opener: &mut Opener<T>, pass: Pass<T>)
        requires opener { IsOpenerOf T.Kept self.now opener.old }
        requires pass { IsPassOf T.Kept self.now pass }
        ensures lock { IsOpenerOf T.Kept self.now opener.new }
        ensures view { opener_view opener.new ≡ taken_back (opener_view opener.old) (pass_view pass) }
        ensures next { next_of (opener_view opener.new) ≡ next_of (opener_view opener.old) }
        ensures recorded { records_of (opener_view opener.new)
            ≡ records_of (opener_view opener.old) ++ knowledge_of (pass_view pass) ∷ [] }
        ensures seen { seen_of (opener_view opener.new)
            ≡ longer (seen_of (opener_view opener.old)) (seen_of (pass_view pass)) }
        ensures one_fewer { out_of (opener_view opener.new) ≡ out_of (opener_view opener.old) - 1 }
    {
        let Pass { seat, caller: _ } = pass;
        steps::take_back(&self.table.shared, &mut opener.seat, seat);
        opener.out = opener.out.saturating_sub(1);
    }

    /// Takes the lock apart and gives the value back.
    ///
    /// `StillOut` where passes are not retired, with their number; lock and opener are then as before.
    pub fn close(self, opener: Opener<T>) -> Result<T, StillOut<T>>
        requires { IsOpenerOf T.Kept self opener }
        ensures none_out { IfOk result (λ _. out_of (opener_view opener) ≡ 0) }
        ensures sound { IfOk result (λ v. T.sound v) }
        ensures origin { IfOk result (λ v. T.origin v ≡ lock_origin T.Kept self) }
        ensures last { IfOk result
            (λ v. IsLastLog T.Kept (records_of (opener_view opener)) (T.log v)) }
        ensures some_out { IfErr result (λ e. 0 < e.left) }
        ensures left { IfErr result (λ e. e.left ≡ out_of (opener_view opener)) }
        ensures lock_back { IfErr result (λ e. e.lock ≡ self) }
        ensures opener_back { IfErr result (λ e. e.opener ≡ opener) }
    {
        if opener.out > 0 {
            let left = opener.out;
            return Err(StillOut {
                lock: self,
                opener,
                left,
            });
        }
        let TicketLock { table } = self;
        let Opener {
            seat,
            next: _,
            out: _,
        } = opener;
        let mut closed = table.close_with(seat);
        let slot = closed.take(0);
        closed.free();
        let Some(Held { value, turns: _ }) = slot else {
            unreachable!()
        };
        Ok(value)
    }
}
