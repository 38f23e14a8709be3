//! A thread for each actor.
ghost use Rattle.std.specs.Prelude.{◌≡◌, ◌+◌, ℕ, ◌<◌, ◌≤◌, [], IfOk, IfSome, None, Some, length, slice_index_or, vec_capacity, vec_len};
ghost use Rattle.cmwq_types.specs.Scenario.{expand_lines};
ghost use Rattle.cmwq_types.specs.declared.limits.TheConstants.{MAX_ACTORS, MAX_HISTORY, MAX_PASSES};
ghost use Rattle.cmwq_lock.specs.Rule.{opening_view};
ghost use Rattle.cmwq_lock.specs.Tokens.{opener_view, pass_view};
ghost use Rattle.cmwq_lock.specs.Views.{caller_of, mine_of, next_of, out_of, records_of};
ghost use Rattle.cmwq_engine.specs.Shared.{IsOpenerOf, IsPassOf, setting_of};
ghost use Rattle.cmwq_actors.specs.Interleaving.{scripts_in};
ghost use Rattle.cmwq_actors.specs.Playing.{EachHasPlayed, HasPlayed};

use crate::begin::AllStarted;
use crate::ending::Ending;
use crate::gate::Gate;
use crate::part::{ActorStage, Played};
use cmwq_engine::{Engine, Shared};
use cmwq_lock::{Kept, Opener};
use cmwq_table::Machine;
use cmwq_types::{Actor, Line, NoMemory};
use std::alloc::Global;
use std::snapshot::Snapshot;
use std::sync::Wait;
use std::thread::{self, Promise, PromisedHandle, Scope, Threads};
use std::time::Clock;

/// What an actor's thread promises: its pass, which knows what the actor's ending says. It has no bytes but the number.
#[derive(Drop)]
pub(crate) struct Plays<M: Machine, G>
where
    Engine<M>: Kept,
{
    gate: Snapshot<G>,
    shared: Snapshot<Shared<M>>,
    actor: u8,
    lines: Snapshot<Vec<Line>>,
}

impl<M: Machine, G: Gate> Promise<Played<M>> for Plays<M, G> {
    ghost use Rattle.cmwq_types.specs.Scenario.{expand_lines};
    ghost use Rattle.cmwq_lock.specs.Tokens.{pass_view};
    ghost use Rattle.cmwq_lock.specs.Views.{knowledge_of, loaded_of};
    ghost use Rattle.cmwq_actors.specs.declared.ending.Ending.TheVariants.{Exhausted};
    ghost use Rattle.std.specs.Prelude.{◌≡◌, ◌^◌, Some};
    ghost use Rattle.cmwq_engine.specs.Shared.{IsPassOf, setting_of};
    ghost use Rattle.cmwq_actors.specs.Playing.{HasPlayed};

    ghost kept_by = { λ p r. IsPassOf p.shared.value r.pass × HasPlayed (G.has_passed p.gate.value) (setting_of p.shared.value).capacity p.actor (expand_lines p.lines.value.items) r.ending (knowledge_of (pass_view r.pass))
        × (r.ending ≡ Some Exhausted → loaded_of (pass_view r.pass) ≡ 2 ^ 62) };
}

type Thread<M, G> = PromisedHandle<Played<M>, Plays<M, G>>;

/// The actors' threads, and how they ended.
type Room<M, G> = (Vec<Thread<M, G>>, Vec<Ending>);

/// Room for the threads and the endings of so many actors, with none in it.
pub(crate) fn room_for<M: Machine, G: Gate>(
    alloc: Global,
    count: usize,
) -> Result<Room<M, G>, NoMemory>
    ensures no_threads { IfOk result (λ room. room.0.items ≡ []) }
    ensures no_endings { IfOk result (λ room. room.1.items ≡ []) }
    ensures threads { IfOk result (λ room. count ≤ vec_capacity room.0) }
    ensures endings { IfOk result (λ room. count ≤ vec_capacity room.1) }
{
    let threads = Vec::with_capacity(alloc, count)?;
    let endings = Vec::with_capacity(alloc, count)?;
    Ok((threads, endings))
}

impl<'a, R: Threads + Wait + Clock + Sync, M: Machine + Send, G: Gate> ActorStage<'a, R, M, G> {
    /// Plays all actors at once, and takes their passes back. There are fewer endings than actors where a thread couldn't be
    /// started.
    pub(crate) fn perform<'e>(
        &'e self,
        opener: Opener<Engine<M>>,
        actors: &'e [Actor],
        room: Room<M, G>,
    ) -> (Opener<Engine<M>>, Vec<Ending>)
        requires small { (setting_of self.now.shared).capacity ≤ MAX_HISTORY }
        requires opener { IsOpenerOf self.now.shared opener }
        requires opening { opener_view opener ≡ opening_view (setting_of self.now.shared) }
        requires few { length actors.now ≤ MAX_ACTORS }
        requires no_threads { room.0.items ≡ [] }
        requires no_endings { room.1.items ≡ [] }
        requires threads { length actors.now ≤ vec_capacity room.0 }
        requires endings { length actors.now ≤ vec_capacity room.1 }
        ensures opener { IsOpenerOf self.now.shared result.0 }
        ensures none_out { out_of (opener_view result.0) ≡ 0 }
        ensures few { vec_len result.1 ≤ length actors.now }
        ensures played { vec_len result.1 ≡ length actors.now
            → EachHasPlayed (G.has_passed self.now.gate.now) (setting_of self.now.shared).capacity (scripts_in actors.now) result.1.items (records_of (opener_view result.0)) }
    {
        let (threads, endings) = room;
        thread::scope(
            thread::scope_env(),
            self.rt,
            |scope| -> (Opener<Engine<M>>, Vec<Ending>)
                requires { ((setting_of self.now.shared).capacity ≤ MAX_HISTORY)
                    × IsOpenerOf self.now.shared opener
                    × (opener_view opener ≡ opening_view (setting_of self.now.shared))
                    × (length actors.now ≤ MAX_ACTORS)
                    × (threads.items ≡ [])
                    × (endings.items ≡ [])
                    × (length actors.now ≤ vec_capacity threads)
                    × (length actors.now ≤ vec_capacity endings) }
                ensures opener { IsOpenerOf self.entry.now.shared result.0 }
                ensures none_out { out_of (opener_view result.0) ≡ 0 }
                ensures few { vec_len result.1 ≤ length actors.entry.now }
                ensures played { vec_len result.1 ≡ length actors.entry.now
                    → EachHasPlayed (G.has_passed self.entry.now.gate.now) (setting_of self.entry.now.shared).capacity (scripts_in actors.entry.now) result.1.items (records_of (opener_view result.0)) }
            {
                let (opener, threads) = self.start(scope, opener, actors, threads);
                self.join_all(opener, threads, endings)
            },
        )
    }

    /// Starts a thread for each actor, and lets them begin once all are there. Where one can't be started, none begins, and
    /// that actor's pass is taken back.
    fn start<'s, E>(
        &'s self,
        scope: &Scope<'s, E>,
        opener: Opener<Engine<M>>,
        actors: &'s [Actor],
        threads: Vec<Thread<M, G>>,
    ) -> (Opener<Engine<M>>, Vec<Thread<M, G>>)
        requires small { (setting_of self.now.shared).capacity ≤ MAX_HISTORY }
        requires opener { IsOpenerOf self.now.shared opener }
        requires opening { opener_view opener ≡ opening_view (setting_of self.now.shared) }
        requires few { length actors.now ≤ MAX_ACTORS }
        requires empty { threads.items ≡ [] }
        requires room { length actors.now ≤ vec_capacity threads }
        ensures opener { IsOpenerOf self.now.shared result.0 }
        ensures out { out_of (opener_view result.0) ≡ vec_len result.1 }
        ensures few { vec_len result.1 ≤ length actors.now }
        ensures none_retired { vec_len result.1 ≡ length actors.now → records_of (opener_view result.0) ≡ [] }
        ensures parts { (i : ℕ) (t : _) (a : _) → i < vec_len result.1
            → ((slice_index_or result.1.items i t).promise.gate.value ≡ self.now.gate.now)
            × ((slice_index_or result.1.items i t).promise.shared.value ≡ self.now.shared)
            × ((slice_index_or result.1.items i t).promise.actor ≡ i)
            × ((slice_index_or result.1.items i t).promise.lines.value.items ≡ (slice_index_or actors.now i a).lines) }
    {
        let mut opener = opener;
        let mut threads = threads;
        for (number, actor) in actors.iter().enumerate() {
            match self.start_one(scope, &mut opener, number as u8, &actor.lines) {
                Some(thread) => threads.push_reserved(thread),
                None => return (opener, threads),
            }
        }
        let all = AllStarted::of(threads.len(), actors.len());
        let _ = self.begin.set(self.rt, Some(all));
        (opener, threads)
    }

    /// Starts an actor's thread. Where it can't be started, no actor begins, and its pass is taken back.
    fn start_one<'s, E>(
        &'s self,
        scope: &Scope<'s, E>,
        opener: &mut Opener<Engine<M>>,
        number: u8,
        lines: &'s Vec<Line>,
    ) -> Option<Thread<M, G>>
        requires small { (setting_of self.now.shared).capacity ≤ MAX_HISTORY }
        requires opener { IsOpenerOf self.now.shared opener.old }
        requires next { next_of (opener_view opener.old) ≡ number }
        requires few { out_of (opener_view opener.old) < MAX_PASSES }
        ensures opener { IsOpenerOf self.now.shared opener.new }
        ensures next { IfSome result (λ _. next_of (opener_view opener.new) ≡ number + 1) }
        ensures one_more { IfSome result
            (λ _. out_of (opener_view opener.new) ≡ out_of (opener_view opener.old) + 1) }
        ensures same_records { IfSome result
            (λ _. records_of (opener_view opener.new) ≡ records_of (opener_view opener.old)) }
        ensures promise { IfSome result
            (λ thread. (thread.promise.gate.value ≡ self.now.gate.now)
            × (thread.promise.shared.value ≡ self.now.shared)
            × (thread.promise.actor ≡ number)
            × (thread.promise.lines.value.items ≡ lines.now.items)) }
        ensures back { result ≡ None → out_of (opener_view opener.new) ≡ out_of (opener_view opener.old) }
    {
        let Ok(pass) = self.shared.pass(opener) else {
            unreachable!()
        };
        let promise = Plays {
            gate: Snapshot::of(self.gate),
            shared: Snapshot::of(&self.shared),
            actor: number,
            lines: Snapshot::of(lines),
        };
        let part = move || -> Played<M>
            requires { ((setting_of self.now.shared).capacity ≤ MAX_HISTORY)
                × IsPassOf self.now.shared pass
                × (caller_of (pass_view pass) ≡ number)
                × (mine_of (pass_view pass) ≡ []) }
        { self.play(number, lines, pass) };
        match scope.spawn_with(promise, part) {
            Ok(thread) => Some(thread),
            Err(refused) => {
                let _ = self.begin.set(self.rt, None);
                let Played { pass, ending: _ } = (refused.value)();
                self.shared.retire(opener, pass);
                None
            }
        }
    }

    /// Waits for each actor's end, and takes its pass back.
    fn join_all(
        &self,
        opener: Opener<Engine<M>>,
        threads: Vec<Thread<M, G>>,
        endings: Vec<Ending>,
    ) -> (Opener<Engine<M>>, Vec<Ending>)
        requires opener { IsOpenerOf self.now.shared opener }
        requires out { out_of (opener_view opener) ≡ vec_len threads }
        requires parts { (i : ℕ) (t : _) → i < vec_len threads
            → ((slice_index_or threads.items i t).promise.gate.value ≡ self.now.gate.now)
            × ((slice_index_or threads.items i t).promise.shared.value ≡ self.now.shared)
            × ((slice_index_or threads.items i t).promise.actor ≡ i) }
        requires empty { endings.items ≡ [] }
        requires room { vec_len threads ≤ vec_capacity endings }
        ensures opener { IsOpenerOf self.now.shared result.0 }
        ensures none_out { out_of (opener_view result.0) ≡ 0 }
        ensures few { vec_len result.1 ≤ vec_len threads }
        ensures counted { records_of (opener_view opener) ≡ [] → length (records_of (opener_view result.0)) ≡ vec_len threads }
        ensures played { records_of (opener_view opener) ≡ [] → vec_len result.1 ≡ vec_len threads
            → (i : ℕ) (t : _) (e : _) (k : _) → i < vec_len threads
            → HasPlayed (G.has_passed self.now.gate.now) (setting_of self.now.shared).capacity i (expand_lines (slice_index_or threads.items i t).promise.lines.value.items)
            (Some (slice_index_or result.1.items i e)) (slice_index_or (records_of (opener_view result.0)) i k) }
    {
        let mut opener = opener;
        let mut endings = endings;
        for thread in threads {
            let Played { pass, ending } = thread.join(self.rt);
            self.shared.retire(&mut opener, pass);
            if let Some(ending) = ending {
                endings.push_reserved(ending);
            }
        }
        (opener, endings)
    }
}
