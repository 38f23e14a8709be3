//! What one may believe of depths, of pools, and of going on and repeating, without reading the table.
//!
//! Each function's contract is a law. The functions do nothing: they carry the laws.
ghost use Rattle.cmwq_table.specs.Laws.{AtEveryInstruction};
ghost use Rattle.cmwq_table_laws.specs.Depths.{DisablesOnce, EnablesOnce, LeavesDepths};
ghost use Rattle.cmwq_table_laws.specs.Pools.{BodiesCancel, BodiesPlaceAtOnce, BodiesPlaceInPool, BodiesSetTimers, FiresToPool, IsPlacedByFlags, PlacesInPool};
ghost use Rattle.cmwq_table_laws.specs.Repeating.{GoesOneWay, LeavesAll, RepeatsAlike, RepeatsInPlace, SetsOneTimer};
ghost use Rattle.cmwq_table.specs.State.{State};
ghost use Rattle.cmwq_types.specs.Contents.{ScenarioContents};
ghost use Rattle.cmwq_types.specs.declared.instr.Instr.{Instr};
ghost use Rattle.cmwq_types.specs.declared.instr.WorkId.{WorkId};
ghost use Rattle.std.specs.Prelude.{ℕ};

/// Each disable that is accepted adds one to the depth of its work, and each enable takes one off, be the work idle, pending or running,
/// on whatever pool; nothing else changes a depth. (What is refused changes nothing at all.) That disables add up is the kernel's rule.
#[tactic(auto, using(crate::proofs::DepthLemmas::disables_once, crate::proofs::DepthLemmas::enables_once, crate::proofs::DepthLemmas::leaves_depths))]
pub fn depths_count_disables()
    ensures disable { AtEveryInstruction DisablesOnce }
    ensures enable { AtEveryInstruction EnablesOnce }
    ensures others { AtEveryInstruction LeavesDepths }
{}

/// A work is placed in the pool where it runs, else where the flags of its queue say: of a bound queue in a pool of the CPU, of an
/// unbound or ordered one in an unbound pool, and of one of high priority in the high one of the two.
#[tactic(auto, using(crate::proofs::PoolLemmas::is_placed_by_flags))]
pub fn flags_tell_the_pool()
    ensures { IsPlacedByFlags }
{}

/// That is where a work goes that is queued, delayed by no ticks, modified so, that a timer places, or that a body queues.
#[tactic(auto, using(crate::proofs::PoolLemmas::places_in_pool, crate::proofs::PoolLemmas::fires_to_pool, crate::proofs::PoolLemmas::bodies_place_in_pool))]
pub fn placed_works_go_to_their_pool()
    ensures instruction { AtEveryInstruction PlacesInPool }
    ensures timer { AtEveryInstruction FiresToPool }
    ensures body { AtEveryInstruction BodiesPlaceInPool }
{}

/// A body that delays or modifies a work sets its timer on the CPU where the body runs, or places it there at once where it gives no ticks;
/// in an unbound pool that is the first CPU, which is this project's own choice. A kernel arms such a timer on the CPU of the caller.
#[tactic(auto, using(crate::proofs::BodyLemmas::bodies_set_timers, crate::proofs::BodyLemmas::bodies_place_at_once))]
pub fn bodies_arm_works_on_their_cpu()
    ensures timer { AtEveryInstruction BodiesSetTimers }
    ensures placed { AtEveryInstruction BodiesPlaceAtOnce }
{}

/// A body that cancels a work tells whether it was pending, wherever it was so, and then it isn't.
#[tactic(auto, using(crate::proofs::BodyLemmas::bodies_cancel))]
pub fn bodies_cancel_what_is_pending()
    ensures { AtEveryInstruction BodiesCancel }
{}

/// To go on to the next line, at most so often, is one thing: how often `next` is carried out, the state and the last reply don't depend on
/// the machine.
#[tactic(auto, using(crate::proofs::RepeatingLemmas::goes_one_way))]
pub fn machines_go_one_way()
    ensures { (S : ScenarioContents) (s : State) (most : ℕ) → GoesOneWay S s most }
{}

/// An instruction that comes out the same again, while no time passes, has the same reply each time. Where that tells that nothing was to
/// do, nothing changes but what is spent: it was refused, the work was pending already, what was to be cancelled wasn't, it is a question, or
/// what it goes on for has come.
#[tactic(auto, using(crate::proofs::RepeatingLemmas::repeats_alike, crate::proofs::LeavingLemmas::leaves_all, crate::proofs::RepeatingLemmas::repeats_in_place))]
pub fn what_repeats_is_alike()
    ensures alike { (S : ScenarioContents) (s : State) (i : Instr) → RepeatsAlike S s i }
    ensures once { (S : ScenarioContents) (s : State) (i : Instr) → LeavesAll S s i }
    ensures in_place { (S : ScenarioContents) (s : State) (i : Instr) → RepeatsInPlace S s i }
{}

/// A work on a timer that is set on another one, again and again at one time, is born as often, and the last birth is left: the timer is that
/// of the last, and each has taken a step and a stamp. Nothing else changes.
#[tactic(auto, using(crate::proofs::RepeatingLemmas::sets_one_timer))]
pub fn a_timer_is_set_by_the_last_mod()
    ensures { (S : ScenarioContents) (s : State) (w : WorkId) (cpu ticks : ℕ) → SetsOneTimer S s w cpu ticks }
{}
