//! Runs in which the premises of the laws hold, as theorems over the definitions: no law is met for want of a case.
#![tactic(auto, unfolding(cmwq_table::specs::Table::table))]

ghost use Rattle.cmwq_table.specs.Laws.{reply_to};
ghost use Rattle.cmwq_table.specs.Repeats.{HasGone, HasRepeated};
ghost use Rattle.cmwq_table.specs.State.{State, depth_at, pending_at};
ghost use Rattle.cmwq_table.specs.Table.{run};
ghost use Rattle.cmwq_table_laws.specs.Examples.{a_burns, a_has_done, a_runs, b_is_due, b_is_set, bodies_arm, c_runs, d_runs, delay_on_1, disable_it, each_kind, enable_it, g_queues_b, mod_on_1, place_after_all, place_of_b, queue_on_1};
ghost use Rattle.cmwq_types.specs.Faults.{IsValid};
ghost use Rattle.cmwq_types.specs.declared.reply.Reply.{Reply};
ghost use Rattle.std.specs.Prelude.{◌≡◌, ◌∷◌, ◌++◌, [], None, Some, false, replicate, true};

use cmwq_types::{Event, Instr, Place, Refusal, Reply};

/// The scenario is valid, so it has runs.
pub fn each_kind_of_queue_is_there()
    ensures { IsValid each_kind }
{}

/// Of an idle work, of one that is pending and of one that runs each disable counts, and each enable takes one back.
pub fn disables_add_up()
    ensures idle { depth_at (run each_kind (disable_it 1 ∷ [])) 1 ≡ 1 }
    ensures twice { depth_at (run each_kind (queue_on_1 1 ∷ disable_it 1 ∷ disable_it 1 ∷ [])) 1 ≡ 2 }
    ensures running { depth_at (run each_kind (a_runs ++ disable_it 0 ∷ disable_it 0 ∷ disable_it 0 ∷ [])) 0 ≡ 3 }
    ensures enabled { depth_at (run each_kind (a_runs ++ disable_it 0 ∷ disable_it 0 ∷ disable_it 0 ∷ enable_it 0 ∷ [])) 0 ≡ 2 }
    ensures other { depth_at (run each_kind (disable_it 1 ∷ disable_it 2 ∷ enable_it 2 ∷ [])) 1 ≡ 1 }
    ensures refused { reply_to each_kind (run each_kind []) (enable_it 1) ≡ Reply.Refused Refusal.NotDisabled }
{}

/// Each kind of queue has its pool: of the second of two CPUs these are 2 and 3, and the unbound ones 4 and 5.
pub fn each_kind_of_queue_has_its_pool()
    ensures bound { place_after_all (queue_on_1 0 ∷ []) 0 ≡ Some (Place.Listed 2) }
    ensures bound_high { place_after_all (queue_on_1 1 ∷ []) 1 ≡ Some (Place.Listed 3) }
    ensures unbound { place_after_all (queue_on_1 2 ∷ []) 2 ≡ Some (Place.Listed 4) }
    ensures unbound_high { place_after_all (queue_on_1 3 ∷ []) 3 ≡ Some (Place.Listed 5) }
    ensures ordered { place_after_all (queue_on_1 4 ∷ []) 4 ≡ Some (Place.Listed 4) }
    ensures ordered_high { place_after_all (queue_on_1 5 ∷ []) 5 ≡ Some (Place.Listed 5) }
{}

/// A work that runs keeps its pool; else a delay of no ticks, a timer and a body place it as a queueing does.
pub fn each_way_of_placing_goes_to_that_pool()
    ensures runs { place_after_all (a_runs ++ queue_on_1 0 ∷ []) 0 ≡ Some (Place.Inactive 0) }
    ensures delayed { place_after_all (delay_on_1 1 0 ∷ []) 1 ≡ Some (Place.Listed 3) }
    ensures fires { reply_to each_kind (run each_kind b_is_due) Instr.Fire ≡ Reply.Event (record { 0 = 1 }) Event.Fires }
    ensures fired { place_after_all (b_is_due ++ Instr.Fire ∷ []) 1 ≡ Some (Place.Listed 3) }
    ensures queues { reply_to each_kind (run each_kind g_queues_b) (Instr.Step 2)
        ≡ Reply.Event (record { 0 = 6 }) (Event.Queues (record { 0 = 1 }) false) }
    ensures queued { place_after_all (g_queues_b ++ Instr.Step 2 ∷ []) 1 ≡ Some (Place.Listed 3) }
{}

/// A body on the second CPU sets a timer of that CPU, in the high pool too, places a work there, and cancels it; one in an unbound pool sets a
/// timer of the first CPU.
pub fn bodies_arm_and_cancel_a_work()
    ensures scenario { IsValid bodies_arm }
    ensures delays { reply_to bodies_arm (run bodies_arm (a_has_done 0)) (Instr.Step 2)
        ≡ Reply.Event (record { 0 = 0 }) (Event.Delays (record { 0 = 1 }) 2 false) }
    ensures delayed { place_of_b (a_has_done 1) ≡ Some (Place.Timer 2 1) }
    ensures modifies { reply_to bodies_arm (run bodies_arm (a_has_done 1)) (Instr.Step 2)
        ≡ Reply.Event (record { 0 = 0 }) (Event.Mods (record { 0 = 1 }) 0 true) }
    ensures placed { place_of_b (a_has_done 2) ≡ Some (Place.Inactive 2) }
    ensures cancels { reply_to bodies_arm (run bodies_arm (a_has_done 2)) (Instr.Step 2)
        ≡ Reply.Event (record { 0 = 0 }) (Event.Cancels (record { 0 = 1 }) true) }
    ensures gone { place_of_b (a_has_done 3) ≡ None }
    ensures high { place_of_b (d_runs ++ Instr.Step 3 ∷ []) ≡ Some (Place.Timer 3 1) }
    ensures unbound { place_of_b (c_runs ++ Instr.Next ∷ []) ≡ Some (Place.Timer 4 0) }
{}

/// A work that burns two ticks goes on to its end in three `next`s, no fewer and no more; where nothing is left to do they go on as often as
/// may be.
pub fn next_goes_on_to_a_line()
    ensures gone { HasGone each_kind (run each_kind a_burns) 9 3 (run each_kind (a_burns ++ replicate 3 Instr.Next)) (Reply.Event (record { 0 = 0 }) Event.Finishes) }
    ensures whole { HasGone each_kind (run each_kind []) 2 2 (run each_kind (replicate 2 Instr.Next)) Reply.Done }
    ensures sooner { (after : State) (reply : Reply) → HasGone each_kind (run each_kind a_burns) 9 2 after reply → ⊥ }
    ensures later { (after : State) (reply : Reply) → HasGone each_kind (run each_kind a_burns) 9 4 after reply → ⊥ }
{}

/// A work that is pending can be queued again and again, which is spent. A disable counts although nothing was pending, so it comes out the
/// same, but not in the same state; and a tick doesn't, since time passes.
pub fn what_is_pending_stays_so()
    ensures again { HasRepeated each_kind (run each_kind (replicate 2 (queue_on_1 1))) (queue_on_1 1) Reply.Already 3 3 (run each_kind (replicate 5 (queue_on_1 1))) }
    ensures disable { HasRepeated each_kind (run each_kind (disable_it 1 ∷ [])) (disable_it 1) Reply.NotPending 1 1 (run each_kind (replicate 2 (disable_it 1))) }
    ensures counts { HasRepeated each_kind (run each_kind (disable_it 1 ∷ [])) (disable_it 1) Reply.NotPending 1 1 (run each_kind (disable_it 1 ∷ [])) → ⊥ }
    ensures tick { (after : State) → HasRepeated each_kind (run each_kind []) Instr.Tick Reply.Done 1 1 after → ⊥ }
{}

/// A work on a timer, under stamp 0, is set at 1 on one of 7 ticks, under stamp 1; and so three times more, under stamps 2, 3 and 4. Six steps
/// are spent: a delay, a tick and four such.
pub fn a_timer_is_set_again_and_again()
    ensures again { HasRepeated each_kind (run each_kind (b_is_set 1)) (mod_on_1 1 7) Reply.Changed 3 3 (run each_kind (b_is_set 4)) }
    ensures first { pending_at (run each_kind (b_is_set 1)) 1 ≡ Some (record { born = 1; stamp = 1; place = Place.Timer 8 1 }) }
    ensures last { pending_at (run each_kind (b_is_set 4)) 1 ≡ Some (record { born = 4; stamp = 4; place = Place.Timer 8 1 }) }
    ensures next { (run each_kind (b_is_set 4)).next ≡ 5 }
    ensures spent { (run each_kind (b_is_set 4)).spent ≡ 6 }
{}
