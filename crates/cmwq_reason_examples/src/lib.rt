//! Worked examples of why work items wait. Each function's contract gives the reasons at some positions
//! of one scenario. `cmwq_why_laws` has the text of some of them.
//!
//! Proved: worked examples of the reasons.
#![tactic(auto, unfolding(cmwq_table::specs::Table::table))]

ghost use Rattle.cmwq_reason_examples.specs.Waiting.{again, ahead_at, at, beside_rescuer, blamed_at, by_twos, chain, four_halves, hold, listed_before, outside, waits_at, why};
ghost use Rattle.cmwq_reasons.specs.Reasons.{lacks_memory, lacks_thaw, pending_half, running_half};
ghost use Rattle.cmwq_types.specs.Faults.{IsValid};
ghost use Rattle.std.specs.Prelude.{◌≡◌, ◌∷◌, [], None, Some, false, true};

use cmwq_reasons::{Reason, Turn};

/// The scenarios are valid, so they have runs.
pub fn scenarios_are_valid()
    ensures hold { IsValid hold }
    ensures again { IsValid again }
    ensures outside { IsValid outside }
    ensures chain { IsValid chain }
    ensures by_twos { IsValid by_twos }
    ensures listed_before { IsValid listed_before }
    ensures beside_rescuer { IsValid beside_rescuer }
    ensures four_halves { IsValid four_halves }
{}

/// A work goes from the worklist over its burns, a busy high pool and its sleep to its end.
pub fn work_goes_its_way()
    ensures at_0 { why hold 0 0 ≡ (None, Reason.NotPending) }
    ensures at_1 { why hold 1 0 ≡ (None, Reason.Free 0 Turn.Starts) }
    ensures at_4 { why hold 4 0 ≡ (Some Reason.ReadyNext, Reason.NotPending) }
    ensures at_5 { why hold 5 0 ≡ (Some Reason.Burns, Reason.NotPending) }
    ensures at_9 { why hold 9 0 ≡ (Some (Reason.HighHas (record { 0 = 2 })), Reason.NotPending) }
    ensures at_12 { why hold 12 0 ≡ (Some Reason.ReadyNext, Reason.NotPending) }
    ensures at_13 { why hold 13 0 ≡ (Some (Reason.Asleep 5), Reason.NotPending) }
    ensures at_15 { why hold 15 0 ≡ (Some Reason.WakesNext, Reason.NotPending) }
    ensures at_17 { why hold 17 0 ≡ (None, Reason.NotPending) }
{}

/// A work waits for the one place of its queue, which another one has while it is listed, burns and sleeps.
pub fn work_waits_for_max_active()
    ensures at_2 { why hold 2 1 ≡ (None, Reason.Inactive 0) }
    ensures held_at_2 { blamed_at hold 2 (pending_half 1) 1 ≡ pending_half 0 ∷ [] }
    ensures at_13 { why hold 13 1 ≡ (None, Reason.Inactive 0) }
    ensures held_at_13 { blamed_at hold 13 (pending_half 1) 1 ≡ running_half 0 ∷ [] }
    ensures at_17 { why hold 17 1 ≡ (None, Reason.Free 0 Turn.Starts) }
{}

/// A flush of the queue waits for what was born before it, by birth, though it was listed after the flush.
pub fn flush_waits_for_what_was_queued()
    ensures at_3 { waits_at hold 3 0 ≡ pending_half 0 ∷ pending_half 1 ∷ [] }
    ensures at_9 { waits_at hold 9 0 ≡ running_half 0 ∷ pending_half 1 ∷ [] }
    ensures at_17 { waits_at hold 17 0 ≡ pending_half 1 ∷ [] }
    ensures at_19 { waits_at hold 19 0 ≡ running_half 1 ∷ [] }
    ensures at_21 { waits_at hold 21 0 ≡ [] }
{}

/// A work that is queued while it runs has a reason for each half: it is held by itself, defers, and is deferred.
pub fn work_waits_for_itself()
    ensures at_3 { why again 3 0 ≡ (Some Reason.ReadyNext, Reason.Held 0) }
    ensures held_at_3 { blamed_at again 3 (pending_half 0) 0 ≡ running_half 0 ∷ [] }
    ensures at_6 { why again 6 0 ≡ (Some (Reason.Asleep 2), Reason.Free 0 Turn.Defers) }
    ensures at_7 { why again 7 0 ≡ (Some (Reason.Asleep 2), Reason.Deferred 0) }
    ensures held_at_7 { blamed_at again 7 (pending_half 0) 0 ≡ running_half 0 ∷ [] }
    ensures at_9 { why again 9 0 ≡ (Some Reason.WakesNext, Reason.Deferred 0) }
    ensures flush_at_7 { waits_at again 7 0 ≡ pending_half 0 ∷ [] }
{}

/// Then it waits for a timer, and behind another work.
pub fn work_is_delayed_and_disabled()
    ensures at_12 { why again 12 0 ≡ (Some Reason.ReadyNext, Reason.Inactive 0) }
    ensures held_at_12 { blamed_at again 12 (pending_half 0) 0 ≡ running_half 0 ∷ pending_half 1 ∷ [] }
    ensures at_15 { why again 15 0 ≡ (Some (Reason.Asleep 4), Reason.Timer 4 0) }
    ensures at_17 { why again 17 0 ≡ (Some Reason.WakesNext, Reason.FiresNext) }
    ensures at_20 { why again 20 0 ≡ (None, Reason.After 0 (pending_half 1)) }
    ensures ahead_at_20 { ahead_at again 20 0 ≡ 1 ∷ [] }
    ensures at_21 { why again 21 0 ≡ (None, Reason.Held 0) }
    ensures at_24 { why again 24 0 ≡ (None, Reason.Disabled 1) }
{}

/// Running, listed and deferred instances take up places of a queue, one work two of them; a sleeper has the one worker.
pub fn work_waits_for_both_halves()
    ensures at_4 { why again 4 1 ≡ (None, Reason.Inactive 0) }
    ensures held_at_4 { blamed_at again 4 (pending_half 1) 1 ≡ running_half 0 ∷ pending_half 0 ∷ [] }
    ensures held_at_7 { blamed_at again 7 (pending_half 1) 1 ≡ running_half 0 ∷ pending_half 0 ∷ [] }
    ensures at_11 { why again 11 1 ≡ (None, Reason.Held 0) }
    ensures at_15 { why again 15 1 ≡ (None, Reason.NoWorker 0) }
    ensures held_at_15 { blamed_at again 15 (pending_half 1) 1 ≡ running_half 0 ∷ [] }
    ensures at_17 { why again 17 1 ≡ (None, Reason.After 0 (running_half 0)) }
    ensures at_20 { why again 20 1 ≡ (None, Reason.Free 0 Turn.Starts) }
{}

/// Under pressure a work waits for a worker, and one of a queue with a rescuer goes past it.
pub fn work_waits_for_memory()
    ensures at_3 { why outside 3 0 ≡ (None, Reason.NoWorker 0) }
    ensures nobody_at_3 { blamed_at outside 3 (pending_half 0) 0 ≡ [] }
    ensures rescued_at_4 { why outside 4 1 ≡ (None, Reason.Free 0 Turn.StartsOnRescuer) }
    ensures ahead_at_4 { ahead_at outside 4 1 ≡ 0 ∷ [] }
    ensures at_4 { why outside 4 0 ≡ (None, Reason.After 0 (pending_half 1)) }
    ensures at_8 { why outside 8 0 ≡ (None, Reason.Held 0) }
    ensures held_at_8 { blamed_at outside 8 (pending_half 0) 0 ≡ running_half 1 ∷ [] }
    ensures at_12 { why outside 12 0 ≡ (None, Reason.Free 0 Turn.Starts) }
{}

/// An inactive work stands behind the inactive ones of its own queue, and behind no others.
pub fn inactive_works_stand_behind_their_queues()
    ensures behind_w { ahead_at beside_rescuer 7 4 ≡ 3 ∷ [] }
    ensures first { ahead_at beside_rescuer 7 3 ≡ [] }
{}

/// A frozen queue keeps what is inactive, and pressure what no worker can take: the inactive too, but nothing that a
/// rescuer takes. What was listed before a freeze goes on, and so does a pool that has made a worker.
pub fn work_waits_for_thaw_and_relief()
    ensures at_5 { why outside 5 2 ≡ (None, Reason.Frozen 0) }
    ensures thaw_for_z { lacks_thaw outside (at outside 7) (pending_half 2) ≡ true }
    ensures memory_for_z { lacks_memory outside (at outside 7) (pending_half 2) ≡ true }
    ensures memory_for_x { lacks_memory outside (at outside 7) (pending_half 0) ≡ true }
    ensures thaw_for_x { lacks_thaw outside (at outside 7) (pending_half 0) ≡ false }
    ensures memory_for_y { lacks_memory outside (at outside 7) (pending_half 1) ≡ false }
    ensures relief_at_12 { lacks_memory outside (at outside 12) (pending_half 2) ≡ false }
    ensures listed_at_6 { why listed_before 6 0 ≡ (None, Reason.NoWorker 0) }
    ensures thaw_at_6 { lacks_thaw listed_before (at listed_before 6) (pending_half 0) ≡ false }
    ensures memory_at_6 { lacks_memory listed_before (at listed_before 6) (pending_half 0) ≡ false }
{}

/// A wait through all ranks: for a place, for the concurrency level, for the CPU, for the high pool.
pub fn works_wait_in_a_chain()
    ensures flush { waits_at chain 15 0 ≡ pending_half 3 ∷ [] }
    ensures y { why chain 15 3 ≡ (None, Reason.Inactive 0) }
    ensures y_held { blamed_at chain 15 (pending_half 3) 3 ≡ pending_half 2 ∷ [] }
    ensures x { why chain 15 2 ≡ (None, Reason.Held 0) }
    ensures x_held { blamed_at chain 15 (pending_half 2) 2 ≡ running_half 0 ∷ running_half 1 ∷ [] }
    ensures d { why chain 15 1 ≡ (Some (Reason.Behind (record { 0 = 0 })), Reason.NotPending) }
    ensures c { why chain 15 0 ≡ (Some (Reason.HighHas (record { 0 = 4 })), Reason.NotPending) }
    ensures u { why chain 15 4 ≡ (Some Reason.Burns, Reason.NotPending) }
{}

/// Of two works that could go on, wake or fire, one is next, and the other comes after it.
pub fn one_of_two_is_next()
    ensures ready_at_9 { why by_twos 9 0 ≡ (Some Reason.ReadyNext, Reason.NotPending) }
    ensures after_at_9 { why by_twos 9 1 ≡ (Some (Reason.ReadyAfter (running_half 0)), Reason.NotPending) }
    ensures wakes_at_12 { why by_twos 12 0 ≡ (Some Reason.WakesNext, Reason.NotPending) }
    ensures after_at_12 { why by_twos 12 1 ≡ (Some (Reason.WakesAfter (running_half 0)), Reason.NotPending) }
    ensures fires_at_12 { why by_twos 12 2 ≡ (None, Reason.FiresNext) }
    ensures after_it_at_12 { why by_twos 12 3 ≡ (None, Reason.FiresAfter (record { 0 = 2 })) }
{}
