//! Worked examples of the definitions, as theorems: a race of two actors, and how all end.
ghost use Rattle.std.specs.Prelude.{◌≡◌, [], ◌∷◌};
ghost use Rattle.cmwq_types.specs.declared.instr.Instr.TheVariants as instr;
ghost use Rattle.cmwq_actors.specs.Ending.{ending_of};
ghost use Rattle.cmwq_actors.specs.Examples.{cancel_it, queue_it, race, two_actors};
ghost use Rattle.cmwq_actors.specs.Interleaving.{IsFrontOf, issued_by, script_at, scripts_of};
ghost use Rattle.cmwq_actors.specs.declared.ending.Ending.TheVariants.{Done, Full, Exhausted};

/// Each line stands in its actor's script as often as it says, in order.
pub fn scripts_repeat_their_lines()
    ensures { scripts_of two_actors
        ≡ (queue_it ∷ instr.Busy ∷ instr.Busy ∷ []) ∷ (cancel_it ∷ []) ∷ [] }
{}

/// What a caller has issued are the instructions of its own entries, in order, wherever the others stand between them.
pub fn race_has_both_scripts()
    ensures first { issued_by 0 race ≡ script_at (scripts_of two_actors) 0 }
    ensures second { issued_by 1 race ≡ script_at (scripts_of two_actors) 1 }
    ensures others { issued_by 2 race ≡ [] }
{}

/// A front is as long as one likes, and begins at the first instruction.
pub fn fronts_begin_at_the_first()
    ensures none { IsFrontOf [] (queue_it ∷ cancel_it ∷ []) }
    ensures one { IsFrontOf (queue_it ∷ []) (queue_it ∷ cancel_it ∷ []) }
    ensures all { IsFrontOf (queue_it ∷ cancel_it ∷ []) (queue_it ∷ cancel_it ∷ []) }
{}

/// All end exhausted where one does, else full where one does, else done.
pub fn exhausted_comes_before_full()
    ensures exhausted { ending_of (Full ∷ Done ∷ Exhausted ∷ Full ∷ []) ≡ Exhausted }
    ensures full { ending_of (Done ∷ Full ∷ Done ∷ []) ≡ Full }
    ensures done { ending_of (Done ∷ Done ∷ []) ≡ Done }
    ensures nobody { ending_of [] ≡ Done }
{}
