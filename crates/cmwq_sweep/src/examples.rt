//! Worked examples of runs that differ by a queue's declared `max_active`, as theorems over the definitions.
ghost use Rattle.cmwq_sweep.specs.Examples.{longer_with_more, longer_with_more_json, longer_with_more_told, set_by_the_actor, set_by_the_actor_told, swept_of};
ghost use Rattle.std.specs.Prelude.{◌≡◌};

use cmwq_reports::Format;

/// A greater `max_active` shortens the longest wait of the queue's works, and the run takes longer.
pub fn greater_max_shortens_waits_and_lengthens_the_run()
    ensures text { swept_of Format.Text longer_with_more 1 1 3 ≡ longer_with_more_told }
    ensures json { swept_of Format.Json longer_with_more 1 1 2 ≡ longer_with_more_json }
{}

/// What the actor sets stays, whatever was declared; an instance that is left pending counts as one that is left.
pub fn what_the_actor_sets_stays()
    ensures { swept_of Format.Text set_by_the_actor 0 2 2 ≡ set_by_the_actor_told }
{}
