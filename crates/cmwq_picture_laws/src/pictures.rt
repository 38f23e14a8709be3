//! Worked examples of pictures, as theorems over the definitions: each function's contract says what one picture shows.
ghost use Rattle.cmwq_picture_laws.specs.Pictures.{folded, long_sleep, long_sleep_lines, long_sleep_picture, queued_while_running, queued_while_running_lines, queued_while_running_picture, between, empty_picture, pictured, rescuer_burns, rescuer_burns_lines, rescuer_burns_picture, sharing, sharing_lines, sharing_picture, taken_cpu, taken_cpu_lines, taken_cpu_picture, timers_set, timers_set_again, timers_set_again_lines, timers_set_again_picture, timers_set_lines, timers_set_picture, whole};
ghost use Rattle.std.specs.Prelude.{◌≡◌, ◌∷◌, []};

/// Two works share a CPU, and a third one waits for room in their queue. What was refused and a question leave no mark.
pub fn works_share_a_cpu()
    ensures { pictured sharing sharing_lines whole ≡ sharing_picture }
{}

/// A work whose CPU a work of high priority has taken waits for it; of four ticks the second and the third are drawn.
pub fn work_waits_for_the_cpu()
    ensures { pictured taken_cpu taken_cpu_lines (between 1 3) ≡ taken_cpu_picture }
{}

/// A work that is queued while it runs has a second row.
pub fn work_is_queued_while_it_runs()
    ensures { pictured queued_while_running queued_while_running_lines whole ≡ queued_while_running_picture }
{}

/// A worker of an unbound pool and a rescuer that burn have rows of their own, and a timer has its sign.
pub fn rescuer_burns_beside_a_worker()
    ensures { pictured rescuer_burns rescuer_burns_lines whole ≡ rescuer_burns_picture }
{}

/// Who set a timer is a mark in the tick in which it was set, in the second row of a work that runs.
pub fn bodies_set_timers()
    ensures { pictured timers_set timers_set_lines whole ≡ timers_set_picture }
{}

/// The last work that set a timer is shown, and none where the actor set it anew; nor is what finds a timer set, or places a work at once.
pub fn last_to_set_a_timer_is_shown()
    ensures { pictured timers_set_again timers_set_again_lines whole ≡ timers_set_again_picture }
{}

/// A run in which no time passes has no column.
pub fn empty_run_has_no_column()
    ensures { pictured sharing [] whole ≡ empty_picture }
{}

/// A long sleep has one column, but for the tick at which the actor freezes; the freeze has a row; and of the works one alone has rows.
pub fn long_sleep_is_folded()
    ensures { folded long_sleep long_sleep_lines (0 ∷ []) ≡ long_sleep_picture }
{}
